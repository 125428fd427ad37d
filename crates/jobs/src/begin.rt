// Beginning: a free bay is opened with a new job.
ghost use Rattle.std.specs.Prelude.{◌≡◌};
ghost use Rattle.laws.specs.Clock.{declared};
ghost use Rattle.jobs.specs.Answered.{Answered};
ghost use Rattle.jobs.specs.Faults.{done_reply};
ghost use Rattle.jobs.specs.Requests.{to_begin};
ghost use Rattle.jobs.specs.Opened.{opened};

use crate::memory::Memory;
use crate::register::Register;
use cells::value::Value;
use orders::class_order::ClassOrder;
use register_parts::bay::{Bay, Job, PendingItems, UpdateJob};
use register_parts::job_fault::JobFault;
use register_parts::job_kind::JobKind;
use rules::local_rule::LocalRule;

impl<O: ClassOrder> Register<O> {
    // Opens a free bay with a job of a kind.
    pub(crate) fn begin_job<V: Value, R: LocalRule>(
        &mut self,
        memory: &Memory<'_, V, R>,
        class: u8,
        bay: u8,
        kind: u8,
    ) -> Result<(), JobFault>
        ensures { Answered (O.ClassOrder) (V.Value) (R.LocalRule) self.old memory.now (to_begin class bay kind) (done_reply result) self.new memory.now }
    {
        let id = self.door(memory, class, bay)?;
        let kind = JobKind::try_from(kind)?;
        match self.bay(id) {
            Bay::Free => {
                let job = self.new_job(id.class, kind);
                self.set_bay(id, Bay::Open(job));
                Ok(())
            }
            Bay::Closed | Bay::Open(_) => Err(JobFault::BayNotFree),
        }
    }

    // A long job reads at the stable version of its grade.
    fn new_job(&self, class: u8, kind: JobKind) -> Job
        ensures reply { result ≡ opened kind (declared self.now.clock.top (O.ClassOrder.grade self.now.order class) self.now.clock.ticks) }
    {
        match kind {
            JobKind::Update => Job::Update(UpdateJob {
                down: None,
                pending: PendingItems {
                    count: 0,
                    items: [0; 8],
                },
            }),
            JobKind::Long => Job::Long(self.clock.declared(self.order.grade(class))),
        }
    }
}
