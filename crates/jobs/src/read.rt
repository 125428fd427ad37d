// Reading: an item of a class that the job's own class dominates.
ghost use Rattle.std.specs.Prelude.{◌≡◌, ◌-◌};
ghost use Rattle.laws.specs.State.{or_else};
ghost use Rattle.laws.specs.Clock.{declared};
ghost use Rattle.jobs.specs.Answered.{Answered};
ghost use Rattle.jobs.specs.Faults.{read_reply};
ghost use Rattle.jobs.specs.Requests.{to_read};

use crate::first_cell::first_cell;
use crate::memory::Memory;
use crate::register::Register;
use cells::value::Value;
use orders::class_order::ClassOrder;
use register_parts::bay::{Bay, Job, UpdateJob};
use register_parts::job_fault::JobFault;
use rules::access::Access;
use rules::local_rule::LocalRule;

impl<O: ClassOrder> Register<O> {
    // A long job reads at its own number. An update job reads its own class behind a claim, and lower classes at its down number.
    pub(crate) fn read_item<V: Value, R: LocalRule>(
        &mut self,
        memory: &mut Memory<'_, V, R>,
        class: u8,
        bay: u8,
        other: u8,
        item: u8,
    ) -> Result<V, JobFault>
        ensures { Answered (O.ClassOrder) (V.Value) (R.LocalRule) self.old memory.old (to_read class bay other item) (read_reply result) self.new memory.new }
    {
        let id = self.door(memory, class, bay)?;
        if other >= self.order.classes() {
            return Err(JobFault::Unknown);
        }
        let job = self.running_job(id)?;
        if !self.order.dominates(id.class, other) {
            return Err(JobFault::NotDominated);
        }
        if item >= self.counts.items[other as usize] {
            return Err(JobFault::NoSuchItem);
        }
        let place = first_cell(&self.counts, other) + item as usize;
        match job {
            Job::Long(number) => Ok(memory.value_at(place, number)),
            Job::Update(job) => {
                if id.class != other {
                    let down = self.down_number(id.class, job.down);
                    let read_below = UpdateJob {
                        down: Some(down),
                        ..job
                    };
                    self.set_bay(id, Bay::Open(Job::Update(read_below)));
                    return Ok(memory.value_at(place, down));
                }
                if let Some(value) = memory.pending_value(id, job.pending, item) {
                    return Ok(value);
                }
                memory.claim(id, Access::Read, item)?;
                Ok(memory.newest_value(place))
            }
        }
    }

    // The first read from below fixes the down number: what the grade just under the class's own has declared.
    fn down_number(&self, class: u8, down: Option<u32>) -> u32
        ensures reply { result ≡ or_else down (declared self.now.clock.top (O.ClassOrder.grade self.now.order class - 1) self.now.clock.ticks) }
    {
        down.unwrap_or_else(|| {
            self.clock
                .declared(self.order.grade(class).saturating_sub(1))
        })
    }
}
