// Committing: a job's pending values are stored under the number under which its class writes, if the job passes validation.
ghost use Rattle.std.specs.Prelude.{◌≡◌, ◌+◌};
ghost use Rattle.laws.specs.Clock.{declared};
ghost use Rattle.laws.specs.Actions.{below_floor};
ghost use Rattle.jobs.specs.Answered.{Answered};
ghost use Rattle.jobs.specs.Faults.{done_reply};
ghost use Rattle.jobs.specs.Requests.{to_commit};
ghost use Rattle.jobs.specs.Parts.{class_in};
ghost use Rattle.jobs.specs.Committing.{validated, validated_claims};

use crate::bay_id::BayId;
use crate::first_cell::first_cell;
use crate::memory::Memory;
use crate::register::Register;
use cells::value::Value;
use orders::class_order::ClassOrder;
use register_parts::bay::{Bay, Job};
use register_parts::job_fault::JobFault;
use rules::local_rule::LocalRule;

impl<O: ClassOrder> Register<O> {
    // Ends the job of a bay; where it passes validation, what it wrote is stored. A closed bay is freed.
    pub(crate) fn commit_job<V: Value, R: LocalRule>(
        &mut self,
        memory: &mut Memory<'_, V, R>,
        class: u8,
        bay: u8,
    ) -> Result<(), JobFault>
        ensures { Answered (O.ClassOrder) (V.Value) (R.LocalRule) self.old memory.old (to_commit class bay) (done_reply result) self.new memory.new }
    {
        let id = self.door(memory, class, bay)?;
        let job = match self.bay(id) {
            Bay::Free => return Err(JobFault::BayFree),
            Bay::Closed => {
                self.set_bay(id, Bay::Free);
                return Err(JobFault::BayClosed);
            }
            Bay::Open(job) => job,
        };
        let rule = &mut memory.rules[id.class as usize];
        let Job::Update(job) = job else {
            self.end_job(rule, id);
            return Ok(());
        };
        if let Err(fault) = self.validate(rule, id, job.down) {
            self.end_job(rule, id);
            return Err(fault);
        }
        let items = self.counts.items[id.class as usize];
        let first = first_cell(&self.counts, id.class);
        let number = self.writing_number(id.class);
        memory.store_pending(id, job.pending, items, first, number);
        self.commit_bay(id, job.down);
        Ok(())
    }

    // A job that was overtaken is refused; any other has to settle with the rule of its class.
    fn validate<R: LocalRule>(
        &self,
        rule: &mut R,
        id: BayId,
        down: Option<u32>,
    ) -> Result<(), JobFault>
        ensures reply { result ≡ validated (below_floor (class_in self.now id.class).floor down) ((R.LocalRule.meaning rule.old).stale id.bay) }
        ensures rule { R.LocalRule.meaning rule.new ≡ validated_claims (below_floor (class_in self.now id.class).floor down) id.bay (R.LocalRule.meaning rule.old) }
    {
        if self.has_overtaken(id, down) {
            return Err(JobFault::Overtaken);
        }
        rule.settle(id.bay)?;
        Ok(())
    }

    // A class writes under the number that follows the one declared for its grade.
    fn writing_number(&self, class: u8) -> u32
        ensures reply { result ≡ declared self.now.clock.top (O.ClassOrder.grade self.now.order class) self.now.clock.ticks + 1 }
    {
        self.clock.declared(self.order.grade(class)) + 1
    }
}
