// The tick: the end of a version period at one grade.
ghost use Rattle.jobs.specs.Answered.{Answered};
ghost use Rattle.jobs.specs.Faults.{tick_reply};
ghost use Rattle.jobs.specs.Requests.{to_tick};

use crate::memory::Memory;
use crate::register::Register;
use cells::value::Value;
use orders::class_order::ClassOrder;
use register_parts::declaration::Declaration;
use register_parts::job_fault::JobFault;
use rules::local_rule::LocalRule;

impl<O: ClassOrder> Register<O> {
    // Declares the next stable version of the grade whose turn it is, and closes the jobs that would read too old a version.
    pub(crate) fn tick_clock<V: Value, R: LocalRule>(
        &mut self,
        memory: &mut Memory<'_, V, R>,
    ) -> Result<Declaration, JobFault>
        ensures { Answered (O.ClassOrder) (V.Value) (R.LocalRule) self.old memory.old (to_tick) (tick_reply result) self.new memory.new }
    {
        if !self.has_enough(memory) {
            return Err(JobFault::TooLittleMemory);
        }
        let tick = self.clock.advance()?;
        self.sweep(memory, tick);
        Ok(tick)
    }
}
