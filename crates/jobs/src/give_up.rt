// Giving up: the job of a bay is aborted.
ghost use Rattle.jobs.specs.Answered.{Answered};
ghost use Rattle.jobs.specs.Faults.{done_reply};
ghost use Rattle.jobs.specs.Requests.{to_give_up};

use crate::memory::Memory;
use crate::register::Register;
use cells::value::Value;
use orders::class_order::ClassOrder;
use register_parts::bay::Bay;
use register_parts::job_fault::JobFault;
use rules::local_rule::LocalRule;

impl<O: ClassOrder> Register<O> {
    // Frees an open or closed bay.
    pub(crate) fn give_up_job<V: Value, R: LocalRule>(
        &mut self,
        memory: &mut Memory<'_, V, R>,
        class: u8,
        bay: u8,
    ) -> Result<(), JobFault>
        ensures { Answered (O.ClassOrder) (V.Value) (R.LocalRule) self.old memory.old (to_give_up class bay) (done_reply result) self.new memory.new }
    {
        let id = self.door(memory, class, bay)?;
        match self.bay(id) {
            Bay::Free => Err(JobFault::BayFree),
            Bay::Closed => {
                self.set_bay(id, Bay::Free);
                Ok(())
            }
            Bay::Open(_) => {
                self.end_job(&mut memory.rules[id.class as usize], id);
                Ok(())
            }
        }
    }
}
