// Writing: a value is pending in the job's bay until the job commits.
ghost use Rattle.jobs.specs.Answered.{Answered};
ghost use Rattle.jobs.specs.Faults.{done_reply};
ghost use Rattle.jobs.specs.Requests.{to_write};

use crate::memory::Memory;
use crate::pending_items::put_item;
use crate::pending_memory::pending_index;
use crate::register::Register;
use cells::value::Value;
use orders::class_order::ClassOrder;
use register_parts::bay::{Bay, Job};
use register_parts::job_fault::JobFault;
use rules::access::Access;
use rules::local_rule::LocalRule;

impl<O: ClassOrder> Register<O> {
    // Makes a value pending for an item of the job's own class; none stands for bytes that are no value.
    pub(crate) fn write_item<V: Value, R: LocalRule>(
        &mut self,
        memory: &mut Memory<'_, V, R>,
        class: u8,
        bay: u8,
        item: u8,
        value: Option<V>,
    ) -> Result<(), JobFault>
        ensures { Answered (O.ClassOrder) (V.Value) (R.LocalRule) self.old memory.old (to_write class bay item value) (done_reply result) self.new memory.new }
    {
        let id = self.door(memory, class, bay)?;
        let Job::Update(mut job) = self.running_job(id)? else {
            return Err(JobFault::OnlyReads);
        };
        if item >= self.counts.items[id.class as usize] {
            return Err(JobFault::NoSuchItem);
        }
        let value = value.ok_or(JobFault::NoValue)?;
        let place = job.pending.room_for(item).ok_or(JobFault::TooManyPending)?;
        memory.claim(id, Access::Write, item)?;
        memory.set_pending(pending_index(id, place), value);
        put_item(&mut job.pending, place, item);
        self.set_bay(id, Bay::Open(Job::Update(job)));
        Ok(())
    }
}
