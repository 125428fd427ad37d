// The door: what every call for a bay is asked first.
ghost use Rattle.std.specs.Prelude.{◌≡◌, length};
ghost use Rattle.jobs.specs.Represents.{enough};
ghost use Rattle.jobs.specs.Parts.{class_in, bay_in, admitted, found, Names, job_in};

use crate::bay_id::BayId;
use crate::first_cell::first_cell;
use crate::memory::Memory;
use crate::pending_memory::PENDING_PLACES;
use crate::register::Register;
use cells::value::Value;
use orders::class_order::ClassOrder;
use register_parts::bay::{Bay, Job};
use register_parts::job_fault::JobFault;
use rules::local_rule::{BAYS, LocalRule};

impl<O: ClassOrder> Register<O> {
    // Whether enough memory is lent.
    pub(crate) fn has_enough<V: Value, R: LocalRule>(&self, memory: &Memory<'_, V, R>) -> bool
        ensures reply { result ≡ enough (O.ClassOrder) (V.Value) (R.LocalRule) self.now memory.now }
    {
        let classes = self.order.classes();
        first_cell(&self.counts, classes) <= memory.cells.len()
            && usize::from(classes) * PENDING_PLACES <= memory.pending.len()
            && usize::from(classes) <= memory.rules.len()
    }

    // The bay that a call is for, where there is one of these numbers.
    pub(crate) fn door<V: Value, R: LocalRule>(
        &self,
        memory: &Memory<'_, V, R>,
        class: u8,
        bay: u8,
    ) -> Result<BayId, JobFault>
        ensures reply { found self.now result ≡ admitted (O.ClassOrder) (V.Value) (R.LocalRule) self.now memory.now class bay }
        ensures names { Names class bay result }
    {
        if !self.has_enough(memory) {
            return Err(JobFault::TooLittleMemory);
        }
        if class >= self.order.classes() || bay >= BAYS {
            return Err(JobFault::Unknown);
        }
        Ok(BayId { class, bay })
    }

    // The job that runs in a bay.
    pub(crate) fn running_job(&self, id: BayId) -> Result<Job, JobFault>
        ensures reply { result ≡ job_in (bay_in self.now id.class id.bay) }
        ensures eight { length (class_in self.now id.class).bays ≡ 8 }
    {
        match self.bay(id) {
            Bay::Free => Err(JobFault::BayFree),
            Bay::Closed => Err(JobFault::BayClosed),
            Bay::Open(job) => Ok(job),
        }
    }
}
