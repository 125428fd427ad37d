// Which jobs a tick closes.
ghost use Rattle.std.specs.Prelude.{◌≡◌, map, length};
ghost use Rattle.register_parts.specs.LateJobs.{late_bay, closed_if_late};

use crate::bay::{Bay, Job};
use crate::declaration::Declaration;

// A long job is too old once it is so many versions behind what grade 0 declares.
const LONG_LAG: u32 = 2;

impl Bay {
    // Whether the tick closes the job in this bay of a class of the given grade: an update job of the tick's grade that reads lower classes
    // below the version declared, or, at a tick at grade 0, a long job whose version would no longer be kept.
    // The grade is the class's and the tick the clock's: a struct of the two would be made for each class of a sweep and say no more.
    pub fn is_late(self, grade: u8, tick: Declaration) -> bool
        ensures { result ≡ late_bay grade tick self }
    {
        match self {
            Bay::Open(Job::Update(job)) => grade == tick.grade
                && job.down.is_some_and(|down| down < tick.number),
            Bay::Open(Job::Long(number)) => tick.grade == 0
                && tick
                    .number
                    .checked_sub(LONG_LAG)
                    .is_some_and(|oldest| number <= oldest),
            Bay::Free | Bay::Closed => false,
        }
    }

    // The bay after the tick.
    pub fn after_tick(self, grade: u8, tick: Declaration) -> Bay
        ensures { result ≡ closed_if_late grade tick self }
    {
        if self.is_late(grade, tick) {
            Bay::Closed
        } else {
            self
        }
    }
}

// Closes the late jobs in the bays of a class of the given grade.
pub fn close_late(bays: &mut [Bay; 8], grade: u8, tick: Declaration)
    ensures state { bays.new ≡ map (closed_if_late grade tick) bays.old }
    ensures length { length bays.old ≡ 8 }
{
    for bay in bays.iter_mut() {
        *bay = bay.after_tick(grade, tick);
    }
}
