// Set-up of a register over any order of classes.
ghost use Rattle.std.specs.Prelude.{◌≤◌};
ghost use Rattle.register_parts.specs.ClockCalls.{Shows};
ghost use Rattle.register_parts.specs.CheckedCounts.{said};
ghost use Rattle.jobs.specs.SetUp.{counts_for, SetUp, TopReached};

use crate::register::Register;
use orders::class_order::ClassOrder;
use orders::top_grade::top_grade;
use register_parts::bay::Bay;
use register_parts::class_setup::ClassSetup;
use register_parts::class_state::ClassState;
use register_parts::clock::Clock;
use register_parts::item_counts::ItemCounts;
use register_parts::setup_fault::SetUpFault;

impl<O: ClassOrder + Drop> Register<O> {
    // A fresh register over an order, with one record for each of its classes and a variant of the local rules.
    pub fn new(order: O, records: &[ClassSetup], variant: u8) -> Result<Register<O>, SetUpFault>
        ensures reply { SetUp (O.ClassOrder) order (counts_for (O.ClassOrder.classes order) (said records.now)) variant result }
        ensures laws { TopReached (O.ClassOrder) result }
    {
        if records.len() != order.classes() as usize {
            return Err(SetUpFault::OtherClassCount);
        }
        let counts = ItemCounts::new(records)?;
        let clock = fresh_clock(top_grade(&order));
        let fresh = ClassState {
            floor: 0,
            bays: [Bay::Free; 8],
        };
        Ok(Register {
            order,
            counts,
            variant,
            clock,
            classes: [fresh; 16],
        })
    }
}

// A clock that has not ticked yet.
fn fresh_clock(top: u8) -> Clock
    requires { top ≤ 23 }
    ensures reply { Shows result top 0 }
{
    Clock {
        top,
        ticks: 0,
        numbers: [0; 24],
    }
}
