// The numbers of set-up's faults.
ghost use Rattle.std.specs.Prelude.{◌≡◌};
ghost use Rattle.register_parts.specs.CheckedCounts.{setup_fault_number};

use crate::setup_fault::SetUpFault;

impl SetUpFault {
    // The number under which callers report the fault: a method, as `JobFault` has it.
    pub fn number(&self) -> u8
        ensures { result ≡ setup_fault_number self.now }
    {
        match self {
            SetUpFault::TooManyClasses
            | SetUpFault::OtherClassCount
            | SetUpFault::TooManyItems
            | SetUpFault::TooManyItemsInAll
            | SetUpFault::NoSuchVariant => 5,
            SetUpFault::TooLittleMemory => 7,
        }
    }
}
