// The numbers of a line's faults, the part that raises each, and how faults pass up to the line.
ghost use Rattle.std.specs.Prelude.{◌≡◌};
ghost use Rattle.lines.specs.LineFaults.{fault_number, named_bay, raised_by, fault_of_order, fault_of_setup};
ghost use Rattle.lines.specs.declared.line_fault.LineFault.TheVariants.{Refused as refused_by_register};

use crate::line_fault::{LineFault, Part};
use jobs::job_fault::JobFault;
use jobs::setup_fault::SetUpFault;
use orders::order_fault::OrderFault;

impl From<JobFault> for LineFault {
    ghost from_gives = { λ e r. r ≡ refused_by_register e };

    fn from(e: JobFault) -> LineFault {
        LineFault::Refused(e)
    }
}

impl From<OrderFault> for LineFault {
    ghost from_gives = { λ e r. r ≡ fault_of_order e };

    fn from(e: OrderFault) -> LineFault {
        match e {
            OrderFault::TooManyClasses | OrderFault::RankTooHigh => LineFault::OutOfRange,
            OrderFault::NotSmaller | OrderFault::LabelUsed => LineFault::Unfit,
        }
    }
}

impl From<SetUpFault> for LineFault {
    ghost from_gives = { λ e r. r ≡ fault_of_setup e };

    fn from(e: SetUpFault) -> LineFault {
        match e {
            SetUpFault::TooLittleMemory => LineFault::Refused(JobFault::TooLittleMemory),
            _ => LineFault::OutOfRange,
        }
    }
}

impl LineFault {
    // The number that the station is told. A method, since the number leaves out the bay, so a `From` would lose it.
    pub fn number(&self) -> u8
        ensures { result ≡ fault_number self.now }
    {
        match self {
            LineFault::Malformed => 1,
            LineFault::UnknownOperation => 2,
            LineFault::OutOfOrder => 3,
            LineFault::WrongLength => 4,
            LineFault::OutOfRange => 5,
            LineFault::Unfit => 6,
            LineFault::Refused(fault) => fault.number(),
        }
    }

    // The bay that stands in the way, where the fault names one.
    pub fn named(&self) -> Option<u8>
        ensures { result ≡ named_bay self.now }
    {
        match self {
            LineFault::Refused(fault) => fault.named(),
            _ => None,
        }
    }

    // The part that raised the fault.
    pub fn part(&self) -> Part
        ensures { result ≡ raised_by self.now }
    {
        match self {
            LineFault::Refused(fault) if fault.raised_by_rule() => Part::Rule,
            LineFault::Refused(_) => Part::Door,
            _ => Part::Line,
        }
    }
}
