// Why a line is refused.
use jobs::job_fault::JobFault;

#[derive(Clone, Copy, PartialEq, Eq, Debug)]
pub enum LineFault {
    // Empty, an odd number of digits, too many, or another character.
    Malformed,
    UnknownOperation,
    // Not what set-up awaits, or a job before set-up is done.
    OutOfOrder,
    WrongLength,
    // A number of set-up that is out of range.
    OutOfRange,
    // A drawn set with a class that is not smaller, or a label that is used already.
    Unfit,
    // The register refuses the call.
    Refused(JobFault),
}

// The part that raised a fault.
#[derive(Clone, Copy, PartialEq, Eq, Debug)]
pub enum Part {
    Line,
    Door,
    Rule,
}
