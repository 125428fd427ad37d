// Which fault a refusal tells: the reply's bytes read back.
ghost use Rattle.std.specs.Prelude.{◌≡◌, ok_or};
ghost use Rattle.lines.specs.ToldFaults.{numbered, told_fault};

use crate::line_fault::LineFault;
use jobs::job_fault::JobFault;

// The bytes of a reply that refuses nothing.
#[derive(Clone, Copy, PartialEq, Eq, Debug)]
pub struct NoRefusal;

// The fault that goes by a number and names no bay.
fn numbered_fault(number: u8) -> Option<LineFault>
    ensures reply { result ≡ numbered number }
{
    match number {
        1 => Some(LineFault::Malformed),
        2 => Some(LineFault::UnknownOperation),
        3 => Some(LineFault::OutOfOrder),
        4 => Some(LineFault::WrongLength),
        5 => Some(LineFault::OutOfRange),
        6 => Some(LineFault::Unfit),
        7 => Some(LineFault::Refused(JobFault::TooLittleMemory)),
        8 => Some(LineFault::Refused(JobFault::Unknown)),
        9 => Some(LineFault::Refused(JobFault::BayNotFree)),
        10 => Some(LineFault::Refused(JobFault::BayFree)),
        11 => Some(LineFault::Refused(JobFault::BayClosed)),
        12 => Some(LineFault::Refused(JobFault::NotDominated)),
        13 => Some(LineFault::Refused(JobFault::NoSuchItem)),
        14 => Some(LineFault::Refused(JobFault::OnlyReads)),
        15 => Some(LineFault::Refused(JobFault::NoValue)),
        16 => Some(LineFault::Refused(JobFault::TooManyPending)),
        18 => Some(LineFault::Refused(JobFault::Overtaken)),
        19 => Some(LineFault::Refused(JobFault::Stale)),
        20 => Some(LineFault::Refused(JobFault::ClockAtEnd)),
        _ => None,
    }
}

impl TryFrom<&[u8]> for LineFault {
    type Error = NoRefusal;

    ghost try_from_gives = { λ reply fault. fault ≡ ok_or (told_fault reply.now) (record {}) };

    fn try_from(reply: &[u8]) -> Result<LineFault, NoRefusal> {
        match reply {
            [number] => numbered_fault(*number).ok_or(NoRefusal),
            [17, bay] => Ok(LineFault::Refused(JobFault::ClaimedBy(*bay))),
            _ => Err(NoRefusal),
        }
    }
}
