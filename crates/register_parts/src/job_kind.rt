// The kinds of jobs. A job is a transaction.
ghost use Rattle.std.specs.Prelude.{◌≡◌};
ghost use Rattle.register_parts.specs.JobKinds.{kind_by_number, number_of_kind, fault_of_kind};

use crate::job_fault::JobFault;

#[derive(Clone, Copy, PartialEq, Eq, Debug)]
pub enum JobKind {
    // A read-write transaction.
    Update,
    // A read-only transaction, on a stable version.
    Long,
}

// A number that names no kind of job.
#[derive(Clone, Copy, PartialEq, Eq, Debug)]
pub struct UnknownKind(pub u8);

impl TryFrom<u8> for JobKind {
    type Error = UnknownKind;

    ghost try_from_gives = { λ q r. r ≡ kind_by_number q };

    fn try_from(number: u8) -> Result<JobKind, UnknownKind> {
        match number {
            0 => Ok(JobKind::Update),
            1 => Ok(JobKind::Long),
            _ => Err(UnknownKind(number)),
        }
    }
}

impl From<JobKind> for u8 {
    ghost from_gives = { λ k r. r ≡ number_of_kind k };

    fn from(kind: JobKind) -> u8 {
        match kind {
            JobKind::Update => 0,
            JobKind::Long => 1,
        }
    }
}

impl From<UnknownKind> for JobFault {
    ghost from_gives = { λ e r. r ≡ fault_of_kind e };

    fn from(_: UnknownKind) -> JobFault {
        JobFault::Unknown
    }
}
