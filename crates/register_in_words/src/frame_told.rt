// A frame in words, by the kinds that the session has chosen so far.
use crate::job_frames::write_job;
use crate::kinds_chosen::KindsChosen;
use crate::set_up_frames::{write_choice, write_class, write_start};
use lines::operation::Operation;
use std::fmt;

// What a frame asks for, if there is such an operation.
pub fn operation_of(frame: &[u8]) -> Option<Operation> {
    let code = frame.first()?;
    Operation::try_from(*code).ok()
}

#[derive(Clone, Copy)]
pub struct FrameTold<'a> {
    kinds: KindsChosen,
    operation: Option<Operation>,
    frame: &'a [u8],
}

impl<'a> FrameTold<'a> {
    pub fn new(kinds: KindsChosen, operation: Option<Operation>, frame: &'a [u8]) -> FrameTold<'a> {
        FrameTold {
            kinds,
            operation,
            frame,
        }
    }
}

fn write_unknown<W: fmt::Write>(f: &mut fmt::Formatter<W>, frame: &[u8]) -> fmt::Result {
    match frame {
        [code, ..] => write!(f, "operation {code:02X}"),
        [] => f.write_str("no operation"),
    }
}

impl fmt::Display for FrameTold<'_> {
    fn fmt<W: fmt::Write>(&self, f: &mut fmt::Formatter<W>) -> fmt::Result {
        match self.operation {
            None => write_unknown(f, self.frame),
            Some(Operation::Choose) => write_choice(f, self.frame),
            Some(Operation::AddClass) => write_class(f, self.kinds.order, self.frame),
            Some(Operation::Start) => write_start(f, self.frame),
            Some(Operation::Job(job)) => write_job(f, self.kinds.values, job, self.frame),
        }
    }
}
