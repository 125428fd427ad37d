// How a session answers one line, whatever its stage.
ghost use Rattle.lines.specs.Answers.{Meets};
ghost use Rattle.lines.specs.Phases.{in_phase, answered};
ghost use Rattle.lines.specs.Replies.{told};
ghost use Rattle.lines.specs.Sessions.{serving, phase_of};
ghost use Rattle.lines.specs.Supplies.{rooms_of};

use crate::job_lines::serve_job;
use crate::kinds::ValueKind;
use crate::line_fault::LineFault;
use crate::operation::Operation;
use crate::replies::{self, ReplyBytes};
use crate::session::Session;
use crate::stage::Stage;
use crate::supplied::Supplied;
use frames::decode::decode;
use jobs::register::Register;
use orders::chosen_order::ChosenOrder;

// Once set-up is done the register serves jobs, with the memory for its kind of value.
fn serve_frame(
    values: ValueKind,
    register: &mut Register<ChosenOrder>,
    supplied: &mut Supplied<'_>,
    operation: Operation,
    frame: &[u8],
) -> Result<ReplyBytes, LineFault>
    ensures answer { Meets (serving values register.old supplied.old) supplied.old (in_phase (rooms_of supplied.old) (serving values register.old supplied.old) operation frame.now) (told result) (serving values register.new supplied.new) supplied.new }
{
    let Operation::Job(job) = operation else {
        return Err(LineFault::OutOfOrder);
    };
    // A match: the two memories have two types, and a closure serves one.
    match values {
        ValueKind::Words => serve_job(register, &mut supplied.words, job, frame),
        ValueKind::Slips => serve_job(register, &mut supplied.slips, job, frame),
    }
}

impl Session {
    // What a frame gets, whatever the stage.
    // The operation goes beside its frame: from a struct of both each function would take them out again, one to match on and one to read.
    fn act(
        &mut self,
        supplied: &mut Supplied<'_>,
        operation: Operation,
        frame: &[u8],
    ) -> Result<ReplyBytes, LineFault>
        ensures answer { Meets (phase_of self.old supplied.old) supplied.old (in_phase (rooms_of supplied.old) (phase_of self.old supplied.old) operation frame.now) (told result) (phase_of self.new supplied.new) supplied.new }
    {
        match operation {
            Operation::Choose => self.stage.choose(frame)?,
            Operation::AddClass => self.stage.add_class(frame)?,
            Operation::Start => self.stage.start(supplied, frame)?,
            Operation::Job(_) => {
                let Stage::Serving { values, register } = &mut self.stage else {
                    return Err(LineFault::OutOfOrder);
                };
                return serve_frame(*values, register, supplied, operation, frame);
            }
        }
        Ok(replies::done())
    }

    // Hears a line: the frame that it stands for, and the operation of the frame.
    fn hear(&mut self, supplied: &mut Supplied<'_>, line: &[u8]) -> Result<ReplyBytes, LineFault>
        ensures answer { Meets (phase_of self.old supplied.old) supplied.old (answered (rooms_of supplied.old) (phase_of self.old supplied.old) line.now) (told result) (phase_of self.new supplied.new) supplied.new }
    {
        let frame = decode(line).ok_or(LineFault::Malformed)?;
        let bytes = frame.bytes();
        let operation = Operation::try_from(bytes[0])?;
        self.act(supplied, operation, bytes)
    }

    // Answers a line: the reply, or the fault, in bytes.
    pub(crate) fn answer(&mut self, supplied: &mut Supplied<'_>, line: &[u8]) -> ReplyBytes
        ensures answer { Meets (phase_of self.old supplied.old) supplied.old (answered (rooms_of supplied.old) (phase_of self.old supplied.old) line.now) result.items (phase_of self.new supplied.new) supplied.new }
    {
        self.hear(supplied, line).unwrap_or_else(replies::refusal)
    }
}
