// Job frames: calls of a register over any order, kind of value and local rule.
ghost use Rattle.lines.specs.JobFrames.{FrameServed};
ghost use Rattle.lines.specs.Replies.{told};
ghost use Rattle.lines.specs.ReadBack.{ReadsBack};

use crate::line_fault::LineFault;
use crate::operation::JobOperation;
use crate::replies::{self, ReplyBytes};
use cells::value::Value;
use jobs::memory::Memory;
use jobs::register::Register;
use orders::class_order::ClassOrder;
use rules::local_rule::LocalRule;

// Makes the call that a frame asks for. What is written is read back as it was written.
pub(crate) fn serve_job<O: ClassOrder, V: Value, R: LocalRule>(
    register: &mut Register<O>,
    memory: &mut Memory<'_, V, R>,
    job: JobOperation,
    frame: &[u8],
) -> Result<ReplyBytes, LineFault>
    ensures served { FrameServed (O.ClassOrder) (V.Value) (R.LocalRule) register.old memory.old job frame.now (told result) register.new memory.new }
    ensures laws { ReadsBack (O.ClassOrder) (V.Value) (R.LocalRule) job frame.now (told result) register.new memory.new }
{
    call_register(register, memory, job, frame)
}

// Makes the call that a frame asks for, if the frame has the length that its operation wants.
fn call_register<O: ClassOrder, V: Value, R: LocalRule>(
    register: &mut Register<O>,
    memory: &mut Memory<'_, V, R>,
    job: JobOperation,
    frame: &[u8],
) -> Result<ReplyBytes, LineFault>
    ensures served { FrameServed (O.ClassOrder) (V.Value) (R.LocalRule) register.old memory.old job frame.now (told result) register.new memory.new }
{
    match (job, frame) {
        (JobOperation::Begin, [_, class, bay, kind]) => {
            register.begin(memory, *class, *bay, *kind)?;
            Ok(replies::done())
        }
        (JobOperation::Read, [_, class, bay, from, item]) => {
            let value = register.read(memory, *class, *bay, *from, *item)?;
            Ok(replies::value(value))
        }
        (JobOperation::Write, [_, class, bay, item, value @ ..]) if value.len() == V::WIDTH => {
            register.write(memory, *class, *bay, *item, V::read(value))?;
            Ok(replies::done())
        }
        (JobOperation::Commit, [_, class, bay]) => {
            register.commit(memory, *class, *bay)?;
            Ok(replies::done())
        }
        (JobOperation::GiveUp, [_, class, bay]) => {
            register.give_up(memory, *class, *bay)?;
            Ok(replies::done())
        }
        (JobOperation::Tick, [_]) => {
            let tick = register.tick(memory)?;
            Ok(replies::declaration(tick))
        }
        _ => Err(LineFault::WrongLength),
    }
}
