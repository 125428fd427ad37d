// Replies: what each kind of answer is in bytes.
ghost use Rattle.std.specs.Prelude.{◌≡◌, [], ◌∷◌};
ghost use Rattle.cells.specs.Encodings.{number_bytes};
ghost use Rattle.lines.specs.LineFaults.{fault_bytes};

use crate::line_fault::LineFault;
use arrayvec::ArrayVec;
use cells::value::Value;
use jobs::declaration::Declaration;

// The longest reply is a slip that is read: 00 and six bytes.
pub(crate) type ReplyBytes = ArrayVec<u8, 7>;

// No value takes more bytes.
const MAX_WIDTH: usize = 6;

// The call is accepted, and has nothing more to tell.
pub(crate) fn done() -> ReplyBytes
    ensures reply { result.items ≡ 0 ∷ [] }
{
    let mut reply = ArrayVec::new();
    reply.push(0);
    reply
}

// A read is served this value.
pub(crate) fn value<V: Value>(value: V) -> ReplyBytes
    ensures reply { result.items ≡ 0 ∷ V.Value.encoding value }
{
    let mut bytes = [0; MAX_WIDTH];
    let encoded = &mut bytes[..V::WIDTH];
    value.write(encoded).unwrap();
    let mut reply = done();
    reply.try_extend_from_slice(encoded).unwrap();
    reply
}

// A tick declares this version: its grade in one byte, its number in four, the high byte first.
pub(crate) fn declaration(tick: Declaration) -> ReplyBytes
    ensures reply { result.items ≡ 0 ∷ tick.grade ∷ number_bytes tick.number }
{
    let mut reply = done();
    reply.push(tick.grade);
    reply
        .try_extend_from_slice(&tick.number.to_be_bytes())
        .unwrap();
    reply
}

// The line is refused: the number, and the bay that the fault names.
pub(crate) fn refusal(fault: LineFault) -> ReplyBytes
    ensures reply { result.items ≡ fault_bytes fault }
{
    let mut reply = ArrayVec::new();
    reply.push(fault.number());
    if let Some(bay) = fault.named() {
        reply.push(bay);
    }
    reply
}
