// A reply in words, by the frame that it answers.
use crate::values::ValueTold;
use lines::kinds::ValueKind;
use lines::line_fault::LineFault;
use lines::operation::{JobOperation, Operation};
use std::fmt;

#[derive(Clone, Copy)]
pub struct ReplyTold<'a> {
    values: Option<ValueKind>,
    operation: Option<Operation>,
    reply: &'a [u8],
}

impl<'a> ReplyTold<'a> {
    pub fn new(
        values: Option<ValueKind>,
        operation: Option<Operation>,
        reply: &'a [u8],
    ) -> ReplyTold<'a> {
        ReplyTold {
            values,
            operation,
            reply,
        }
    }
}

fn write_declaration<W: fmt::Write>(f: &mut fmt::Formatter<W>, told: &[u8]) -> fmt::Result {
    match told {
        [grade, a, b, c, d] => {
            let number = u32::from_be_bytes([*a, *b, *c, *d]);
            write!(f, "version {number} is declared at grade {grade}")
        }
        _ => f.write_str("accepted"),
    }
}

// An accepted call: a read is served a value, and a tick declares a version.
fn write_accepted<W: fmt::Write>(
    f: &mut fmt::Formatter<W>,
    reply: ReplyTold<'_>,
    told: &[u8],
) -> fmt::Result {
    match reply.operation {
        Some(Operation::Job(JobOperation::Read)) if !told.is_empty() => {
            let value = ValueTold::new(reply.values, told);
            write!(f, "{value}")
        }
        Some(Operation::Job(JobOperation::Tick)) => write_declaration(f, told),
        _ => f.write_str("accepted"),
    }
}

fn write_refusal<W: fmt::Write>(f: &mut fmt::Formatter<W>, fault: LineFault) -> fmt::Result {
    let number = fault.number();
    let part = fault.part();
    match fault.named() {
        Some(bay) => write!(
            f,
            "refused with {number} by the {part}: bay {bay} claims the item"
        ),
        None => write!(f, "refused with {number} by the {part}: {fault}"),
    }
}

impl fmt::Display for ReplyTold<'_> {
    fn fmt<W: fmt::Write>(&self, f: &mut fmt::Formatter<W>) -> fmt::Result {
        match self.reply {
            [0, told @ ..] => write_accepted(f, *self, told),
            refusal => match LineFault::try_from(refusal) {
                Ok(fault) => write_refusal(f, fault),
                Err(_) => f.write_str("no reply"),
            },
        }
    }
}
