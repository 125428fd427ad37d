// The operations by their bytes.
ghost use Rattle.std.specs.Prelude.{◌≡◌, ok_or};
ghost use Rattle.lines.specs.Operations.{operation_of};
ghost use Rattle.lines.specs.declared.line_fault.LineFault.TheVariants.{UnknownOperation as unknown_operation};

use crate::line_fault::LineFault;
use crate::operation::{JobOperation, Operation};

impl TryFrom<u8> for Operation {
    type Error = LineFault;

    ghost try_from_gives = { λ byte r. r ≡ ok_or (operation_of byte) unknown_operation };

    fn try_from(byte: u8) -> Result<Operation, LineFault> {
        match byte {
            0x01 => Ok(Operation::Choose),
            0x02 => Ok(Operation::AddClass),
            0x03 => Ok(Operation::Start),
            0x10 => Ok(Operation::Job(JobOperation::Begin)),
            0x20 => Ok(Operation::Job(JobOperation::Read)),
            0x30 => Ok(Operation::Job(JobOperation::Write)),
            0x40 => Ok(Operation::Job(JobOperation::Commit)),
            0x50 => Ok(Operation::Job(JobOperation::GiveUp)),
            0x60 => Ok(Operation::Job(JobOperation::Tick)),
            _ => Err(LineFault::UnknownOperation),
        }
    }
}
