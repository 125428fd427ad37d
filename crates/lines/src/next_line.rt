// The first line of an input, answered.
ghost use Rattle.lines.specs.NextLines.{NextLine};

use crate::served::{REPLY_ROOM, Served};
use crate::session::Session;
use crate::supplied::Supplied;
use frames::first_line::{Line, first_line};
use frames::write_line::write_line;

impl Session {
    // Answers the first line of the input into the front of the output; nothing where there is no line, or no room for the longest reply.
    pub(crate) fn answer_line(
        &mut self,
        supplied: &mut Supplied<'_>,
        input: &[u8],
        output: &mut [u8],
    ) -> Option<Served>
        ensures done { NextLine self.old supplied.old input.now output.old result self.new supplied.new output.new }
    {
        if output.len() < REPLY_ROOM {
            return None;
        }
        let Line { length, size } = first_line(input)?;
        let reply = self.answer(supplied, &input[..length]);
        let written = write_line(output, &reply)?;
        Some(Served {
            taken: size,
            written,
        })
    }
}
