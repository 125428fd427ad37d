// The session call: lines are answered one after another, each reply behind the one before.
ghost use Rattle.std.specs.Prelude.{length};
ghost use Rattle.frames.specs.Lines.{lines};
ghost use Rattle.lines.specs.Runs.{run, RanTo};
ghost use Rattle.lines.specs.SessionLaws.{KeepsSessionLaws};
ghost use Rattle.lines.specs.Sessions.{phase_of};
ghost use Rattle.lines.specs.Supplies.{rooms_of, ChangedFor};

use crate::served::Served;
use crate::session::Session;
use crate::supplied::Supplied;

impl Session {
    // Answers the lines of the input in turn. It stops before a line only where no room is left for the longest reply.
    pub fn serve(&mut self, supplied: &mut Supplied<'_>, input: &[u8], output: &mut [u8]) -> Served
        ensures reply { RanTo (run (rooms_of supplied.old) (length output.old) (phase_of self.old supplied.old) (lines input.now)) (phase_of self.new supplied.new) result input.now output.old output.new }
        ensures memory { ChangedFor (phase_of self.new supplied.new) supplied.old supplied.new }
        ensures laws { KeepsSessionLaws (phase_of self.old supplied.old) (run (rooms_of supplied.old) (length output.old) (phase_of self.old supplied.old) (lines input.now)).events (phase_of self.new supplied.new) }
    {
        // The counts are what the call returns: slices that were walked would have to be measured for them.
        let mut taken = 0;
        let mut written = 0;
        while let Some(line) = self.answer_line(supplied, &input[taken..], &mut output[written..]) {
            taken += line.taken;
            written += line.written;
        }
        Served { taken, written }
    }
}
