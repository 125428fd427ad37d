// Writing a line: the digits of bytes, and a newline.
ghost use Rattle.std.specs.Prelude.{◌≡◌};
ghost use Rattle.frames.specs.Laws.{Writes};
ghost use Rattle.frames.specs.Writing.{write_reply, written_over};

use crate::digits::digits;
use crate::first_line::NEWLINE;

// Writes the line of `bytes` over the front of `out` and says how many bytes it takes up. Where it does not fit, nothing is written.
pub fn write_line(out: &mut [u8], bytes: &[u8]) -> Option<usize>
    ensures reply { result ≡ write_reply bytes.now out.old }
    ensures memory { out.new ≡ written_over bytes.now out.old }
    ensures laws { Writes bytes.now result out.new }
{
    let end = 2 * bytes.len();
    if end >= out.len() {
        return None;
    }
    // By index: over `chunks_exact_mut` zipped with the bytes the proof did not close ("`search` did not prove `returns-clause-memory`, `returns-clause-laws`"), as only the length of what it lends is known afterwards.
    for (i, &byte) in bytes.iter().enumerate() {
        let [high, low] = digits(byte);
        out[2 * i] = high;
        out[2 * i + 1] = low;
    }
    out[end] = NEWLINE;
    Some(end + 1)
}
