// Reading a line: from pairs of digits to a frame.
ghost use Rattle.std.specs.Prelude.{◌≡◌};
ghost use Rattle.frames.specs.Decoding.{line_length, decoded};
ghost use Rattle.frames.specs.Laws.{Decodes};

use crate::digits;
use crate::frame::{Frame, MOST_BYTES};

const MOST_DIGITS: usize = 20;

// Whether a line can have so many digits.
fn is_line_length(count: usize) -> bool
    ensures reply { result ≡ line_length count }
{
    (1..=MOST_DIGITS).contains(&count) && count % 2 == 0
}

// The frame that a line, without its newline, stands for. Nothing for a malformed line: empty, odd, of more than 20 digits, or with another character.
pub fn decode(line: &[u8]) -> Option<Frame>
    ensures reply { result ≡ decoded line.now }
    ensures laws { Decodes line.now result }
{
    if !is_line_length(line.len()) {
        return None;
    }
    let mut bytes = [0; MOST_BYTES];
    // By index: over `iter_mut` zipped with the pairs the proof did not close ("it is not proved that what the function ensures holds when it returns (`returns-in_err-byte-clause-reply`)").
    for (i, pair) in line.chunks_exact(2).enumerate() {
        bytes[i] = digits::byte(pair[0], pair[1])?;
    }
    Some(Frame {
        bytes,
        len: line.len() / 2,
    })
}
