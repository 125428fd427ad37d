// Cutting input into lines: where its first line ends.
ghost use Rattle.std.specs.Prelude.{◌≡◌, ◌==◌, position};
ghost use Rattle.frames.specs.Lines.{FirstLine};
ghost use Rattle.frames.specs.Laws.{Ends};

// The byte that ends a line.
pub const NEWLINE: u8 = b'\n';

// A line at the front of an input.
#[derive(Clone, Copy, PartialEq, Eq, Debug)]
pub struct Line {
    // How many bytes of text it has.
    pub length: usize,
    // How many bytes it takes up: its text and, if it has one, its newline.
    pub size: usize,
}

// Where the first newline of an input is.
fn first_newline(input: &[u8]) -> Option<usize>
    ensures reply { result ≡ position (λ b. b == 10) input.now }
{
    input.iter().position(|&byte| byte == NEWLINE)
}

// Nothing for an empty input. The last line of an input, unless it is empty, may lack its newline.
pub fn first_line(input: &[u8]) -> Option<Line>
    ensures reply { FirstLine input.now result }
    ensures laws { Ends input.now result }
{
    if input.is_empty() {
        return None;
    }
    match first_newline(input) {
        Some(length) => Some(Line {
            length,
            size: length + 1,
        }),
        None => Some(Line {
            length: input.len(),
            size: input.len(),
        }),
    }
}
