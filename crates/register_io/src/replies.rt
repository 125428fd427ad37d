// The program `register`: the replies to the lines of standard input.
use crate::input::{LIMIT, read_within};
use crate::memory::with_memory;
use lines::served::Served;
use lines::session::Session;
use lines::supplied::Supplied;
use std::io;
use std::io::Write;

// Replies are written out whenever so many bytes are full.
const OUTPUT: usize = 4096;

// Serves the whole input, a buffer of replies at a time.
fn serve_all(rt: &HostRuntime, supplied: &mut Supplied<'_>, input: &[u8]) -> io::Result<()> {
    let mut session = Session::new();
    let mut to = rt.stdout();
    let mut output = [0; OUTPUT];
    let mut left = input;
    while !left.is_empty() {
        let Served { taken, written } = session.serve(supplied, left, &mut output);
        to.write_all(&output[..written])?;
        if taken == 0 {
            break;
        }
        left = &left[taken..];
    }
    Ok(())
}

// Input past the limit gets the one line of a malformed line.
pub fn run(rt: HostRuntime) -> io::Result<()> {
    let Some(input) = read_within(&rt, LIMIT)? else {
        return println!(rt; "01");
    };
    with_memory(|supplied| serve_all(&rt, supplied, &input))
}
