// The input of a program.
ghost use Rattle.std.specs.Prelude.{◌≤◌, length, vec_len, IfOk, IfSome};

use std::io;
use std::io::Read;

// The input of the programs has at most so many bytes.
pub const LIMIT: usize = 32_768;

// Fills the buffer from standard input, up to the end of the input: how many bytes came.
pub fn read_input(rt: &HostRuntime, buffer: &mut [u8]) -> io::Result<usize>
    ensures { IfOk result (λ n. n ≤ length buffer.old) }
{
    let mut from = rt.stdin();
    let mut count = 0;
    // The buffer is the caller's, so nothing is asked of the heap: `read_to_end` fills a `Vec`, which grows.
    while count < buffer.len() {
        let got = from.read(&mut buffer[count..])?;
        if got == 0 {
            break;
        }
        count += got;
    }
    Ok(count)
}

// Standard input, up to its end; nothing where it has more bytes than the limit. Room for the limit is made at once.
pub fn read_within(rt: &HostRuntime, limit: usize) -> io::Result<Option<Vec<u8>>>
    ensures within { IfOk result (λ input. IfSome input (λ bytes. vec_len bytes ≤ limit)) }
{
    let heap = rt.alloc();
    let mut input = vec![in heap; 0u8; limit.saturating_add(1)]?;
    let count = read_input(rt, &mut input)?;
    if count > limit {
        return Ok(None);
    }
    input.truncate(count);
    Ok(Some(input))
}
