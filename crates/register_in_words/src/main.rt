//! The register for people: the lines of standard input and their replies, told in words.
#![tactic(auto)]

mod frame_told;
mod job_frames;
mod kinds_chosen;
mod line_told;
mod reply_told;
mod set_up_frames;
mod values;

use frames::decode::decode;
use frames::first_line::{Line, first_line};
use frames::frame::Frame;
use kinds_chosen::KindsChosen;
use line_told::LineTold;
use lines::served::{REPLY_ROOM, Served};
use lines::session::Session;
use lines::supplied::Supplied;
use register_io::input::{LIMIT, read_within};
use register_io::memory::with_memory;
use std::io;

// The bytes of the reply that output begins with.
fn reply_in(output: &[u8]) -> Option<Frame> {
    let Line { length, size: _ } = first_line(output)?;
    decode(&output[0..length])
}

// Serves the input line by line, and tells each with its reply.
fn tell_all(rt: &HostRuntime, supplied: &mut Supplied<'_>, input: &[u8]) -> io::Result<()> {
    let mut session = Session::new();
    let mut kinds = KindsChosen::default();
    let mut output = [0; REPLY_ROOM];
    let mut left = input;
    while let Some(Line { length, size }) = first_line(left) {
        let (line, rest) = left.split_at(size);
        let Served { taken: _, written } = session.serve(supplied, line, &mut output);
        if let Some(reply) = reply_in(&output[0..written]) {
            let told = LineTold::new(kinds, &line[0..length], reply.bytes());
            println!(rt; "{told}")?;
            kinds = told.kinds_after();
        }
        left = rest;
    }
    Ok(())
}

fn main(rt: HostRuntime) -> io::Result<()> {
    let Some(input) = read_within(&rt, LIMIT)? else {
        return println!(rt; "more than {LIMIT} bytes of input: refused with 1 by the line");
    };
    with_memory(|supplied| tell_all(&rt, supplied, &input))
}
