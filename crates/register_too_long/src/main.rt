//! The register on an input that is one byte too long. A crate of its own, the twin of `register`, since a rule of the project stores one input a program.
#![tactic(auto)]

use std::io;

fn main(rt: HostRuntime) -> io::Result<()> {
    register_io::run(rt)
}
