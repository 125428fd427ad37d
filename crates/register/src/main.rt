//! The register for stations: it answers the lines of standard input.
#![tactic(auto)]

use std::io;

fn main(rt: HostRuntime) -> io::Result<()> {
    register_io::run(rt)
}
