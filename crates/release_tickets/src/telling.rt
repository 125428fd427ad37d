// Telling a story line by line. With a ticket in hand nobody may leave early, so the first line that cannot be written is remembered.
use std::fmt::Display;
use std::{io, mem};

#[derive(Drop)]
pub struct Telling {
    pub rt: HostRuntime,
    outcome: io::Result<()>,
}

impl Telling {
    pub fn new(rt: HostRuntime) -> Telling {
        Telling {
            rt,
            outcome: Ok(()),
        }
    }

    fn note(&mut self, written: io::Result<()>) {
        if self.outcome.is_ok() {
            self.outcome = written;
        }
    }

    pub fn line<D: Display + Drop>(&mut self, line: D) {
        let rt = self.rt;
        self.note(println!(rt; "{line}"));
    }

    // Whether every line was written.
    pub fn outcome(&mut self) -> io::Result<()> {
        mem::replace(&mut self.outcome, Ok(()))
    }
}
