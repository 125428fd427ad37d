// Why the version store refuses a call.
ghost use Rattle.std.specs.Prelude.{Some};
ghost use Rattle.cells.specs.FaultWords.{store_fault_words, read_fault_words};

use std::fmt;

#[derive(Clone, Copy, PartialEq, Eq, Debug)]
pub enum StoreFault {
    // There is no cell at the index.
    NoCell,
    // The number is smaller than the newest.
    OldNumber,
}

#[derive(Clone, Copy, PartialEq, Eq, Debug)]
pub enum ReadFault {
    // There is no cell at the index.
    NoCell,
}

impl fmt::Display for StoreFault {
    ghost output = { λ fault. Some (store_fault_words fault) };

    fn fmt<W: fmt::Write>(&self, f: &mut fmt::Formatter<W>) -> fmt::Result {
        f.write_str(match self {
            StoreFault::NoCell => "there is no such item",
            StoreFault::OldNumber => "the newest number is greater",
        })
    }
}

impl fmt::Display for ReadFault {
    ghost output = { λ fault. Some (read_fault_words fault) };

    fn fmt<W: fmt::Write>(&self, f: &mut fmt::Formatter<W>) -> fmt::Result {
        f.write_str(match self {
            ReadFault::NoCell => "there is no such item",
        })
    }
}
