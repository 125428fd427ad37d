// The kinds of jobs as types, so that the compiler knows which calls a ticket allows.
ghost use Rattle.std.specs.Prelude.{ℕ};

// No other module can name this trait, so there are no kinds but the two below.
mod sealed {
    pub trait Sealed {}
}

pub trait JobKind: sealed::Sealed {
    // The number by which a begin names the kind.
    ghost NUMBER: { ℕ };

    const NUMBER: u8;
}

// An update job, a read-write transaction.
pub enum Update {}

// A long job, a read-only transaction on a stable version.
pub enum Long {}

impl sealed::Sealed for Update {}

impl sealed::Sealed for Long {}

impl JobKind for Update {
    ghost NUMBER = { 0 };

    const NUMBER: u8 = 0;
}

impl JobKind for Long {
    ghost NUMBER = { 1 };

    const NUMBER: u8 = 1;
}
