// The calls of each part of the table. Class 1 is above class 0; class 0 has ten items, class 1 has one.
use crate::request::{Part, Request};

// Kinds of jobs and variants of the chosen rule stand as the protocol's numbers, since the table has numbers that name none.
const UPDATE: u8 = 0;

const LONG: u8 = 1;

pub const LOCKS: u8 = 0;

const CHECK: u8 = 1;

const NEITHER: u8 = 2;

pub static SHORT: [Request; 2] = [Request::Begin(9, 9, 9), Request::Tick];

pub static NO_VARIANT: Part = Part {
    title: "No such variant of the rules: 5",
    variant: NEITHER,
    requests: &[],
};

pub static NUMBERS: Part = Part {
    title: "No such class, bay, kind or other class: 8; bay 7 passes",
    variant: LOCKS,
    requests: &[
        Request::Begin(2, 0, UPDATE),
        Request::Begin(0, 8, UPDATE),
        Request::Begin(0, 7, UPDATE),
        Request::Begin(0, 0, 2),
        Request::Begin(0, 0, LONG),
        Request::Read(0, 0, 2, 0),
        Request::Read(0, 0, 0, 0),
    ],
};

pub static BAYS: Part = Part {
    title: "Bay free: 10; bay not free: 9",
    variant: LOCKS,
    requests: &[
        Request::Read(0, 0, 0, 0),
        Request::Commit(0, 0),
        Request::GiveUp(0, 0),
        Request::Begin(0, 0, UPDATE),
        Request::Begin(0, 0, UPDATE),
        Request::GiveUp(0, 0),
    ],
};

pub static CLASSES_AND_ITEMS: Part = Part {
    title: "Class not below: 12; no such item: 13; no value: 15; a long job writes: 14",
    variant: LOCKS,
    requests: &[
        Request::Begin(0, 0, UPDATE),
        Request::Read(0, 0, 1, 0),
        Request::Read(0, 0, 0, 9),
        Request::Read(0, 0, 0, 10),
        Request::Write(0, 0, 10, Some(1)),
        Request::Write(0, 0, 0, None),
        Request::Begin(0, 1, LONG),
        Request::Write(0, 1, 10, Some(1)),
    ],
};

pub static PENDING: Part = Part {
    title: "Eight other items pending: 16; one of the eight may change",
    variant: LOCKS,
    requests: &[
        Request::Begin(0, 0, UPDATE),
        Request::Write(0, 0, 0, Some(1)),
        Request::Write(0, 0, 1, Some(1)),
        Request::Write(0, 0, 2, Some(1)),
        Request::Write(0, 0, 3, Some(1)),
        Request::Write(0, 0, 4, Some(1)),
        Request::Write(0, 0, 5, Some(1)),
        Request::Write(0, 0, 6, Some(1)),
        Request::Write(0, 0, 7, Some(1)),
        Request::Write(0, 0, 8, Some(1)),
        Request::Write(0, 0, 7, Some(2)),
    ],
};

pub static CLAIMS: Part = Part {
    title: "A claim in the way: 17, and the bay",
    variant: LOCKS,
    requests: &[
        Request::Begin(0, 3, UPDATE),
        Request::Write(0, 3, 0, Some(1)),
        Request::Begin(0, 0, UPDATE),
        Request::Read(0, 0, 0, 0),
        Request::Commit(0, 3),
        Request::Read(0, 0, 0, 0),
    ],
};

pub static OVERTAKEN: Part = Part {
    title: "Overtaken: 18, and the bay is free",
    variant: LOCKS,
    requests: &[
        Request::Begin(1, 0, UPDATE),
        Request::Read(1, 0, 0, 0),
        Request::Tick,
        Request::Begin(1, 1, UPDATE),
        Request::Read(1, 1, 0, 0),
        Request::Commit(1, 1),
        Request::Commit(1, 0),
        Request::Commit(1, 0),
    ],
};

pub static STALE: Part = Part {
    title: "Stale under the check rule: 19, and the bay is free",
    variant: CHECK,
    requests: &[
        Request::Begin(0, 0, UPDATE),
        Request::Read(0, 0, 0, 0),
        Request::Begin(0, 1, UPDATE),
        Request::Write(0, 1, 0, Some(5)),
        Request::Commit(0, 1),
        Request::Commit(0, 0),
        Request::Commit(0, 0),
    ],
};

pub static CLOSED: Part = Part {
    title: "Closed by the clock: 11; a commit frees the bay; giving up is accepted",
    variant: LOCKS,
    requests: &[
        Request::Begin(1, 0, UPDATE),
        Request::Read(1, 0, 0, 0),
        Request::Begin(1, 1, UPDATE),
        Request::Read(1, 1, 0, 0),
        Request::Tick,
        Request::Tick,
        Request::Read(1, 0, 0, 0),
        Request::Write(1, 0, 0, Some(1)),
        Request::Commit(1, 0),
        Request::Commit(1, 0),
        Request::GiveUp(1, 1),
        Request::GiveUp(1, 1),
    ],
};

pub static DROPPED: Part = Part {
    title: "Giving up drops the pending value",
    variant: LOCKS,
    requests: &[
        Request::Begin(0, 0, UPDATE),
        Request::Write(0, 0, 0, Some(9)),
        Request::Read(0, 0, 0, 0),
        Request::GiveUp(0, 0),
        Request::Begin(0, 0, UPDATE),
        Request::Read(0, 0, 0, 0),
    ],
};

pub static LONG_JOBS: Part = Part {
    title: "A long job reads at its number, not the newest version",
    variant: LOCKS,
    requests: &[
        Request::Begin(0, 0, UPDATE),
        Request::Write(0, 0, 0, Some(7)),
        Request::Commit(0, 0),
        Request::Tick,
        Request::Begin(0, 1, LONG),
        Request::Begin(0, 0, UPDATE),
        Request::Write(0, 0, 0, Some(8)),
        Request::Commit(0, 0),
        Request::Read(0, 1, 0, 0),
        Request::Commit(0, 1),
        Request::Begin(0, 0, UPDATE),
        Request::Read(0, 0, 0, 0),
    ],
};
