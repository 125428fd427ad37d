// The scene as calls by number: a release by the maker, orders by the two rivals, and the auditor's look at both.
// Steps are data: a scene leaves out those of the class that keeps silent, which a closure would not name.
use crate::diamond_order::{AUDITOR, LEFT, MAKER, RIGHT};

#[derive(Clone, Copy)]
pub enum Action {
    Begin,
    // Of a class, an item.
    Read(u8, u8),
    // To an item of the own class, a value.
    Write(u8, u32),
    Commit,
}

#[derive(Clone, Copy)]
pub enum Step {
    // A class, a bay of it, and what it asks there.
    By(u8, u8, Action),
    Tick,
}

// The maker's items. A rival's one item is how many probes it orders.
const FIRMWARE: u8 = 0;

const LAYOUT: u8 = 1;

const ORDERED: u8 = 0;

pub static RELEASE: [Step; 5] = [
    Step::By(MAKER, 0, Action::Begin),
    Step::By(MAKER, 0, Action::Write(FIRMWARE, 41)),
    Step::By(MAKER, 0, Action::Write(LAYOUT, 3)),
    Step::By(MAKER, 0, Action::Commit),
    Step::Tick,
];

pub static READING: [Step; 4] = [
    Step::By(LEFT, 0, Action::Begin),
    Step::By(RIGHT, 0, Action::Begin),
    Step::By(LEFT, 0, Action::Read(MAKER, FIRMWARE)),
    Step::By(RIGHT, 0, Action::Read(MAKER, FIRMWARE)),
];

pub static WATCHING: [Step; 2] = [
    Step::By(LEFT, 0, Action::Read(RIGHT, ORDERED)),
    Step::By(RIGHT, 0, Action::Read(LEFT, ORDERED)),
];

pub static ORDERING: [Step; 8] = [
    Step::By(LEFT, 0, Action::Write(ORDERED, 120)),
    Step::By(RIGHT, 0, Action::Write(ORDERED, 75)),
    Step::By(LEFT, 1, Action::Begin),
    Step::By(LEFT, 1, Action::Read(LEFT, ORDERED)),
    Step::By(LEFT, 0, Action::Commit),
    Step::By(RIGHT, 0, Action::Commit),
    Step::By(LEFT, 1, Action::Commit),
    Step::Tick,
];

pub static AUDIT: [Step; 5] = [
    Step::By(AUDITOR, 0, Action::Begin),
    Step::By(AUDITOR, 0, Action::Read(MAKER, FIRMWARE)),
    Step::By(AUDITOR, 0, Action::Read(LEFT, ORDERED)),
    Step::By(AUDITOR, 0, Action::Read(RIGHT, ORDERED)),
    Step::By(AUDITOR, 0, Action::Commit),
];
