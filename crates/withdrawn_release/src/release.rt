// A release: a firmware number, and the table layout that this firmware reads.
use std::fmt;

#[derive(Clone, Copy)]
pub struct Release {
    pub firmware: u32,
    pub layout: u32,
}

impl fmt::Display for Release {
    fn fmt<W: fmt::Write>(&self, f: &mut fmt::Formatter<W>) -> fmt::Result {
        let Release { firmware, layout } = *self;
        write!(f, "firmware {firmware} with layout {layout}")
    }
}
