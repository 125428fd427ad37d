// The label of a class: a rank and a set out of eight compartments.
ghost use Rattle.std.specs.Prelude.{◌≡◌, ◌≤◌};
ghost use Rattle.orders.specs.Labels.{label_dominates, LabelDominance, label_grade};

// No label of an order has a higher rank.
pub const MAX_RANK: u8 = 15;

// Compartment k is in the set just if bit k of `compartments` is 1.
#[derive(Clone, Copy, PartialEq, Eq, Debug)]
pub struct Label {
    pub rank: u8,
    pub compartments: u8,
}

impl Label {
    // Whether this label's rank is no lower and it holds all compartments of the other.
    pub fn dominates(self, other: Label) -> bool
        ensures reply { result ≡ label_dominates self other }
        ensures laws { LabelDominance self other result }
    {
        other.rank <= self.rank && self.compartments & other.compartments == other.compartments
    }

    // The rank plus the number of compartments.
    pub(crate) fn grade(self) -> u8
        requires { self.rank ≤ 15 }
        ensures { result ≡ label_grade self }
    {
        self.rank + self.compartments.count_ones() as u8
    }
}
