// A set of numbers below 64, as the bits of a machine word: claimed items, classes directly below, classes reached.
ghost use Rattle.std.specs.Prelude.{◌≡◌};
ghost use Rattle.sets.specs.Members.{members, nothing, with_member, union as united, overlap, all_under};

// Numbers from this one on are in no set.
const LIMIT: u8 = 64;

#[derive(Clone, Copy, PartialEq, Eq, Debug)]
pub struct SmallSet {
    bits: u64,
}

// The set that has n just if bit n is 1.
impl From<u64> for SmallSet {
    ghost from_gives = { λ bits s. s.bits ≡ bits };

    fn from(bits: u64) -> SmallSet {
        SmallSet { bits }
    }
}

impl SmallSet {
    pub fn empty() -> SmallSet
        ensures { members result ≡ nothing }
    {
        SmallSet { bits: 0 }
    }

    pub fn contains(self, n: u8) -> bool
        ensures { result ≡ members self n }
    {
        n < LIMIT && (self.bits >> n) % 2 == 1
    }

    // The set and n; a number from 64 on is left out.
    pub fn with(self, n: u8) -> SmallSet
        ensures { members result ≡ with_member n (members self) }
    {
        if n >= LIMIT {
            return self;
        }
        SmallSet {
            bits: self.bits | (1 << n),
        }
    }

    pub fn union(self, other: SmallSet) -> SmallSet
        ensures { members result ≡ united (members self) (members other) }
    {
        SmallSet {
            bits: self.bits | other.bits,
        }
    }

    // Whether some number is in both.
    pub fn overlaps(self, other: SmallSet) -> bool
        ensures { result ≡ overlap (members self) (members other) }
    {
        self.bits & other.bits != 0
    }

    // Whether every number in the set is below n.
    pub fn all_under(self, n: u8) -> bool
        ensures { result ≡ all_under n (members self) }
    {
        n >= LIMIT || self.bits >> n == 0
    }
}
