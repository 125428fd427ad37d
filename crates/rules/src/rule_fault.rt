// Why a rule refuses a call.
ghost use Rattle.std.specs.Prelude.{◌≡◌, Some};
ghost use Rattle.rules.specs.Faults.{fault_number, fault_of_rule, named_bay, fault_text};

use std::fmt;

#[derive(Clone, Copy, PartialEq, Eq, Debug)]
pub enum RuleFault {
    // The bay number is past the last bay.
    NoSuchBay,
    // The item number is past the last item.
    NoSuchItem,
    // Another bay, the one named, claims the item.
    ClaimedBy(u8),
    // Another bay has overwritten what this one read, so it cannot settle.
    Stale,
}

impl RuleFault {
    // The number under which callers report the fault. A method, since the number leaves out the bay, so a `From` would lose it.
    pub fn number(&self) -> u8
        ensures { result ≡ fault_number self.now }
    {
        match self {
            RuleFault::NoSuchBay => 8,
            RuleFault::NoSuchItem => 13,
            RuleFault::ClaimedBy(_) => 17,
            RuleFault::Stale => 19,
        }
    }

    // Whether the rule itself says no, rather than the arguments being out of range.
    pub fn raised_by_rule(&self) -> bool
        ensures { result ≡ fault_of_rule self.now }
    {
        matches!(self, RuleFault::ClaimedBy(_) | RuleFault::Stale)
    }

    // The bay that stands in the way, where the fault names one.
    pub fn named(&self) -> Option<u8>
        ensures { result ≡ named_bay self.now }
    {
        match self {
            RuleFault::ClaimedBy(bay) => Some(*bay),
            _ => None,
        }
    }
}

impl fmt::Display for RuleFault {
    ghost output = { λ fault. Some (fault_text fault) };

    fn fmt<W: fmt::Write>(&self, f: &mut fmt::Formatter<W>) -> fmt::Result {
        match self {
            RuleFault::NoSuchBay => write!(f, "no such bay"),
            RuleFault::NoSuchItem => write!(f, "no such item"),
            RuleFault::ClaimedBy(bay) => write!(f, "no, bay {bay} claims it"),
            RuleFault::Stale => write!(f, "no, it is stale"),
        }
    }
}
