// Why the register refuses a call.
ghost use Rattle.std.specs.Prelude.{◌≡◌};
ghost use Rattle.register_parts.specs.FaultNumbers.{fault_of_rule, fault_number, named_bay, raised_by_rule};

use rules::rule_fault::RuleFault;

#[derive(Clone, Copy, PartialEq, Eq, Debug)]
pub enum JobFault {
    TooLittleMemory,
    // No such class, bay or kind of job.
    Unknown,
    BayNotFree,
    BayFree,
    BayClosed,
    NotDominated,
    NoSuchItem,
    OnlyReads,
    NoValue,
    TooManyPending,
    // The local rule refuses a claim: this bay stands in the way.
    ClaimedBy(u8),
    // Another job of the class has committed with a greater down number.
    Overtaken,
    // The local rule refuses to settle: another bay has overwritten what the job read.
    Stale,
    ClockAtEnd,
}

impl From<RuleFault> for JobFault {
    ghost from_gives = { λ e r. r ≡ fault_of_rule e };

    fn from(e: RuleFault) -> JobFault {
        match e {
            RuleFault::NoSuchBay => JobFault::Unknown,
            RuleFault::NoSuchItem => JobFault::NoSuchItem,
            RuleFault::ClaimedBy(bay) => JobFault::ClaimedBy(bay),
            RuleFault::Stale => JobFault::Stale,
        }
    }
}

impl JobFault {
    // The number under which callers report the fault. A method, since the number leaves out the bay, so a `From` would lose it.
    pub fn number(&self) -> u8
        ensures { result ≡ fault_number self.now }
    {
        match self {
            JobFault::TooLittleMemory => 7,
            JobFault::Unknown => 8,
            JobFault::BayNotFree => 9,
            JobFault::BayFree => 10,
            JobFault::BayClosed => 11,
            JobFault::NotDominated => 12,
            JobFault::NoSuchItem => 13,
            JobFault::OnlyReads => 14,
            JobFault::NoValue => 15,
            JobFault::TooManyPending => 16,
            JobFault::ClaimedBy(_) => 17,
            JobFault::Overtaken => 18,
            JobFault::Stale => 19,
            JobFault::ClockAtEnd => 20,
        }
    }

    // The bay that stands in the way, where the fault names one.
    pub fn named(&self) -> Option<u8>
        ensures { result ≡ named_bay self.now }
    {
        match self {
            JobFault::ClaimedBy(bay) => Some(*bay),
            _ => None,
        }
    }

    // Whether the local rule raised the fault; the others the register raises itself.
    pub fn raised_by_rule(&self) -> bool
        ensures { result ≡ raised_by_rule self.now }
    {
        matches!(self, JobFault::ClaimedBy(_) | JobFault::Stale)
    }
}
