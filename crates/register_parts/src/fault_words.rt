// The register's faults in words.
ghost use Rattle.std.specs.Prelude.{Some};
ghost use Rattle.register_parts.specs.FaultWords.{fault_words};

use crate::job_fault::JobFault;
use std::fmt;

impl fmt::Display for JobFault {
    ghost output = { λ e. Some (fault_words e) };

    fn fmt<W: fmt::Write>(&self, f: &mut fmt::Formatter<W>) -> fmt::Result {
        f.write_str(match self {
            JobFault::TooLittleMemory => "too little memory was lent",
            JobFault::Unknown => "there is no such class, bay or kind of job",
            JobFault::BayNotFree => "the bay is not free",
            JobFault::BayFree => "the bay is free",
            JobFault::BayClosed => "the clock has closed the bay",
            JobFault::NotDominated => "the class is not below",
            JobFault::NoSuchItem => "there is no such item",
            JobFault::OnlyReads => "a long job only reads",
            JobFault::NoValue => "the bytes are no value",
            JobFault::TooManyPending => "eight other items are pending",
            JobFault::ClaimedBy(_) => "another bay claims the item",
            JobFault::Overtaken => "the job was overtaken",
            JobFault::Stale => "another bay has overwritten what the job read",
            JobFault::ClockAtEnd => "the clock has run out",
        })
    }
}
