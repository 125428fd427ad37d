//! Two bays meet at one item: under locks the second is refused at once, under the check rule the reader fails when it settles.
#![tactic(auto)]

use rules::access::Access;
use rules::check::Check;
use rules::local_rule::LocalRule;
use rules::locks::Locks;
use rules::rule_fault::RuleFault;
use std::io;

fn tell(rt: HostRuntime, step: &str, reply: Result<(), RuleFault>) -> io::Result<()> {
    match reply {
        Ok(()) => println!(rt; "{step}: yes"),
        Err(fault) => println!(rt; "{step}: {fault}"),
    }
}

// Bay 0 reads item 5, bay 1 writes it and settles, then bay 0 settles.
fn meet<R: LocalRule + Drop>(rt: HostRuntime, rule: Option<R>) -> io::Result<()> {
    match rule {
        Some(mut rule) => {
            tell(rt, "bay 0 reads item 5", rule.claim(Access::Read, 0, 5))?;
            tell(rt, "bay 1 writes item 5", rule.claim(Access::Write, 1, 5))?;
            tell(rt, "bay 1 settles", rule.settle(1))?;
            tell(rt, "bay 0 settles", rule.settle(0))
        }
        None => println!(rt; "no such variant"),
    }
}

fn main(rt: HostRuntime) -> io::Result<()> {
    println!(rt; "Locks")?;
    meet::<Locks>(rt, Locks::fresh(0))?;
    println!(rt; "Check")?;
    meet::<Check>(rt, Check::fresh(0))
}
