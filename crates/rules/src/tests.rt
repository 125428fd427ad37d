// Bays that meet under each rule, and the last bay and item.
use crate::access::Access;
use crate::check::Check;
use crate::local_rule::LocalRule;
use crate::locks::Locks;
use crate::rule_fault::RuleFault;
use std::test::Fail;

#[test]
fn check_finds_the_stale_reader(rt: HostRuntime) -> Result<(), Fail> {
    let mut rule = Check::fresh(0).ok_or("no such variant")?;
    rule.claim(Access::Read, 0, 5)?;
    rule.claim(Access::Write, 1, 5)?;
    rule.settle(1)?;
    assert_eq!(rt; rule.settle(0), Err(RuleFault::Stale));
    Ok(())
}

#[test]
fn locks_name_the_lowest_bay(rt: HostRuntime) -> Result<(), Fail> {
    let mut rule = Locks::fresh(0).ok_or("no such variant")?;
    rule.claim(Access::Read, 6, 9)?;
    rule.claim(Access::Read, 3, 9)?;
    assert_eq!(rt;
        rule.claim(Access::Write, 4, 9),
        Err(RuleFault::ClaimedBy(3))
    );
    Ok(())
}

#[test]
fn last_bay_and_last_item(rt: HostRuntime) -> Result<(), Fail> {
    let mut rule = Locks::fresh(0).ok_or("no such variant")?;
    rule.claim(Access::Write, 7, 63)?;
    assert_eq!(rt; rule.claim(Access::Read, 8, 64), Err(RuleFault::NoSuchBay));
    assert_eq!(rt; rule.claim(Access::Read, 7, 64), Err(RuleFault::NoSuchItem));
    assert_eq!(rt;
        rule.claim(Access::Read, 0, 63),
        Err(RuleFault::ClaimedBy(7))
    );
    Ok(())
}
