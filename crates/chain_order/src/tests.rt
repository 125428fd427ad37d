// A chain of four classes.
use crate::chain_order::ChainOrder;
use orders::class_order::ClassOrder;
use orders::top_grade::top_grade;
use std::test::Fail;

#[test]
fn four_classes(rt: HostRuntime) -> Result<(), Fail> {
    let order = ChainOrder::new(4).ok_or(4u8)?;
    assert!(rt; order.dominates(3, 0));
    assert!(rt; !order.dominates(0, 3));
    assert!(rt; top_grade(&order) == 3);
    Ok(())
}

#[test]
fn refused_lengths(rt: HostRuntime) {
    assert!(rt; ChainOrder::new(0).is_none());
    assert!(rt; ChainOrder::new(17).is_none());
}
