// Orders at work.
use crate::chosen_order::ChosenOrder;
use crate::class_order::ClassOrder;
use crate::drawn_order::DrawnOrder;
use crate::labelled_order::LabelledOrder;
use crate::order_fault::OrderFault;
use crate::top_grade::top_grade;
use std::test::Fail;

#[test]
fn labels(rt: HostRuntime) -> Result<(), Fail> {
    let mut order = LabelledOrder::new(2, 5)?;
    order.add(2, 1)?;
    order.add(1, 2)?;
    assert!(rt; order.grade(0) == 4);
    assert!(rt; order.dominates(0, 1));
    assert!(rt; !order.dominates(0, 2));
    assert!(rt; top_grade(&order) == 4);
    Ok(())
}

#[test]
fn chain(rt: HostRuntime) -> Result<(), Fail> {
    let mut order = DrawnOrder::new(0)?;
    order.add(0b001)?;
    order.add(0b010)?;
    assert!(rt; order.dominates(2, 0));
    assert!(rt; !order.dominates(0, 2));
    assert!(rt; top_grade(&order) == 2);
    Ok(())
}

#[test]
fn diamond(rt: HostRuntime) -> Result<(), Fail> {
    let mut order = DrawnOrder::new(0)?;
    order.add(0b0001)?;
    order.add(0b0001)?;
    order.add(0b0110)?;
    assert!(rt; order.dominates(3, 0));
    assert!(rt; !order.dominates(1, 2));
    assert!(rt; order.grade(1) == order.grade(2));
    assert!(rt; order.grade(3) == 2);
    Ok(())
}

#[test]
fn label_refusals(rt: HostRuntime) -> Result<(), Fail> {
    assert_eq!(rt;
        LabelledOrder::new(16, 0).err(),
        Some(OrderFault::RankTooHigh)
    );
    let mut order = LabelledOrder::new(15, 255)?;
    assert_eq!(rt; order.add(16, 255), Err(OrderFault::RankTooHigh));
    assert_eq!(rt; order.add(15, 255), Err(OrderFault::LabelUsed));
    assert!(rt; order.classes() == 1);
    assert!(rt; order.grade(0) == 23);
    Ok(())
}

#[test]
fn set_refusals(rt: HostRuntime) -> Result<(), Fail> {
    assert_eq!(rt; DrawnOrder::new(1).err(), Some(OrderFault::NotSmaller));
    let mut order = DrawnOrder::new(0)?;
    assert_eq!(rt; order.add(0b10), Err(OrderFault::NotSmaller));
    assert!(rt; order.classes() == 1);
    Ok(())
}

#[test]
fn sixteen_classes(rt: HostRuntime) -> Result<(), Fail> {
    let mut drawn = DrawnOrder::new(0)?;
    let mut labelled = LabelledOrder::new(0, 0)?;
    for c in 1..16 {
        drawn.add(0b1)?;
        labelled.add(0, c)?;
    }
    assert_eq!(rt; drawn.add(0), Err(OrderFault::TooManyClasses));
    assert_eq!(rt; labelled.add(16, 0), Err(OrderFault::TooManyClasses));
    assert!(rt; ChosenOrder::Drawn(drawn).dominates(15, 0));
    assert!(rt; ChosenOrder::Labelled(labelled).classes() == 16);
    Ok(())
}
