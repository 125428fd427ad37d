// The parts of the table that are about set-up: how many classes and items there may be.
use jobs::class_setup::ClassSetup;
use jobs::register::Register;
use orders::drawn_order::DrawnOrder;
use orders::order_fault::OrderFault;
use std::io;

// An order of so many classes, none above another.
fn flat(classes: u8) -> Result<DrawnOrder, OrderFault> {
    let mut order = DrawnOrder::new(0)?;
    for _ in 1..classes {
        order.add(0)?;
    }
    Ok(order)
}

// The words are this table's own.
fn no_order(rt: HostRuntime, fault: OrderFault) -> io::Result<()> {
    match fault {
        OrderFault::TooManyClasses => println!(rt; "the order has too many classes"),
        _ => println!(rt; "no such order"),
    }
}

// Sets up a register with these records over an order of so many classes.
fn row(rt: HostRuntime, what: &str, classes: u8, records: &[ClassSetup]) -> io::Result<()> {
    print!(rt; "    {what}: ")?;
    match flat(classes) {
        Ok(order) => match Register::new(order, records, 0) {
            Ok(_register) => println!(rt; "accepted"),
            Err(fault) => println!(rt; "{}", fault.number()),
        },
        Err(fault) => no_order(rt, fault),
    }
}

pub fn set_ups(rt: HostRuntime) -> io::Result<()> {
    println!(rt; "Set-up numbers out of range: 5")?;
    let none = ClassSetup { items: 0 };
    let most = ClassSetup { items: 64 };
    row(rt, "64 items", 1, &[most])?;
    row(rt, "65 items", 1, &[ClassSetup { items: 65 }])?;
    row(rt, "256 items in all", 5, &[most, most, most, most, none])?;
    row(
        rt,
        "257 items in all",
        5,
        &[most, most, most, most, ClassSetup { items: 1 }],
    )?;
    row(rt, "one record for two classes", 2, &[most])?;
    row(rt, "16 classes", 16, &[none; 16])?;
    row(rt, "17 records for 16 classes", 16, &[none; 17])?;
    row(rt, "17 classes", 17, &[none; 17])
}
