// Slips: bytes that are no slip are refused as no value.
use crate::replies::answered;
use cells::cell::Cell;
use cells::slip::Slip;
use cells::value::Value;
use jobs::class_setup::ClassSetup;
use jobs::memory::Memory;
use jobs::register::Register;
use orders::drawn_order::DrawnOrder;
use register_parts::job_kind::JobKind;
use rules::chosen_rule::ChosenRule;
use std::io;

fn one_class() -> Option<Register<DrawnOrder>> {
    let order = DrawnOrder::new(0b0).ok()?;
    Register::new(order, &[ClassSetup { items: 1 }], 0).ok()
}

pub fn slips(rt: HostRuntime, rule: ChosenRule) -> io::Result<()> {
    println!(rt; "Bytes that are no slip: 15")?;
    // Without a heap the arrays live where they are lent.
    let mut cells = [Cell::<Slip>::starting(); 1];
    let mut pending = [Slip::start(); 64];
    let mut rules = [rule; 1];
    let mut memory = Memory {
        cells: &mut cells,
        pending: &mut pending,
        rules: &mut rules,
    };
    let Some(mut register) = one_class() else {
        return println!(rt; "    no register");
    };
    if register.fill(&mut memory).is_err() {
        return println!(rt; "    not filled");
    }
    print!(rt; "    begin: ")?;
    answered(rt, register.begin(&memory, 0, 0, u8::from(JobKind::Update)))?;
    let rows: [(&str, &[u8]); 3] = [
        ("state 2", &[0, 0, 0, 1, 7, 2]),
        ("state 3", &[0, 0, 0, 1, 7, 3]),
        ("five bytes", &[0, 0, 0, 1, 7]),
    ];
    for (what, bytes) in rows {
        print!(rt; "    write {what}: ")?;
        answered(rt, register.write(&mut memory, 0, 0, 0, Slip::read(bytes)))?;
    }
    Ok(())
}
