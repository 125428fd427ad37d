//! Jobs by their tickets, told in words: a withdrawn release at words under locks, then slips of a workshop under the check rule.
#![tactic(auto)]

mod desk;
mod holder;
mod item;
mod release;
mod story;
mod telling;
mod words;
mod workshop;

use cells::cell::Cell;
use cells::slip::{Slip, SlipState};
use cells::value::Value;
use desk::Desk;
use jobs::class_setup::ClassSetup;
use jobs::memory::Memory;
use jobs::register::Register;
use orders::drawn_order::DrawnOrder;
use release::Release;
use rules::check::Check;
use rules::local_rule::LocalRule;
use rules::locks::Locks;
use std::fmt::Display;
use std::io;
use story::Story;
use workshop::Workshop;

// The maker is class 0; the distributor is class 1, directly above it.
// Each program draws its order itself, by the two calls that its reader would make: a function for three programs is no plainer.
fn distributor_above_maker() -> Option<DrawnOrder> {
    let mut order = DrawnOrder::new(0b0).ok()?;
    order.add(0b1).ok()?;
    Some(order)
}

// Fills the memory for a register, and plays a story at a desk with both.
fn play<V: Value + Display, R: LocalRule + Drop, S: Story<V>>(
    rt: HostRuntime,
    register: Register<DrawnOrder>,
    cells: &mut [Cell<V>],
    pending: &mut [V],
    rules: &mut [R],
    story: &S,
) -> io::Result<()> {
    let mut memory = Memory {
        cells,
        pending,
        rules,
    };
    match register.fill(&mut memory) {
        Ok(()) => {
            let mut desk = Desk::new(rt, register, memory);
            story.play(&mut desk);
            desk.close()
        }
        Err(fault) => println!(rt; "the memory is not filled: number {}", fault.number()),
    }
}

fn play_release(rt: HostRuntime, register: Register<DrawnOrder>, rule: Locks) -> io::Result<()> {
    let story = Release {
        firmware: 41,
        layout: 3,
    };
    play(
        rt,
        register,
        &mut [Cell::<u32>::starting(); 3],
        &mut [0; 128],
        &mut [rule; 2],
        &story,
    )
}

fn play_workshop(rt: HostRuntime, register: Register<DrawnOrder>, rule: Check) -> io::Result<()> {
    let received = Slip {
        serial: 7001,
        fault: 3,
        state: SlipState::Received,
    };
    let reflashed = Slip {
        state: SlipState::Reflashed,
        ..received
    };
    let story = Workshop {
        received,
        reflashed,
    };
    play(
        rt,
        register,
        &mut [Cell::<Slip>::starting(); 1],
        &mut [received; 64],
        &mut [rule; 1],
        &story,
    )
}

// Sets up a register and a rule, and plays with them.
fn set_up<R: LocalRule + Drop, F: FnOnce(Register<DrawnOrder>, R) -> io::Result<()>>(
    rt: HostRuntime,
    order: DrawnOrder,
    records: &[ClassSetup],
    play: F,
) -> io::Result<()>
    requires { F.IsAlwaysCallable play }
{
    let Some(rule) = R::fresh(0) else {
        return println!(rt; "no such variant");
    };
    match Register::new(order, records, 0) {
        Ok(register) => play(register, rule),
        Err(fault) => println!(rt; "the register is not set up: number {}", fault.number()),
    }
}

fn release_under_locks(rt: HostRuntime, order: DrawnOrder) -> io::Result<()> {
    let records = [ClassSetup { items: 2 }, ClassSetup { items: 1 }];
    set_up(
        rt,
        order,
        &records,
        |register, rule| play_release(rt, register, rule),
    )
}

fn slips_under_check(rt: HostRuntime, order: DrawnOrder) -> io::Result<()> {
    let records = [ClassSetup { items: 1 }];
    set_up(
        rt,
        order,
        &records,
        |register, rule| play_workshop(rt, register, rule),
    )
}

fn main(rt: HostRuntime) -> io::Result<()> {
    match distributor_above_maker() {
        Some(order) => release_under_locks(rt, order)?,
        None => println!(rt; "no such order")?,
    }
    match DrawnOrder::new(0b0) {
        Ok(order) => slips_under_check(rt, order),
        Err(_) => println!(rt; "no such order"),
    }
}
