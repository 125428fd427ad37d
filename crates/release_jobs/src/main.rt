//! A release is withdrawn while two stations read it: played through the calls of the register, and told in words.
#![tactic(auto)]

mod scene;

use cells::cell::Cell;
use jobs::class_setup::ClassSetup;
use jobs::memory::Memory;
use jobs::register::Register;
use orders::drawn_order::DrawnOrder;
use rules::local_rule::LocalRule;
use rules::locks::Locks;
use scene::Scene;
use std::io;

// The maker is class 0, whose items are the firmware number and the table layout; the distributor is class 1, above it.
const MAKER: u8 = 0;

const DISTRIBUTOR: u8 = 1;

const FIRMWARE: u8 = 0;

const LAYOUT: u8 = 1;

// The maker releases firmware 41 with layout 3.
fn release(scene: &mut Scene<'_>) -> io::Result<()> {
    scene.tell("The maker releases firmware 41 with layout 3.")?;
    scene.begin(MAKER, 0)?;
    scene.write(MAKER, 0, FIRMWARE, 41)?;
    scene.write(MAKER, 0, LAYOUT, 3)?;
    scene.commit(MAKER, 0)
}

// One station reads too early, and after the tick still sees the same release; another reads the new one and commits first.
fn stations(scene: &mut Scene<'_>) -> io::Result<()> {
    scene.tell(
        "A station reads the firmware before the release is declared, and the layout after.",
    )?;
    scene.begin(DISTRIBUTOR, 0)?;
    scene.read(DISTRIBUTOR, 0, MAKER, FIRMWARE)?;
    scene.tick()?;
    scene.read(DISTRIBUTOR, 0, MAKER, LAYOUT)?;
    scene.tell("A second station reads the release that is declared now, and commits first.")?;
    scene.begin(DISTRIBUTOR, 1)?;
    scene.read(DISTRIBUTOR, 1, MAKER, FIRMWARE)?;
    scene.commit(DISTRIBUTOR, 1)?;
    scene.tell("So the first station, whose release is older, cannot commit any more.")?;
    scene.commit(DISTRIBUTOR, 0)?;
    scene.tick()
}

// Plays both scenes on a register that is set up, in memory of its own.
fn play(rt: HostRuntime, register: Register<DrawnOrder>, rule: Locks) -> io::Result<()> {
    // Without a heap the arrays live where they are lent.
    let mut cells = [Cell::<u32>::starting(); 3];
    let mut pending = [0u32; 128];
    let mut rules = [rule; 2];
    let mut memory = Memory {
        cells: &mut cells,
        pending: &mut pending,
        rules: &mut rules,
    };
    match register.fill(&mut memory) {
        Ok(()) => {
            let mut scene = Scene {
                rt,
                register,
                memory,
            };
            release(&mut scene)?;
            stations(&mut scene)
        }
        Err(fault) => println!(rt; "the memory is not filled: number {}", fault.number()),
    }
}

// Class 1 is directly above class 0.
// Each program draws its order itself, by the two calls that its reader would make: a function for three programs is no plainer.
fn order() -> Option<DrawnOrder> {
    let mut order = DrawnOrder::new(0b0).ok()?;
    order.add(0b1).ok()?;
    Some(order)
}

fn set_up(rt: HostRuntime, order: DrawnOrder, rule: Locks) -> io::Result<()> {
    let records = [ClassSetup { items: 2 }, ClassSetup { items: 1 }];
    match Register::new(order, &records, 0) {
        Ok(register) => play(rt, register, rule),
        Err(fault) => println!(rt; "the register is not set up: number {}", fault.number()),
    }
}

fn main(rt: HostRuntime) -> io::Result<()> {
    let Some(rule) = Locks::fresh(0) else {
        return println!(rt; "no such variant");
    };
    match order() {
        Some(order) => set_up(rt, order, rule),
        None => println!(rt; "no such order"),
    }
}
