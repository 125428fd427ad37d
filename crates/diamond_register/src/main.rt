//! A register over a class order and a local rule of one's own: two rivals order probes, and neither learns of the other.
#![tactic(auto)]

mod diamond_order;
mod diamond_session;
mod replies;
mod scene;
mod session;
mod steps;

use cells::cell::Cell;
use diamond_order::{DiamondOrder, LEFT, RIGHT};
use diamond_session::{diamond_session, records};
use exclusive_rule::exclusive::Exclusive;
use jobs::memory::Memory;
use replies::value;
use rules::local_rule::LocalRule;
use scene::Scene;
use session::set_up;
use std::io;
use steps::{AUDIT, ORDERING, READING, RELEASE, WATCHING};

// All parts of a scene, on a fresh register.
fn play(
    rt: HostRuntime,
    mut memory: Memory<'_, u32, Exclusive>,
    silent: Option<u8>,
) -> io::Result<()> {
    match set_up(DiamondOrder, &records(), 0, &mut memory) {
        Ok(register) => {
            let mut scene = Scene {
                rt,
                register,
                memory,
                silent,
            };
            scene.part("The maker releases firmware 41 with layout 3.", &RELEASE)?;
            scene.part("The rivals read it.", &READING)?;
            scene.part(
                "Each asks for the other's order: it is not below.",
                &WATCHING,
            )?;
            scene.part("Each orders probes.", &ORDERING)?;
            scene.part("The auditor reads both orders.", &AUDIT)
        }
        Err(fault) => println!(rt; "the register is not set up: number {}", fault.number()),
    }
}

// The session whose contract says how it comes out.
fn promised(rt: HostRuntime, memory: &mut Memory<'_, u32, Exclusive>) -> io::Result<()> {
    match diamond_session(memory, 41) {
        Ok(played) => {
            print!(rt; "    the left rival's read of the release ")?;
            value(rt, played.1.read)?;
            print!(rt; "    the left rival's read of the right one's order ")?;
            value(rt, played.1.watched)
        }
        Err(fault) => println!(rt; "the register is not set up: number {}", fault.number()),
    }
}

fn main(rt: HostRuntime) -> io::Result<()> {
    let Some(rule) = Exclusive::fresh(0) else {
        return println!(rt; "no such variant");
    };
    // Without a heap the arrays live where they are lent.
    let mut cells = [Cell::<u32>::starting(); 5];
    let mut pending = [0u32; 256];
    let mut rules = [rule; 4];
    for (title, silent) in [
        ("Both rivals act:", None),
        (
            "The right rival keeps silent, and the left is told the same:",
            Some(RIGHT),
        ),
        (
            "The left rival keeps silent, and the right is told the same:",
            Some(LEFT),
        ),
    ] {
        println!(rt; "{title}")?;
        let memory = Memory {
            cells: &mut cells,
            pending: &mut pending,
            rules: &mut rules,
        };
        play(rt, memory, silent)?;
    }
    println!(rt; "A session whose contract says how it comes out:")?;
    let mut memory = Memory {
        cells: &mut cells,
        pending: &mut pending,
        rules: &mut rules,
    };
    promised(rt, &mut memory)
}
