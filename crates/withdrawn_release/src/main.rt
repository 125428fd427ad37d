//! Four version periods of a firmware and its table layout, with a release withdrawn in the last, printed step by step.
#![tactic(auto)]

ghost use Rattle.std.specs.Prelude.{◌≡◌, map};
ghost use Rattle.cells.specs.Cells.{versions};
ghost use Rattle.withdrawn_release.specs.Releases.{published};

mod catalogue;
mod release;

use catalogue::{publish, served};
use cells::cell::Cell;
use release::Release;
use std::io;

// What readers at each number so far are served.
fn show_readers(rt: &HostRuntime, catalogue: &[Cell<u32>], newest: u32) -> io::Result<()> {
    for number in 0..=newest {
        match served(catalogue, number) {
            Ok(Some(release)) => println!(rt; "    a reader at {number} is served {release}")?,
            Ok(None) => println!(rt;
                "    a reader at {number} is served nothing: that version is no longer kept"
            )?,
            Err(fault) => println!(rt; "    {fault}")?,
        }
    }
    Ok(())
}

// Publishes a release under a number, and prints what came of it.
fn step(
    rt: &HostRuntime,
    catalogue: &mut [Cell<u32>],
    title: &str,
    number: u32,
    release: Release,
) -> io::Result<()>
    ensures memory { map versions catalogue.new ≡ published number release (map versions catalogue.old) }
{
    let outcome = publish(catalogue, number, release);
    println!(rt; "{title}: {release}, under number {number}")?;
    match outcome {
        Ok(()) => println!(rt; "    stored")?,
        Err(fault) => println!(rt; "    refused: {fault}")?,
    }
    show_readers(rt, catalogue, number)
}

const FIRST: Release = Release {
    firmware: 41,
    layout: 3,
};

const SECOND: Release = Release {
    firmware: 42,
    layout: 4,
};

const FAULTY: Release = Release {
    firmware: 43,
    layout: 5,
};

const LATE: Release = Release {
    firmware: 44,
    layout: 6,
};

fn main(rt: HostRuntime) -> io::Result<()> {
    let mut catalogue = [Cell::starting(), Cell::starting()];
    println!(rt; "A release is a firmware and the table layout that it reads.")?;
    println!(rt; "Of each the last three versions are kept, at first 0 under number 0.")?;
    step(&rt, &mut catalogue, "Period 1", 1, FIRST)?;
    step(&rt, &mut catalogue, "Period 2", 2, SECOND)?;
    step(&rt, &mut catalogue, "Period 3", 3, FAULTY)?;
    println!(rt; "Firmware 43 is withdrawn: the release before it is published again.")?;
    step(&rt, &mut catalogue, "Period 4", 4, SECOND)?;
    step(&rt, &mut catalogue, "Too late for period 3", 3, LATE)
}
