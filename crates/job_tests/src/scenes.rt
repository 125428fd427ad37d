// The parts of the table that are calls, each on a fresh register.
use crate::calls;
use crate::replies::ticked;
use crate::table::{Table, fresh_register};
use cells::cell::Cell;
use cells::value::Value;
use jobs::memory::Memory;
use rules::chosen_rule::ChosenRule;
use std::io;

// Ticks, of which the last before the end of the clock and those after it are shown.
fn ticks(table: &mut Table<'_>) -> io::Result<()> {
    let rt = table.rt;
    println!(rt; "The millionth tick passes; then: 20")?;
    let Some(mut register) = fresh_register(calls::LOCKS) else {
        return println!(rt; "    no register");
    };
    for tick in 1..1_000_003u32 {
        let reply = register.tick(&mut table.memory);
        if tick == 1_000_000 || reply.is_err() {
            print!(rt; "    tick {tick}: ")?;
            ticked(rt, reply)?;
        }
    }
    Ok(())
}

// Every call wants the memory that filling wants.
fn short_of_memory(table: &mut Table<'_>) -> io::Result<()> {
    let rt = table.rt;
    let Some(mut register) = fresh_register(calls::LOCKS) else {
        return println!(rt; "    no register");
    };
    match register.fill(&mut table.memory) {
        Ok(()) => println!(rt; "    fill: accepted")?,
        Err(fault) => println!(rt; "    fill: {}", fault.number())?,
    }
    table.rows(&mut register, &calls::SHORT)
}

// The numbers of the door, of bays and of items.
fn refused_at_once(table: &mut Table<'_>) -> io::Result<()> {
    table.part(&calls::NO_VARIANT)?;
    table.part(&calls::NUMBERS)?;
    table.part(&calls::BAYS)?;
    table.part(&calls::CLASSES_AND_ITEMS)?;
    table.part(&calls::PENDING)
}

// The numbers that depend on other jobs and on the clock.
fn refused_in_time(table: &mut Table<'_>) -> io::Result<()> {
    table.part(&calls::CLAIMS)?;
    table.part(&calls::OVERTAKEN)?;
    table.part(&calls::STALE)?;
    table.part(&calls::CLOSED)?;
    ticks(table)
}

// What is served.
fn served(table: &mut Table<'_>) -> io::Result<()> {
    table.part(&calls::DROPPED)?;
    table.part(&calls::LONG_JOBS)
}

// All that is refused or served where the memory is enough.
fn by_number(table: &mut Table<'_>) -> io::Result<()> {
    refused_at_once(table)?;
    refused_in_time(table)?;
    served(table)
}

// Lends these cells, with the rest of the memory, to a part of the table.
fn with_cells<F: FnOnce(&mut Table<'_>) -> io::Result<()>>(
    rt: HostRuntime,
    rule: ChosenRule,
    cells: &mut [Cell<u32>],
    part: F,
) -> io::Result<()>
    requires { F.IsAlwaysCallable part }
{
    let memory = Memory {
        cells,
        pending: &mut [0u32; 128],
        rules: &mut [rule; 2],
    };
    part(&mut Table { rt, memory })
}

pub fn calls_by_number(rt: HostRuntime, rule: ChosenRule) -> io::Result<()> {
    with_cells(rt, rule, &mut [Cell::<u32>::starting(); 11], by_number)
}

pub fn one_cell_too_few(rt: HostRuntime, rule: ChosenRule) -> io::Result<()> {
    println!(rt; "One cell too few: 7, before everything else")?;
    with_cells(
        rt,
        rule,
        &mut [Cell::<u32>::starting(); 10],
        short_of_memory,
    )
}
