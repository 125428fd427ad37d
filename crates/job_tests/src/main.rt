//! Each number with which the register refuses, met once, and each border from both sides: a table that is compared with its stored form.
#![tactic(auto)]

mod calls;
mod replies;
mod request;
mod scenes;
mod set_ups;
mod slips;
mod table;

use rules::chosen_rule::ChosenRule;
use rules::local_rule::LocalRule;
use scenes::{calls_by_number, one_cell_too_few};
use std::io;

fn main(rt: HostRuntime) -> io::Result<()> {
    let Some(rule) = ChosenRule::fresh(0) else {
        return println!(rt; "no such variant");
    };
    set_ups::set_ups(rt)?;
    one_cell_too_few(rt, rule)?;
    calls_by_number(rt, rule)?;
    slips::slips(rt, rule)
}
