// The table: where its lines go, and the memory that is lent to the register of each part.
use crate::replies::{answered, read, ticked};
use crate::request::{Part, Request};
use cells::value::Value;
use jobs::class_setup::ClassSetup;
use jobs::memory::Memory;
use jobs::register::Register;
use orders::drawn_order::DrawnOrder;
use rules::chosen_rule::ChosenRule;
use std::io;

#[derive(Drop)]
pub struct Table<'a> {
    pub rt: HostRuntime,
    pub memory: Memory<'a, u32, ChosenRule>,
}

// Class 1 directly above class 0.
// Each program draws its order itself, by the two calls that its reader would make: a function for three programs is no plainer.
fn two_classes() -> Option<DrawnOrder> {
    let mut order = DrawnOrder::new(0b0).ok()?;
    order.add(0b1).ok()?;
    Some(order)
}

pub fn fresh_register(variant: u8) -> Option<Register<DrawnOrder>> {
    let records = [ClassSetup { items: 10 }, ClassSetup { items: 1 }];
    Register::new(two_classes()?, &records, variant).ok()
}

impl Table<'_> {
    // A part of the table on a fresh register.
    pub fn part(&mut self, part: &Part) -> io::Result<()> {
        println!(self.rt; "{}", part.title)?;
        let Some(mut register) = fresh_register(part.variant) else {
            return println!(self.rt; "    no register");
        };
        match register.fill(&mut self.memory) {
            Ok(()) => self.rows(&mut register, part.requests),
            Err(fault) => println!(self.rt; "    fill: {}", fault.number()),
        }
    }

    pub fn rows(
        &mut self,
        register: &mut Register<DrawnOrder>,
        requests: &[Request],
    ) -> io::Result<()> {
        for request in requests {
            self.row(register, *request)?;
        }
        Ok(())
    }

    // Makes the call, and prints its row.
    fn row(&mut self, register: &mut Register<DrawnOrder>, request: Request) -> io::Result<()> {
        let rt = self.rt;
        let memory = &mut self.memory;
        match request {
            Request::Begin(class, bay, kind) => {
                print!(rt; "    begin {class} {bay} kind {kind}: ")?;
                answered(rt, register.begin(memory, class, bay, kind))
            }
            Request::Read(class, bay, other, item) => {
                print!(rt; "    read {class} {bay} of class {other} item {item}: ")?;
                read(rt, register.read(memory, class, bay, other, item))
            }
            Request::Write(class, bay, item, value) => {
                match value {
                    Some(value) => print!(rt;
                        "    write {class} {bay} item {item} value {value}: "
                    )?,
                    None => print!(rt; "    write {class} {bay} item {item} no value: ")?,
                }
                answered(rt, register.write(memory, class, bay, item, value))
            }
            Request::Commit(class, bay) => {
                print!(rt; "    commit {class} {bay}: ")?;
                answered(rt, register.commit(memory, class, bay))
            }
            Request::GiveUp(class, bay) => {
                print!(rt; "    give up {class} {bay}: ")?;
                answered(rt, register.give_up(memory, class, bay))
            }
            Request::Tick => {
                print!(rt; "    tick: ")?;
                ticked(rt, register.tick(memory))
            }
        }
    }
}
