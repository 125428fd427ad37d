// A desk: a register with the memory lent to it, at which jobs run by their tickets and each action is told in words.
ghost use Rattle.std.specs.Prelude.{◌≡◌, true, None};
ghost use Rattle.jobs.specs.Represents.{enough};
ghost use Rattle.tickets.specs.Tickets.{unspent};

use crate::holder::Holder;
use crate::item::Item;
use crate::telling::Telling;
use crate::words::KindInWords;
use cells::value::Value;
use jobs::declaration::Declaration;
use jobs::job_fault::JobFault;
use jobs::memory::Memory;
use jobs::register::Register;
use orders::class_order::ClassOrder;
use rules::local_rule::LocalRule;
use std::fmt::Display;
use std::io;
use tickets::job_kind::{JobKind, Update};
use tickets::ticket::{EndFault, Ticket};

// Its memory is enough for every call, so that no ticket ever comes back.
#[derive(Drop)]
pub struct Desk<'a, O: ClassOrder, V: Value, R: LocalRule> {
    pub register: Register<O>,
    pub memory: Memory<'a, V, R>,
    pub telling: Telling,
    ghost lent: { enough (O.ClassOrder) (V.Value) (R.LocalRule) register memory ≡ true },
}

impl<'a, O: ClassOrder + Drop, V: Value + Display, R: LocalRule + Drop> Desk<'a, O, V, R> {
    // The memory is filled before: a `Result` of a desk, which holds a `&mut` and has an invariant, was tried and refused.
    pub(crate) fn new(
        rt: HostRuntime,
        register: Register<O>,
        memory: Memory<'a, V, R>,
    ) -> Desk<'a, O, V, R>
        requires { enough (O.ClassOrder) (V.Value) (R.LocalRule) register memory ≡ true }
    {
        Desk {
            register,
            memory,
            telling: Telling::new(rt),
        }
    }

    // Whether every line was written.
    pub fn close(&mut self) -> io::Result<()> {
        self.telling.outcome()
    }

    // A line of the story between the actions.
    pub(crate) fn tell(&mut self, line: &str) {
        self.telling.line(line);
    }

    fn refused(&mut self, name: &str, action: &str, fault: JobFault) {
        let number = fault.number();
        self.telling.line(format_args!("    {name}: {action} is refused with {number}, {fault}"));
    }

    // Begins a job of a kind in a bay, for somebody.
    pub(crate) fn begin<K: KindInWords>(
        &mut self,
        name: &'static str,
        class: u8,
        bay: u8,
    ) -> Option<Holder<K>> {
        match Ticket::<K>::begin(&mut self.register, &self.memory, class, bay) {
            Ok(ticket) => {
                let kind = K::WORDS;
                self.telling.line(format_args!("    {name} begins {kind}"));
                Some(Holder { name, ticket })
            }
            Err(fault) => {
                self.refused(name, "begin", fault);
                None
            }
        }
    }

    pub(crate) fn read<K: JobKind>(&mut self, holder: &Holder<K>, item: Item) {
        let name = holder.name;
        let from = item.name;
        match holder.ticket.read(
            &mut self.register,
            &mut self.memory,
            item.class,
            item.number,
        ) {
            Ok(value) => {
                self.telling
                    .line(format_args!("    {name} reads {value} from {from}"));
            }
            Err(fault) => self.refused(name, "read", fault),
        }
    }

    // Only who holds an update job's ticket can write.
    pub(crate) fn write(&mut self, holder: &Holder<Update>, item: Item, value: V) {
        let name = holder.name;
        let to = item.name;
        match holder.ticket.write(
            &mut self.register,
            &mut self.memory,
            item.number,
            Some(value),
        ) {
            Ok(()) => {
                self.telling
                    .line(format_args!("    {name} writes {value} to {to}"));
            }
            Err(fault) => self.refused(name, "write", fault),
        }
    }

    pub(crate) fn commit<K: JobKind>(&mut self, holder: Holder<K>) {
        let Holder { name, ticket } = holder;
        let reply = ticket.commit(&mut self.register, &mut self.memory);
        self.ended(name, "commit", reply)
    }

    pub(crate) fn give_up<K: JobKind>(&mut self, holder: Holder<K>) {
        let Holder { name, ticket } = holder;
        let reply = ticket.give_up(&mut self.register, &mut self.memory);
        self.ended(name, "giving up", reply)
    }

    // Tells how a job ended. Since the memory is enough, no ticket comes back.
    fn ended<K: JobKind>(&mut self, name: &str, action: &str, reply: Result<(), EndFault<K>>)
        requires spent { unspent reply ≡ None }
    {
        match reply {
            Ok(()) => {
                self.telling
                    .line(format_args!("    {name}: {action} is accepted"));
            }
            Err(EndFault::Refused(fault)) => self.refused(name, action, fault),
            Err(EndFault::Unspent(_ticket)) => unreachable!(),
        }
    }

    pub(crate) fn tick(&mut self) {
        match self.register.tick(&mut self.memory) {
            Ok(Declaration { grade, number }) => self.telling.line(format_args!(
                "    the clock declares version {number} at grade {grade}"
            )),
            Err(fault) => self.refused("the clock", "tick", fault),
        }
    }
}
