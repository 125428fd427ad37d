// The calls of a job by its ticket: each replies, and leaves, what the call by the ticket's numbers does, and bears the laws.
ghost use Rattle.std.specs.Prelude.{◌≡◌, nat_eq};
ghost use Rattle.jobs.specs.CallLaws.{Lawfully};
ghost use Rattle.jobs.specs.Faults.{done_reply, read_reply};
ghost use Rattle.jobs.specs.Lent.{none, ChangedOnly};
ghost use Rattle.jobs.specs.OwnPlaces.{cells_of, places_of, if_bay};
ghost use Rattle.jobs.specs.Represents.{enough, defined, LeadsTo};
ghost use Rattle.jobs.specs.Requests.{to_begin, to_read, to_write, to_commit, to_give_up};
ghost use Rattle.tickets.specs.Tickets.{began, ended, HandedOut, unspent, handed_back, enough_for};

use crate::job_kind::{JobKind, Update};
use crate::ticket::{EndFault, Ticket};
use cells::value::Value;
use jobs::job_fault::JobFault;
use jobs::memory::Memory;
use jobs::register::Register;
use orders::class_order::ClassOrder;
use rules::local_rule::LocalRule;
use std::marker::PhantomData;

impl<K: JobKind> Ticket<K> {
    // Opens a free bay with a job of the ticket's kind, and hands out the ticket.
    pub fn begin<O: ClassOrder, V: Value, R: LocalRule>(
        register: &mut Register<O>,
        memory: &Memory<'_, V, R>,
        class: u8,
        bay: u8,
    ) -> Result<Ticket<K>, JobFault>
        ensures reply { done_reply (began result) ≡ (defined (O.ClassOrder) (V.Value) (R.LocalRule) register.old memory.now (to_begin class bay K.JobKind.NUMBER)).reply }
        ensures state { LeadsTo (O.ClassOrder) (V.Value) (R.LocalRule) register.old memory.now (to_begin class bay K.JobKind.NUMBER) register.new memory.now }
        ensures laws { Lawfully (O.ClassOrder) (V.Value) (R.LocalRule) register.old memory.now (to_begin class bay K.JobKind.NUMBER) (done_reply (began result)) register.new memory.now }
        ensures ticket { HandedOut class bay result }
    {
        register.begin(memory, class, bay, K::NUMBER)?;
        Ok(Ticket {
            class,
            bay,
            kind: PhantomData,
        })
    }

    // Reads an item of the own class or of a class below it, for the ticket's job.
    pub fn read<O: ClassOrder, V: Value, R: LocalRule>(
        &self,
        register: &mut Register<O>,
        memory: &mut Memory<'_, V, R>,
        other: u8,
        item: u8,
    ) -> Result<V, JobFault>
        ensures reply { read_reply result ≡ (defined (O.ClassOrder) (V.Value) (R.LocalRule) register.old memory.old (to_read self.now.class self.now.bay other item)).reply }
        ensures state { LeadsTo (O.ClassOrder) (V.Value) (R.LocalRule) register.old memory.old (to_read self.now.class self.now.bay other item) register.new memory.new }
        ensures memory { ChangedOnly none none (if_bay (O.ClassOrder.classes register.old.order) self.now.class self.now.bay (nat_eq self.now.class)) memory.old memory.new }
        ensures laws { Lawfully (O.ClassOrder) (V.Value) (R.LocalRule) register.old memory.old (to_read self.now.class self.now.bay other item) (read_reply result) register.new memory.new }
    {
        register.read(memory, self.class, self.bay, other, item)
    }

    // Commits the ticket's job: what is pending becomes a version of each item.
    pub fn commit<O: ClassOrder, V: Value, R: LocalRule>(
        self,
        register: &mut Register<O>,
        memory: &mut Memory<'_, V, R>,
    ) -> Result<(), EndFault<K>>
        ensures reply { done_reply (ended result) ≡ (defined (O.ClassOrder) (V.Value) (R.LocalRule) register.old memory.old (to_commit self.class self.bay)).reply }
        ensures state { LeadsTo (O.ClassOrder) (V.Value) (R.LocalRule) register.old memory.old (to_commit self.class self.bay) register.new memory.new }
        ensures memory { ChangedOnly (if_bay (O.ClassOrder.classes register.old.order) self.class self.bay (cells_of register.old.counts.items self.class)) none (if_bay (O.ClassOrder.classes register.old.order) self.class self.bay (nat_eq self.class)) memory.old memory.new }
        ensures laws { Lawfully (O.ClassOrder) (V.Value) (R.LocalRule) register.old memory.old (to_commit self.class self.bay) (done_reply (ended result)) register.new memory.new }
        ensures ticket { unspent result ≡ handed_back (enough (O.ClassOrder) (V.Value) (R.LocalRule) register.old memory.old) self }
    {
        let reply = register.commit(memory, self.class, self.bay);
        self.hand_in(reply)
    }

    // Aborts the ticket's job, if it still runs, and frees the bay.
    pub fn give_up<O: ClassOrder, V: Value, R: LocalRule>(
        self,
        register: &mut Register<O>,
        memory: &mut Memory<'_, V, R>,
    ) -> Result<(), EndFault<K>>
        ensures reply { done_reply (ended result) ≡ (defined (O.ClassOrder) (V.Value) (R.LocalRule) register.old memory.old (to_give_up self.class self.bay)).reply }
        ensures state { LeadsTo (O.ClassOrder) (V.Value) (R.LocalRule) register.old memory.old (to_give_up self.class self.bay) register.new memory.new }
        ensures memory { ChangedOnly none none (if_bay (O.ClassOrder.classes register.old.order) self.class self.bay (nat_eq self.class)) memory.old memory.new }
        ensures laws { Lawfully (O.ClassOrder) (V.Value) (R.LocalRule) register.old memory.old (to_give_up self.class self.bay) (done_reply (ended result)) register.new memory.new }
        ensures ticket { unspent result ≡ handed_back (enough (O.ClassOrder) (V.Value) (R.LocalRule) register.old memory.old) self }
    {
        let reply = register.give_up(memory, self.class, self.bay);
        self.hand_in(reply)
    }

    // Spends the ticket, unless too little memory was lent: then the job still runs, and the ticket comes back.
    fn hand_in(self, reply: Result<(), JobFault>) -> Result<(), EndFault<K>>
        ensures reply { ended result ≡ reply }
        ensures ticket { unspent result ≡ handed_back (enough_for reply) self }
    {
        if let Err(JobFault::TooLittleMemory) = reply {
            return Err(EndFault::Unspent(self));
        }
        let Ticket {
            class: _,
            bay: _,
            kind: _,
        } = self;
        // `reply.map_err(EndFault::Refused)` was tried here and refused: its result names the kind of ticket, and its arguments do not.
        match reply {
            Ok(()) => Ok(()),
            Err(fault) => Err(EndFault::Refused(fault)),
        }
    }
}

impl Ticket<Update> {
    // Writes an item of the own class, for the ticket's job; no value where the bytes that came are none. The value is pending until the commit.
    pub fn write<O: ClassOrder, V: Value, R: LocalRule>(
        &self,
        register: &mut Register<O>,
        memory: &mut Memory<'_, V, R>,
        item: u8,
        value: Option<V>,
    ) -> Result<(), JobFault>
        ensures reply { done_reply result ≡ (defined (O.ClassOrder) (V.Value) (R.LocalRule) register.old memory.old (to_write self.now.class self.now.bay item value)).reply }
        ensures state { LeadsTo (O.ClassOrder) (V.Value) (R.LocalRule) register.old memory.old (to_write self.now.class self.now.bay item value) register.new memory.new }
        ensures memory { ChangedOnly none (if_bay (O.ClassOrder.classes register.old.order) self.now.class self.now.bay (places_of self.now.class self.now.bay)) (if_bay (O.ClassOrder.classes register.old.order) self.now.class self.now.bay (nat_eq self.now.class)) memory.old memory.new }
        ensures laws { Lawfully (O.ClassOrder) (V.Value) (R.LocalRule) register.old memory.old (to_write self.now.class self.now.bay item value) (done_reply result) register.new memory.new }
    {
        register.write(memory, self.class, self.bay, item, value)
    }
}
