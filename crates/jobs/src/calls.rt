// The calls of a register, by class and bay numbers. Each replies, and leaves, what the definition says, and bears the laws.
// The laws are added here to the one clause of the private call that does the work.
ghost use Rattle.std.specs.Prelude.{◌≡◌, nat_eq};
ghost use Rattle.jobs.specs.CallLaws.{Lawfully};
ghost use Rattle.jobs.specs.Faults.{done_reply, read_reply, tick_reply};
ghost use Rattle.jobs.specs.Lent.{none, below, ChangedOnly};
ghost use Rattle.jobs.specs.OwnPlaces.{cells_of, places_of, if_bay};
ghost use Rattle.jobs.specs.Represents.{defined, LeadsTo};
ghost use Rattle.jobs.specs.Requests.{to_begin, to_read, to_write, to_commit, to_give_up, to_tick};

use crate::memory::Memory;
use crate::register::Register;
use cells::value::Value;
use orders::class_order::ClassOrder;
use register_parts::declaration::Declaration;
use register_parts::job_fault::JobFault;
use rules::local_rule::LocalRule;

impl<O: ClassOrder> Register<O> {
    // Opens a free bay with a job of a kind: 0 for an update job, a read-write transaction; 1 for a long job, a read-only transaction on a stable version.
    // A number, as a frame has it: a number that names no kind has a reply of its own.
    pub fn begin<V: Value, R: LocalRule>(
        &mut self,
        memory: &Memory<'_, V, R>,
        class: u8,
        bay: u8,
        kind: u8,
    ) -> Result<(), JobFault>
        ensures reply { done_reply result ≡ (defined (O.ClassOrder) (V.Value) (R.LocalRule) self.old memory.now (to_begin class bay kind)).reply }
        ensures state { LeadsTo (O.ClassOrder) (V.Value) (R.LocalRule) self.old memory.now (to_begin class bay kind) self.new memory.now }
        ensures laws { Lawfully (O.ClassOrder) (V.Value) (R.LocalRule) self.old memory.now (to_begin class bay kind) (done_reply result) self.new memory.now }
    {
        self.begin_job(memory, class, bay, kind)
    }

    // Reads an item of the own class or of a class below it, for the job of a bay.
    pub fn read<V: Value, R: LocalRule>(
        &mut self,
        memory: &mut Memory<'_, V, R>,
        class: u8,
        bay: u8,
        other: u8,
        item: u8,
    ) -> Result<V, JobFault>
        ensures reply { read_reply result ≡ (defined (O.ClassOrder) (V.Value) (R.LocalRule) self.old memory.old (to_read class bay other item)).reply }
        ensures state { LeadsTo (O.ClassOrder) (V.Value) (R.LocalRule) self.old memory.old (to_read class bay other item) self.new memory.new }
        ensures memory { ChangedOnly none none (nat_eq class) memory.old memory.new }
        ensures bay_memory { ChangedOnly none none (if_bay (O.ClassOrder.classes self.old.order) class bay (nat_eq class)) memory.old memory.new }
        ensures laws { Lawfully (O.ClassOrder) (V.Value) (R.LocalRule) self.old memory.old (to_read class bay other item) (read_reply result) self.new memory.new }
    {
        self.read_item(memory, class, bay, other, item)
    }

    // Writes an item of the own class, for the update job of a bay; no value where the bytes that came are none. The value is pending until the commit.
    pub fn write<V: Value, R: LocalRule>(
        &mut self,
        memory: &mut Memory<'_, V, R>,
        class: u8,
        bay: u8,
        item: u8,
        value: Option<V>,
    ) -> Result<(), JobFault>
        ensures reply { done_reply result ≡ (defined (O.ClassOrder) (V.Value) (R.LocalRule) self.old memory.old (to_write class bay item value)).reply }
        ensures state { LeadsTo (O.ClassOrder) (V.Value) (R.LocalRule) self.old memory.old (to_write class bay item value) self.new memory.new }
        ensures memory { ChangedOnly none (places_of class bay) (nat_eq class) memory.old memory.new }
        ensures bay_memory { ChangedOnly none (if_bay (O.ClassOrder.classes self.old.order) class bay (places_of class bay)) (if_bay (O.ClassOrder.classes self.old.order) class bay (nat_eq class)) memory.old memory.new }
        ensures laws { Lawfully (O.ClassOrder) (V.Value) (R.LocalRule) self.old memory.old (to_write class bay item value) (done_reply result) self.new memory.new }
    {
        self.write_item(memory, class, bay, item, value)
    }

    // Commits the job of a bay: what is pending becomes a version of each item. The bay is free afterwards, unless it was before or the call itself is refused.
    pub fn commit<V: Value, R: LocalRule>(
        &mut self,
        memory: &mut Memory<'_, V, R>,
        class: u8,
        bay: u8,
    ) -> Result<(), JobFault>
        ensures reply { done_reply result ≡ (defined (O.ClassOrder) (V.Value) (R.LocalRule) self.old memory.old (to_commit class bay)).reply }
        ensures state { LeadsTo (O.ClassOrder) (V.Value) (R.LocalRule) self.old memory.old (to_commit class bay) self.new memory.new }
        ensures memory { ChangedOnly (cells_of self.old.counts.items class) none (nat_eq class) memory.old memory.new }
        ensures bay_memory { ChangedOnly (if_bay (O.ClassOrder.classes self.old.order) class bay (cells_of self.old.counts.items class)) none (if_bay (O.ClassOrder.classes self.old.order) class bay (nat_eq class)) memory.old memory.new }
        ensures laws { Lawfully (O.ClassOrder) (V.Value) (R.LocalRule) self.old memory.old (to_commit class bay) (done_reply result) self.new memory.new }
    {
        self.commit_job(memory, class, bay)
    }

    // Frees an open or closed bay: its job, if it still runs, is aborted.
    pub fn give_up<V: Value, R: LocalRule>(
        &mut self,
        memory: &mut Memory<'_, V, R>,
        class: u8,
        bay: u8,
    ) -> Result<(), JobFault>
        ensures reply { done_reply result ≡ (defined (O.ClassOrder) (V.Value) (R.LocalRule) self.old memory.old (to_give_up class bay)).reply }
        ensures state { LeadsTo (O.ClassOrder) (V.Value) (R.LocalRule) self.old memory.old (to_give_up class bay) self.new memory.new }
        ensures memory { ChangedOnly none none (nat_eq class) memory.old memory.new }
        ensures bay_memory { ChangedOnly none none (if_bay (O.ClassOrder.classes self.old.order) class bay (nat_eq class)) memory.old memory.new }
        ensures laws { Lawfully (O.ClassOrder) (V.Value) (R.LocalRule) self.old memory.old (to_give_up class bay) (done_reply result) self.new memory.new }
    {
        self.give_up_job(memory, class, bay)
    }

    // Ends a version period at the grade whose turn it is: declares its next stable version, and closes the jobs that would read too old a version.
    pub fn tick<V: Value, R: LocalRule>(
        &mut self,
        memory: &mut Memory<'_, V, R>,
    ) -> Result<Declaration, JobFault>
        ensures reply { tick_reply result ≡ (defined (O.ClassOrder) (V.Value) (R.LocalRule) self.old memory.old to_tick).reply }
        ensures state { LeadsTo (O.ClassOrder) (V.Value) (R.LocalRule) self.old memory.old to_tick self.new memory.new }
        ensures memory { ChangedOnly none none (below (O.ClassOrder.classes self.old.order)) memory.old memory.new }
        ensures laws { Lawfully (O.ClassOrder) (V.Value) (R.LocalRule) self.old memory.old to_tick (tick_reply result) self.new memory.new }
    {
        self.tick_clock(memory)
    }
}
