// A short session, carried through the contracts of the calls: what they promise is all that its laws are shown from.
ghost use Rattle.std.specs.Prelude.{[], IfOk};
ghost use Rattle.jobs.specs.CallLaws.{StandsAfter};
ghost use Rattle.register_parts.specs.CheckedCounts.{said};
ghost use Rattle.jobs.specs.SetUp.{counts_for};
ghost use Rattle.diamond_register.specs.Session.{RepliesDefined, LeadsThrough, Carries};
ghost use Rattle.diamond_register.specs.SetUp.{SetUpFilled};

use cells::value::Value;
use jobs::class_setup::ClassSetup;
use jobs::declaration::Declaration;
use jobs::job_fault::JobFault;
use jobs::memory::Memory;
use jobs::register::Register;
use jobs::setup_fault::SetUpFault;
use orders::class_order::ClassOrder;
use rules::local_rule::LocalRule;

// The replies to the calls of a session, in their order.
#[derive(Drop)]
pub struct Replies<V> {
    pub begun: Result<(), JobFault>,
    pub written: Result<(), JobFault>,
    pub committed: Result<(), JobFault>,
    pub ticked: Result<Declaration, JobFault>,
    pub opened: Result<(), JobFault>,
    pub read: Result<V, JobFault>,
    pub watched: Result<V, JobFault>,
}

// A register and the memory that it needs, both fresh: they stand after the empty history.
pub fn set_up<O: ClassOrder + Drop, V: Value, R: LocalRule + Drop>(
    order: O,
    records: &[ClassSetup],
    variant: u8,
    memory: &mut Memory<'_, V, R>,
) -> Result<Register<O>, SetUpFault>
    ensures reply { SetUpFilled (O.ClassOrder) (V.Value) (R.LocalRule) order variant (counts_for (O.ClassOrder.classes order) (said records.now)) memory.old result memory.new }
    ensures laws { IfOk result (λ x. StandsAfter (O.ClassOrder) (V.Value) (R.LocalRule) [] x memory.new) }
{
    let register = Register::new(order, records, variant)?;
    register.fill(memory)?;
    Ok(register)
}

// Class 0 publishes a value; class 1 reads it, and then asks for the item of its rival. Classes, bays, items and the kind of job stand
// as the numbers that the definition of the session has.
pub fn session<O: ClassOrder, V: Value, R: LocalRule>(
    register: &mut Register<O>,
    memory: &mut Memory<'_, V, R>,
    value: V,
) -> Replies<V>
    ensures reply { RepliesDefined (O.ClassOrder) (V.Value) (R.LocalRule) value result register.old memory.old }
    ensures state { LeadsThrough (O.ClassOrder) (V.Value) (R.LocalRule) value result register.old memory.old register.new memory.new }
    ensures laws { Carries (O.ClassOrder) (V.Value) (R.LocalRule) value result register.old memory.old register.new memory.new }
{
    let begun = register.begin(memory, 0, 0, 0);
    let written = register.write(memory, 0, 0, 0, Some(value));
    let committed = register.commit(memory, 0, 0);
    let ticked = register.tick(memory);
    let opened = register.begin(memory, 1, 0, 0);
    let read = register.read(memory, 1, 0, 0, 0);
    let watched = register.read(memory, 1, 0, 2, 0);
    Replies {
        begun,
        written,
        committed,
        ticked,
        opened,
        read,
        watched,
    }
}
