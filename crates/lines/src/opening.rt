// The end of set-up: a register over a plan is opened on lent memory.
ghost use Rattle.std.specs.Prelude.{◌≡◌};
ghost use Rattle.std.specs.Result.{result_map_both};
ghost use Rattle.jobs.specs.Fill.{fill_reply};
ghost use Rattle.register_parts.specs.CheckedCounts.{said};
ghost use Rattle.lines.specs.Drafts.{drafted};
ghost use Rattle.lines.specs.FreshRegisters.{InRange, set_up_with, OpenedUnlessRefused};
ghost use Rattle.lines.specs.JobLines.{room_of, suffices};
ghost use Rattle.lines.specs.Openings.{fault_in, opening_fault, OpenedIf};
ghost use Rattle.lines.specs.Plans.{draft_of};

use crate::line_fault::LineFault;
use crate::plan::Plan;
use crate::planned_order::PlannedOrder;
use cells::value::Value;
use jobs::class_setup::ClassSetup;
use jobs::memory::Memory;
use jobs::register::Register;
use jobs::setup_fault::SetUpFault;
use orders::chosen_order::ChosenOrder;
use orders::class_order::ClassOrder;
use rules::chosen_rule::ChosenRule;
use rules::local_rule::LocalRule;

// A fresh register on memory that is filled for it. The records are in range, so only the variant and the memory are judged.
fn open_register<O: ClassOrder + Drop, V: Value, R: LocalRule + Drop>(
    order: O,
    records: &[ClassSetup],
    variant: u8,
    memory: &mut Memory<'_, V, R>,
) -> Result<Register<O>, SetUpFault>
    requires { InRange (O.ClassOrder.classes order) (said records.now) }
    ensures reply { result_map_both (λ x. tt) (λ e. e) result ≡ fill_reply R.LocalRule.variants variant (suffices (room_of memory.old) (set_up_with (O.ClassOrder) (V.Value) (R.LocalRule) order (said records.now) variant)) }
    ensures state { OpenedUnlessRefused (O.ClassOrder) (V.Value) (R.LocalRule) (set_up_with (O.ClassOrder) (V.Value) (R.LocalRule) order (said records.now) variant) memory.old result memory.new }
{
    let register = Register::new(order, records, variant)?;
    register.fill(memory)?;
    Ok(register)
}

impl Plan {
    // A fresh register over the classes of the plan, once they are all there, under the local rule that goes by this number.
    pub(crate) fn open<V: Value>(
        self,
        variant: u8,
        memory: &mut Memory<'_, V, ChosenRule>,
    ) -> Result<Register<ChosenOrder>, LineFault>
        requires { self.count ≡ self.wanted }
        ensures reply { fault_in result ≡ opening_fault (room_of memory.old) (drafted (V.Value) (draft_of self) variant) variant }
        ensures state { OpenedIf (V.Value) (drafted (V.Value) (draft_of self) variant) memory.old result memory.new }
    {
        let PlannedOrder::Classes(order) = self.order else {
            unreachable!()
        };
        let records = &self.records[..self.count as usize];
        let register = open_register(order, records, variant, memory)?;
        Ok(register)
    }
}
