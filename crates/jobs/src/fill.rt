// Filling lent memory for a fresh register.
ghost use Rattle.std.specs.Prelude.{◌≡◌};
ghost use Rattle.jobs.specs.Represents.{enough};
ghost use Rattle.jobs.specs.Fill.{fill_reply, FilledWhen, StandsFilled};

use crate::fill_memory::{fill_cells, fill_first, fill_rules, has_variant};
use crate::first_cell::first_cell;
use crate::memory::Memory;
use crate::pending_memory::PENDING_PLACES;
use crate::register::Register;
use cells::value::Value;
use orders::class_order::ClassOrder;
use register_parts::setup_fault::SetUpFault;
use rules::local_rule::LocalRule;

impl<O: ClassOrder> Register<O> {
    // Fills the part of the memory that the register needs as a fresh register has it; the rest stays.
    pub fn fill<V: Value, R: LocalRule + Drop>(
        &self,
        memory: &mut Memory<'_, V, R>,
    ) -> Result<(), SetUpFault>
        ensures reply { result ≡ fill_reply R.LocalRule.variants self.now.variant (enough (O.ClassOrder) (V.Value) (R.LocalRule) self.now memory.old) }
        ensures memory { FilledWhen (O.ClassOrder) (V.Value) (R.LocalRule) self.now memory.old memory.new result }
        ensures laws { StandsFilled (O.ClassOrder) (V.Value) (R.LocalRule) self.now memory.new result }
    {
        if !has_variant::<R>(self.variant) {
            return Err(SetUpFault::NoSuchVariant);
        }
        if !self.has_enough(memory) {
            return Err(SetUpFault::TooLittleMemory);
        }
        let classes = self.order.classes();
        fill_cells(memory.cells, first_cell(&self.counts, classes));
        fill_first(
            memory.pending,
            usize::from(classes) * PENDING_PLACES,
            || V::start(),
        );
        fill_rules(memory.rules, usize::from(classes), self.variant);
        Ok(())
    }
}
