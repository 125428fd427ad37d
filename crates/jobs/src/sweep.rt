// The sweep of a tick: in every class the late jobs are closed, and the class's local rule forgets their bays.
ghost use Rattle.std.specs.Prelude.{◌≡◌, ◌≤◌, length};
ghost use Rattle.jobs.specs.Sweeps.{claims_left, SweptBelow};

use crate::memory::Memory;
use crate::register::Register;
use cells::value::Value;
use orders::class_order::ClassOrder;
use register_parts::bay::Bay;
use register_parts::declaration::Declaration;
use register_parts::late::close_late;
use rules::local_rule::LocalRule;

// Makes the rule of a class of a grade forget the bays of late jobs.
fn forget_late<R: LocalRule>(rule: &mut R, bays: &[Bay; 8], grade: u8, tick: Declaration)
    ensures { R.LocalRule.meaning rule.new ≡ claims_left grade tick bays.now 8 (R.LocalRule.meaning rule.old) }
{
    for (bay, held) in bays.iter().enumerate() {
        if held.is_late(grade, tick) {
            let _ = rule.forget(bay as u8);
        }
    }
}

impl<O: ClassOrder> Register<O> {
    // Closes the late jobs of every class.
    pub(crate) fn sweep<V: Value, R: LocalRule>(
        &mut self,
        memory: &mut Memory<'_, V, R>,
        tick: Declaration,
    )
        requires { O.ClassOrder.classes self.old.order ≤ length memory.old.rules.now }
        ensures { SweptBelow (O.ClassOrder) (V.Value) (R.LocalRule) (O.ClassOrder.classes self.old.order) tick self.old memory.old self.new memory.new }
    {
        // By number: the grade, the state and the rule of a class are all found by it, and only some of the 16 states are used.
        for class in 0..self.order.classes() {
            let grade = self.order.grade(class);
            let state = &mut self.classes[class as usize];
            forget_late(&mut memory.rules[class as usize], &state.bays, grade, tick);
            close_late(&mut state.bays, grade, tick);
        }
    }
}
