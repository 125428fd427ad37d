// Frames of set-up: each leads to the next stage, or is refused and changes nothing.
// A stage has room for a register. So each operation changes it in a function of its own, which is not inlined: whoever answers
// a line would otherwise make that room for every line.
ghost use Rattle.std.specs.Prelude.{◌≡◌};
ghost use Rattle.lines.specs.Answers.{SetUpAnswered, PlanAnswered, StageAnswered};
ghost use Rattle.lines.specs.Phases.{opening as awaiting_choice, planning, in_opening, class_answer, start_answer, rule_answer};
ghost use Rattle.lines.specs.Plans.{draft_of};
ghost use Rattle.lines.specs.Supplies.{rooms_of};
ghost use Rattle.lines.specs.declared.operation.Operation.TheVariants.{Choose, AddClass, Start};
ghost use Rattle.lines.specs.declared.supplied.Supplied.{Supplied as supplied_memory};

use crate::kinds::ValueKind;
use crate::line_fault::LineFault;
use crate::plan::Plan;
use crate::stage::Stage;
use crate::supplied::Supplied;

impl Stage {
    // At first only the choice of kinds is awaited.
    #[inline(never)]
    pub(crate) fn choose(&mut self, frame: &[u8]) -> Result<(), LineFault>
        ensures answer { (m : supplied_memory) → StageAnswered Choose frame.now self.old m result self.new m }
    {
        let Stage::Opening = self else {
            return Err(LineFault::OutOfOrder);
        };
        let plan = first_plan(frame)?;
        *self = Stage::Planning(plan);
        Ok(())
    }

    // Then the classes are awaited.
    #[inline(never)]
    pub(crate) fn add_class(&mut self, frame: &[u8]) -> Result<(), LineFault>
        ensures answer { (m : supplied_memory) → StageAnswered AddClass frame.now self.old m result self.new m }
    {
        let Stage::Planning(plan) = self else {
            return Err(LineFault::OutOfOrder);
        };
        *plan = plan.add_class(frame)?;
        Ok(())
    }

    // Once all classes are there, the rule is chosen.
    #[inline(never)]
    pub(crate) fn start(
        &mut self,
        supplied: &mut Supplied<'_>,
        frame: &[u8],
    ) -> Result<(), LineFault>
        ensures answer { StageAnswered Start frame.now self.old supplied.old result self.new supplied.new }
    {
        let Stage::Planning(plan) = self else {
            return Err(LineFault::OutOfOrder);
        };
        *self = plan.start(supplied, frame)?;
        Ok(())
    }
}

// The plan that a choice of kinds begins.
fn first_plan(frame: &[u8]) -> Result<Plan, LineFault>
    ensures answer { (m : supplied_memory) → PlanAnswered awaiting_choice m (in_opening Choose frame.now) result }
{
    let [_, order, values, classes] = frame else {
        return Err(LineFault::WrongLength);
    };
    Plan::choose(*order, *values, *classes)
}

impl Plan {
    // The plan with the class that a frame adds.
    fn add_class(self, frame: &[u8]) -> Result<Plan, LineFault>
        ensures answer { (m : supplied_memory) → PlanAnswered (planning (draft_of self)) m (class_answer (draft_of self) frame.now) result }
    {
        if self.is_complete() {
            return Err(LineFault::OutOfOrder);
        }
        let [_, class, high, low, items] = frame else {
            return Err(LineFault::WrongLength);
        };
        self.with_class(*class, [*high, *low], *items)
    }

    // Chooses the rule.
    fn start(self, supplied: &mut Supplied<'_>, frame: &[u8]) -> Result<Stage, LineFault>
        ensures answer { SetUpAnswered (planning (draft_of self)) supplied.old (rule_answer (rooms_of supplied.old) (draft_of self) frame.now) result supplied.new }
    {
        if !self.is_complete() {
            return Err(LineFault::OutOfOrder);
        }
        let [_, variant] = frame else {
            return Err(LineFault::WrongLength);
        };
        self.begin_serving(supplied, *variant)
    }

    // Opens the register over the memory for its kind of value; it then serves jobs.
    fn begin_serving(self, supplied: &mut Supplied<'_>, variant: u8) -> Result<Stage, LineFault>
        requires { self.count ≡ self.wanted }
        ensures answer { SetUpAnswered (planning (draft_of self)) supplied.old (start_answer (rooms_of supplied.old) (draft_of self) variant) result supplied.new }
    {
        // A match: the two memories have two types, and a closure serves one.
        let register = match self.values {
            ValueKind::Words => self.open(variant, &mut supplied.words)?,
            ValueKind::Slips => self.open(variant, &mut supplied.slips)?,
        };
        Ok(Stage::Serving {
            values: self.values,
            register,
        })
    }
}
