// The floor of a class: the down number of its last commit that had one, below which no later commit may go.
ghost use Rattle.std.specs.Prelude.{◌≡◌};
ghost use Rattle.laws.specs.Actions.{below_floor};
ghost use Rattle.jobs.specs.Parts.{class_in, with_class_in};
ghost use Rattle.jobs.specs.Committing.{committed_in};

use crate::bay_id::BayId;
use crate::register::Register;
use register_parts::bay::Bay;

impl<O> Register<O> {
    pub(crate) fn has_overtaken(&self, id: BayId, down: Option<u32>) -> bool
        ensures reply { result ≡ below_floor (class_in self.now id.class).floor down }
    {
        self.classes[usize::from(id.class)].has_overtaken(down)
    }

    // A job with this down number has committed: its bay is free, and the floor is that number, if there is one.
    pub(crate) fn commit_bay(&mut self, id: BayId, down: Option<u32>)
        ensures state { self.new ≡ with_class_in self.old id.class (committed_in (class_in self.old id.class) id.bay down) }
    {
        let state = &mut self.classes[usize::from(id.class)];
        state.bays[usize::from(id.bay)] = Bay::Free;
        if let Some(number) = down {
            state.floor = number;
        }
    }
}
