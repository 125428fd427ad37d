// The floor of a class: the down number of its last commit that had one, below which no later commit may go.
ghost use Rattle.std.specs.Prelude.{◌≡◌};
ghost use Rattle.laws.specs.Actions.{below_floor};

use crate::class_state::ClassState;

impl ClassState {
    // Whether a commit of the class has overtaken a job with this down number.
    pub fn has_overtaken(&self, down: Option<u32>) -> bool
        ensures reply { result ≡ below_floor self.now.floor down }
    {
        down.is_some_and(|number| number < self.floor)
    }
}
