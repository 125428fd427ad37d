// A session before its first line.
ghost use Rattle.std.specs.Prelude.{◌≡◌};
ghost use Rattle.lines.specs.Phases.{opening as awaiting_choice};
ghost use Rattle.lines.specs.Sessions.{phase_of};
ghost use Rattle.lines.specs.declared.supplied.Supplied.{Supplied as supplied_memory};

use crate::session::Session;
use crate::stage::Stage;

impl Session {
    // Nothing is set up yet.
    pub fn new() -> Session
        ensures state { (m : supplied_memory) → phase_of result m ≡ awaiting_choice }
    {
        Session {
            stage: Stage::Opening,
        }
    }
}
