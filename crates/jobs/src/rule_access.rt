// A claim on the local rule of one class, in lent memory.
ghost use Rattle.std.specs.Prelude.{◌≡◌, ◌<◌, length};
ghost use Rattle.rules.specs.Calls.{claiming};
ghost use Rattle.jobs.specs.Represents.{claims_in};
ghost use Rattle.jobs.specs.Lent.{RuleBecomes};

use crate::bay_id::BayId;
use crate::memory::Memory;
use rules::access::Access;
use rules::local_rule::LocalRule;
use rules::rule_fault::RuleFault;

impl<V, R: LocalRule> Memory<'_, V, R> {
    pub(crate) fn claim(&mut self, id: BayId, access: Access, item: u8) -> Result<(), RuleFault>
        requires { id.class < length self.old.rules.now }
        ensures reply { result ≡ (claiming access (R.LocalRule.policy access) (claims_in (R.LocalRule) self.old.rules.now id.class) id.bay item).reply }
        ensures memory { RuleBecomes (R.LocalRule) id.class (claiming access (R.LocalRule.policy access) (claims_in (R.LocalRule) self.old.rules.now id.class) id.bay item).claims self.old self.new }
    {
        self.rules[id.class as usize].claim(access, id.bay, item)
    }
}
