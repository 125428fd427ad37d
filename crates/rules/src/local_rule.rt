// The trait of local rules: what a rule means, how it answers, and the laws that it keeps.
ghost use Rattle.std.specs.Prelude.{◌≡◌, ℕ};
ghost use Rattle.std.specs.Option.{option_map};
ghost use Rattle.rules.specs.declared.access.Access.{Access};
ghost use Rattle.rules.specs.Claims.{Claims, Policy};
ghost use Rattle.rules.specs.Rivals.{NamesARival};
ghost use Rattle.rules.specs.Calls.{fresh_claims, claiming, settling, forgetting};

use crate::access::Access;
use crate::rule_fault::RuleFault;

// Bays, the slots of running transactions, are numbered from 0 to BAYS - 1; the items of a class from 0 to ITEMS - 1.
pub const BAYS: u8 = 8;

pub const ITEMS: u8 = 64;

// Calls with a bay or an item out of range are refused, the bay first, and change nothing.
pub trait LocalRule: Sized {
    // Which items each bay claims, and which bays are stale.
    ghost meaning: { Self → Claims };

    // How many variants set-up can choose from, numbered from 0.
    ghost variants: { ℕ };

    // How a claim is answered: which bay stands in its way, if any.
    ghost policy: { Access → Policy };

    // A rule under which nothing is claimed; none where there is no such variant.
    // A number, since each rule has variants of its own; a rule that has several makes a kind of it.
    fn fresh(variant: u8) -> Option<Self>
        ensures { option_map meaning result ≡ fresh_claims variants variant };

    // A lock request, or an entry for validation: with no bay in the way the item is added to what the bay claims; otherwise nothing changes, and the refusal names the bay in the way.
    // Access, bay and item stay three: a struct of them would be written out at each call and taken apart in each rule.
    fn claim(&mut self, access: Access, bay: u8, item: u8) -> Result<(), RuleFault>
        ensures reply { result ≡ (claiming access (policy access) (meaning self.old) bay item).reply }
        ensures state { meaning self.new ≡ (claiming access (policy access) (meaning self.old) bay item).claims };

    // Validation at commit: refused for a stale bay; otherwise the readers of what the bay writes become stale, and its claims are gone.
    fn settle(&mut self, bay: u8) -> Result<(), RuleFault>
        ensures reply { result ≡ (settling (meaning self.old) bay).reply }
        ensures state { meaning self.new ≡ (settling (meaning self.old) bay).claims };

    // The bay claims nothing any more and is not stale.
    fn forget(&mut self, bay: u8) -> Result<(), RuleFault>
        ensures reply { result ≡ (forgetting (meaning self.old) bay).reply }
        ensures state { meaning self.new ≡ (forgetting (meaning self.old) bay).claims };

    // A refusal names another bay that claims the item.
    ghost rivals: { (access : Access) → NamesARival (policy access) };
}
