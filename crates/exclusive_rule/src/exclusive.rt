// The rule of exclusive holds: no to any claim on an item that another bay holds. No bay ever becomes stale.
ghost use Rattle.std.specs.Prelude.{◌≡◌, map};
ghost use Rattle.rules.specs.declared.access.Access.TheVariants.{Write};
ghost use Rattle.rules.specs.Calls.{forgetting};
ghost use Rattle.rules.specs.Policies.{lock};
ghost use Rattle.exclusive_rule.specs.Holds.{claims_of, released_by};
ghost use Rattle.rules.specs.Refusals.{lock_names_a_rival};

use crate::hold::Hold;
use rules::access::Access;
use rules::local_rule::{BAYS, ITEMS, LocalRule};
use rules::rule_fault::RuleFault;

#[derive(Clone, Copy)]
pub struct Exclusive {
    holds: [Option<Hold>; ITEMS as usize],
}

impl Exclusive {
    // What settling and forgetting share: since an item has one holder, nobody has read what the bay writes.
    fn release(&mut self, bay: u8) -> Result<(), RuleFault>
        ensures reply { result ≡ (forgetting (claims_of self.old.holds) bay).reply }
        ensures state { claims_of self.new.holds ≡ (forgetting (claims_of self.old.holds) bay).claims }
    {
        if bay >= BAYS {
            return Err(RuleFault::NoSuchBay);
        }
        release_all(&mut self.holds, bay);
        Ok(())
    }
}

// What is left of a hold, if there is one, once the bay holds nothing any more.
fn without(held: Option<Hold>, bay: u8) -> Option<Hold>
    ensures { result ≡ released_by bay held }
{
    held.and_then(|hold| hold.released(bay))
}

// The bay holds nothing any more.
fn release_all(holds: &mut [Option<Hold>; ITEMS as usize], bay: u8)
    ensures { holds.new ≡ map (released_by bay) holds.old }
{
    // In place: an array's `map` makes the whole table anew, and took more than three times as long.
    for held in holds.iter_mut() {
        *held = without(*held, bay);
    }
}

impl LocalRule for Exclusive {
    ghost meaning = { λ s. claims_of s.holds };

    ghost variants = { 1 };

    // Readers are shut out as writers are.
    ghost policy = { λ access. lock Write };

    ghost rivals = { λ access. lock_names_a_rival Write };

    fn fresh(variant: u8) -> Option<Exclusive> {
        (variant == 0).then_some(Exclusive {
            holds: [None; ITEMS as usize],
        })
    }

    fn claim(&mut self, access: Access, bay: u8, item: u8) -> Result<(), RuleFault> {
        if bay >= BAYS {
            return Err(RuleFault::NoSuchBay);
        }
        if item >= ITEMS {
            return Err(RuleFault::NoSuchItem);
        }
        let i = item as usize;
        let hold = match self.holds[i] {
            Some(hold) => {
                if let Some(other) = hold.other_holder(bay) {
                    return Err(RuleFault::ClaimedBy(other));
                }
                hold.with(access, bay)
            }
            None => Hold::new(access, bay),
        };
        self.holds[i] = Some(hold);
        Ok(())
    }

    fn settle(&mut self, bay: u8) -> Result<(), RuleFault> {
        self.release(bay)
    }

    fn forget(&mut self, bay: u8) -> Result<(), RuleFault> {
        self.release(bay)
    }
}
