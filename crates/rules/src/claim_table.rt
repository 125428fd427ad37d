// The claims of a class's eight bays: what the rules of this crate share.
ghost use Rattle.std.specs.Prelude.{◌≡◌, ℕ, ◌<◌, map};
ghost use Rattle.rules.specs.Claims.{no_claims};
ghost use Rattle.rules.specs.Calls.{claim_answered, settling, forgetting};
ghost use Rattle.rules.specs.Policies.{in_the_way, lock, NamesTheLowest};
ghost use Rattle.rules.specs.Tables.{claims_of, overwritten};

use crate::access::Access;
use crate::bay_claims::BayClaims;
use crate::local_rule::{BAYS, ITEMS};
use crate::rule_fault::RuleFault;
use sets::small_set::SmallSet;

#[derive(Clone, Copy)]
pub struct ClaimTable {
    bays: [BayClaims; BAYS as usize],
}

impl ClaimTable {
    pub fn empty() -> ClaimTable
        ensures { (v : ℕ) → claims_of v result.bays ≡ no_claims v }
    {
        ClaimTable {
            bays: [BayClaims::none(); BAYS as usize],
        }
    }

    // How locks answer a claim: the lowest other bay that stands in the way, if any.
    pub fn lowest_in_the_way(&self, access: Access, bay: u8, item: u8) -> Option<u8>
        ensures reply { result ≡ lock access (claims_of 0 self.now.bays) bay item }
        ensures laws { NamesTheLowest access (claims_of 0 self.now.bays) bay item result }
    {
        (0..BAYS).find(|&other| self.stands_in_the_way(access, bay, item, other))
    }

    fn stands_in_the_way(&self, access: Access, bay: u8, item: u8, other: u8) -> bool
        requires { other < 8 }
        ensures { result ≡ in_the_way access (claims_of 0 self.now.bays) bay item other }
    {
        bay != other && self.bays[other as usize].bars(access, item)
    }

    // A claim in whose way stands this bay, if any. If none does, the item is added to the bay's claims.
    pub fn claim(
        &mut self,
        access: Access,
        bay: u8,
        item: u8,
        rival: Option<u8>,
    ) -> Result<(), RuleFault>
        ensures reply { result ≡ (claim_answered rival access (claims_of 0 self.old.bays) bay item).reply }
        ensures state { (v : ℕ) → claims_of v self.new.bays ≡ (claim_answered rival access (claims_of v self.old.bays) bay item).claims }
    {
        if bay >= BAYS {
            return Err(RuleFault::NoSuchBay);
        }
        if item >= ITEMS {
            return Err(RuleFault::NoSuchItem);
        }
        match rival {
            Some(other) => Err(RuleFault::ClaimedBy(other)),
            None => {
                let b = bay as usize;
                self.bays[b] = self.bays[b].with(access, item);
                Ok(())
            }
        }
    }

    // Refused for a stale bay; otherwise the other readers of what the bay writes become stale, and its claims are gone.
    pub fn settle(&mut self, bay: u8) -> Result<(), RuleFault>
        ensures reply { result ≡ (settling (claims_of 0 self.old.bays) bay).reply }
        ensures state { (v : ℕ) → claims_of v self.new.bays ≡ (settling (claims_of v self.old.bays) bay).claims }
    {
        if bay >= BAYS {
            return Err(RuleFault::NoSuchBay);
        }
        let b = bay as usize;
        let own = self.bays[b];
        if own.stale {
            return Err(RuleFault::Stale);
        }
        mark_readers(&mut self.bays, own.writes);
        self.bays[b] = BayClaims::none();
        Ok(())
    }

    // The bay claims nothing any more and is not stale.
    pub fn forget(&mut self, bay: u8) -> Result<(), RuleFault>
        ensures reply { result ≡ (forgetting (claims_of 0 self.old.bays) bay).reply }
        ensures state { (v : ℕ) → claims_of v self.new.bays ≡ (forgetting (claims_of v self.old.bays) bay).claims }
    {
        if bay >= BAYS {
            return Err(RuleFault::NoSuchBay);
        }
        self.bays[bay as usize] = BayClaims::none();
        Ok(())
    }
}

// Every bay that read an item in `written` becomes stale.
fn mark_readers(bays: &mut [BayClaims; BAYS as usize], written: SmallSet)
    ensures { bays.new ≡ map (overwritten written) bays.old }
{
    *bays = bays.map(|bay| bay.overwritten(written));
}
