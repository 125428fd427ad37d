// What one bay claims: the items that it reads, the items that it writes, and whether it is stale.
ghost use Rattle.std.specs.Prelude.{◌≡◌};
ghost use Rattle.sets.specs.Members.{members};
ghost use Rattle.rules.specs.Policies.{bars as shuts_out};
ghost use Rattle.rules.specs.Tables.{one_bay, nothing_claimed, one_claim_more, overwritten as after_overwrite};

use crate::access::Access;
use sets::small_set::SmallSet;

#[derive(Clone, Copy)]
pub struct BayClaims {
    pub reads: SmallSet,
    pub writes: SmallSet,
    pub stale: bool,
}

impl BayClaims {
    pub fn none() -> BayClaims
        ensures { one_bay result ≡ nothing_claimed }
    {
        BayClaims {
            reads: SmallSet::empty(),
            writes: SmallSet::empty(),
            stale: false,
        }
    }

    // Whether these claims shut others out of an item.
    pub fn bars(self, access: Access, item: u8) -> bool
        ensures { result ≡ shuts_out access (members self.reads item) (members self.writes item) }
    {
        match access {
            Access::Read => self.writes.contains(item),
            Access::Write => self.reads.contains(item) || self.writes.contains(item),
        }
    }

    pub fn with(self, access: Access, item: u8) -> BayClaims
        ensures { one_bay result ≡ one_claim_more access item (one_bay self) }
    {
        match access {
            Access::Read => BayClaims {
                reads: self.reads.with(item),
                ..self
            },
            Access::Write => BayClaims {
                writes: self.writes.with(item),
                ..self
            },
        }
    }

    // The bay once the items in `written` are overwritten: stale if it read one of them.
    pub fn overwritten(self, written: SmallSet) -> BayClaims
        ensures { result ≡ after_overwrite written self }
    {
        BayClaims {
            stale: self.stale || written.overlaps(self.reads),
            ..self
        }
    }
}
