// Which bay holds an item, and what for. Two flags and no `Access`: a bay may hold an item for both.
ghost use Rattle.std.specs.Prelude.{◌≡◌, Some, None};
ghost use Rattle.exclusive_rule.specs.Holds.{other_holder as held_by_other, held_also, released_by};

use rules::access::Access;
use rules::local_rule::BAYS;

#[derive(Clone, Copy)]
pub struct Hold {
    pub bay: u8,
    pub reads: bool,
    pub writes: bool,
}

impl Hold {
    // The bay holds an item that nobody held.
    pub fn new(access: Access, bay: u8) -> Hold
        ensures { result ≡ held_also access bay None }
    {
        Hold {
            bay,
            reads: access == Access::Read,
            writes: access == Access::Write,
        }
    }

    // The bay that holds the item, where it is another than this one.
    pub fn other_holder(self, bay: u8) -> Option<u8>
        ensures { result ≡ held_by_other (Some self) bay }
    {
        (self.bay < BAYS && self.bay != bay && (self.reads || self.writes)).then_some(self.bay)
    }

    // The bay holds the item, for this too.
    pub fn with(self, access: Access, bay: u8) -> Hold
        ensures { result ≡ held_also access bay (Some self) }
    {
        let own = self.bay == bay;
        match access {
            Access::Read => Hold {
                bay,
                reads: true,
                writes: own && self.writes,
            },
            Access::Write => Hold {
                bay,
                reads: own && self.reads,
                writes: true,
            },
        }
    }

    // What is left of the hold once this bay releases its own.
    pub fn released(self, bay: u8) -> Option<Hold>
        ensures { result ≡ released_by bay (Some self) }
    {
        (self.bay != bay).then_some(self)
    }
}
