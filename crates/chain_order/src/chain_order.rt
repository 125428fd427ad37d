// A chain of classes. Its grades are the class numbers.
ghost use Rattle.std.specs.Prelude.{◌≡◌, ◌≤◌, ◌&&◌, if◌then◌else◌, Some, None, nat_le};
ghost use Rattle.std.specs.Option.{option_map};
ghost use Rattle.std.proofs.Common.{rules};

use orders::class_order::{ClassOrder, MAX_CLASSES};

#[derive(Drop)]
pub struct ChainOrder {
    count: u8,
    ghost few: { (1 ≤ count) × (count ≤ 16) },
}

impl ChainOrder {
    // A chain of 1 to 16 classes.
    pub fn new(count: u8) -> Option<ChainOrder>
        ensures { option_map (λ s. s.count) result ≡ (if nat_le 1 count && nat_le count 16 then Some count else None) }
    {
        if count < 1 || count > MAX_CLASSES {
            return None;
        }
        Some(ChainOrder { count })
    }
}

impl ClassOrder for ChainOrder {
    ghost classes = { λ s. s.count };

    ghost dominates = { λ _ c d. nat_le d c };

    ghost grade = { λ _ c. c };

    ghost few = { Prim.search rules };

    ghost reflexive = { Prim.search rules };

    ghost antisymmetric = { Prim.search rules };

    ghost transitive = { Prim.search rules };

    ghost monotone = { Prim.search rules };

    ghost bounded = { Prim.search rules };

    fn classes(&self) -> u8 {
        self.count
    }

    fn dominates(&self, c: u8, d: u8) -> bool {
        d <= c
    }

    fn grade(&self, c: u8) -> u8 {
        c
    }
}
