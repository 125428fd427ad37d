// The class order of a maker, two distributors that are rivals, and an auditor above both.
ghost use Rattle.diamond_register.specs.Diamond.{diamond_above, diamond_grade};
ghost use Rattle.std.proofs.Common.{rules};

use orders::class_order::ClassOrder;

pub const MAKER: u8 = 0;

pub const LEFT: u8 = 1;

pub const RIGHT: u8 = 2;

pub const AUDITOR: u8 = 3;

const CLASSES: u8 = 4;

// There is one such order, so it holds nothing.
#[derive(Drop)]
pub struct DiamondOrder;

impl ClassOrder for DiamondOrder {
    ghost classes = { λ _. 4 };

    ghost dominates = { λ _. diamond_above };

    ghost grade = { λ _. diamond_grade };

    ghost few = { Prim.search rules };

    ghost reflexive = { Prim.search rules };

    ghost antisymmetric = { Prim.search rules };

    ghost transitive = { Prim.search rules };

    ghost monotone = { Prim.search rules };

    ghost bounded = { Prim.search rules };

    fn classes(&self) -> u8 {
        CLASSES
    }

    fn dominates(&self, c: u8, d: u8) -> bool {
        c == d || d == MAKER || c == AUDITOR
    }

    fn grade(&self, c: u8) -> u8 {
        match c {
            MAKER => 0,
            AUDITOR => 2,
            _ => 1,
        }
    }
}
