// A word: a number of 32 bits, in four bytes with the high byte first; it starts at 0.
ghost use Rattle.cells.specs.Encodings.{number_bytes, number_from};
ghost use Rattle.std.proofs.Common.{rules};

use crate::value::{Value, WrongWidth};

impl Value for u32 {
    const WIDTH: usize = 4;

    ghost WIDTH = { 4 };

    ghost starting = { 0 };

    ghost encoding = { number_bytes };

    ghost decoding = { number_from };

    ghost narrow = { Prim.search rules };

    ghost exact = { Prim.search rules };

    ghost decodes = { Prim.search rules };

    ghost encodes = { Prim.search rules };

    fn start() -> u32 {
        0
    }

    fn read(bytes: &[u8]) -> Option<u32> {
        match bytes {
            [a, b, c, d] => Some(u32::from_be_bytes([*a, *b, *c, *d])),
            _ => None,
        }
    }

    fn write(self, out: &mut [u8]) -> Result<(), WrongWidth> {
        if out.len() != Self::WIDTH {
            return Err(WrongWidth);
        }
        out.copy_from_slice(&self.to_be_bytes());
        Ok(())
    }
}
