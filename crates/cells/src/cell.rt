// A cell keeps one to three versions of an item. Their numbers fall strictly from the newest on; no cell in memory is otherwise.
ghost use Rattle.std.specs.Prelude.{◌≡◌, ⊤, true, ◌∷◌};
ghost use Rattle.cells.specs.Versions.{falling};
ghost use Rattle.cells.specs.Listed.{listed};

use crate::older::Older;
use crate::version::Version;
use std::alloc::AllocError;

#[derive(Copy)]
pub struct Cell<V> {
    pub newest: Version<V>,
    pub older: Older<V>,
    ghost ordered: { falling (newest ∷ listed older) ≡ true },
}

// A copy is the same cell, and never fails. Written out, since a derive was tried and refused: "`Clone` cannot be derived for a struct with a ghost field".
impl<V: Copy> Clone for Cell<V> {
    ghost is_clone = { λ x y. y ≡ x };

    ghost is_infallible = { λ _. ⊤ };

    fn clone(&self) -> Result<Cell<V>, AllocError> {
        Ok(*self)
    }
}
