// How many items each class has: at most 64 in one class, 256 in all.
// It stays apart from the register's array of class states: set-up fixes it once, under an invariant over all classes together.
ghost use Rattle.std.specs.Prelude.{ℕ, ◌≤◌, sum, slice_index};

#[derive(Clone, Copy)]
pub struct ItemCounts {
    pub items: [u8; 16],
    ghost few: { (c : ℕ) → slice_index items c ≤ 64 },
    ghost few_in_all: { sum items ≤ 256 },
}
