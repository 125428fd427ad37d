// The clock: how many ticks were accepted, and the declared number of each grade, the last stable version of its classes.
ghost use Rattle.std.specs.Prelude.{◌≡◌, ℕ, ◌≤◌, slice_index};
ghost use Rattle.laws.specs.Clock.{declared, last_tick};

#[derive(Drop)]
pub struct Clock {
    // The greatest grade.
    pub top: u8,
    pub ticks: u32,
    // The declared number of each grade from 0 up: how many ticks were at that grade.
    // No length is asked: a grade past `top` has declared 0.
    pub numbers: [u32; 24],
    ghost low: { top ≤ 23 },
    ghost within: { ticks ≤ last_tick },
    ghost counted: { (g : ℕ) → slice_index numbers g ≡ declared top g ticks },
}
