// An order that is drawn: each class names the classes directly below it.
ghost use Rattle.orders.specs.Links.{Drawn, Falling, Tables};
ghost use Rattle.orders.specs.DrawnClasses.{sets_below, sets_reached, grades};

use crate::class_order::MAX_CLASSES;
use sets::small_set::SmallSet;

pub mod building;
pub mod classes;

// The classes directly below a class, what it reaches along these links, and its grade. The last two are kept
// beside the first, which says what they are.
#[derive(Clone, Copy)]
struct DrawnClass {
    below: SmallSet,
    reached: SmallSet,
    grade: u8,
}

// The classes are the first `count`; the places past them have no links and grade 0.
// No `ArrayVec`: it is not `Copy`, which callers rely on.
#[derive(Clone, Copy)]
pub struct DrawnOrder {
    count: u8,
    classes: [DrawnClass; MAX_CLASSES as usize],
    ghost drawn: { Drawn count (sets_below count classes) },
    ghost falling: { Falling (sets_below count classes) },
    ghost tables: { Tables (sets_below count classes) (sets_reached classes) (grades classes) },
}
