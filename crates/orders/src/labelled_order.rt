// An order of labels: each class has a label of its own.
ghost use Rattle.std.specs.Prelude.{take};
ghost use Rattle.orders.specs.Labels.{Labelled, Distinct};

use crate::class_order::MAX_CLASSES;
use crate::label::Label;

pub mod building;
pub mod classes;

// The labels of the classes are the first `count`.
// No `ArrayVec`: it is not `Copy`, which callers rely on.
#[derive(Clone, Copy)]
pub struct LabelledOrder {
    count: u8,
    labels: [Label; MAX_CLASSES as usize],
    ghost labelled: { Labelled count (take count labels) },
    ghost distinct: { Distinct (take count labels) },
}
