// The greatest grade present in an order.
ghost use Rattle.std.specs.Prelude.{◌≡◌, ◌≤◌};
ghost use Rattle.sets.specs.Below.{greatest_below};
ghost use Rattle.orders.specs.Grades.{Greatest};

use crate::class_order::ClassOrder;

pub fn top_grade<O: ClassOrder>(order: &O) -> u8
    ensures reply { result ≡ greatest_below (O.ClassOrder.classes order.now) (O.ClassOrder.grade order.now) }
    ensures laws { (Greatest (O.ClassOrder.classes order.now) (O.ClassOrder.grade order.now) result) × (result ≤ 23) }
{
    (0..order.classes())
        .map(|c| order.grade(c))
        .max()
        .unwrap_or(0)
}
