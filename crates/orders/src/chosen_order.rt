// An order that is chosen when a register is set up: drawn or labelled.
ghost use Rattle.orders.specs.ChosenOrders.{chosen_classes, chosen_dominates, chosen_grade};
ghost use Rattle.orders.specs.DrawnOrders.{drawing_of};
ghost use Rattle.orders.specs.LabelledOrders.{labels_of};
ghost use Rattle.orders.specs.declared.chosen_order.ChosenOrder.TheVariants.{Drawn, Labelled};
ghost use Rattle.orders.specs.DrawnLaws as drawn;
ghost use Rattle.orders.specs.LabelLaws as labelled;
ghost use Rattle.std.proofs.Common.{rules};

use crate::class_order::ClassOrder;
use crate::drawn_order::DrawnOrder;
use crate::labelled_order::LabelledOrder;

#[derive(Clone, Copy)]
pub enum ChosenOrder {
    Drawn(DrawnOrder),
    Labelled(LabelledOrder),
}

// It answers as the order that was chosen does. One match for all three would be no plainer: it would need a closure for each kind of order, and a value of `dyn` has no place in an order that is `Copy`.
impl ClassOrder for ChosenOrder {
    ghost classes = { chosen_classes };

    ghost dominates = { chosen_dominates };

    ghost grade = { chosen_grade };

    ghost few = { Prim.search rules };

    ghost reflexive = { elim [
      | Drawn s ↦ drawn.reflexive s.count (drawing_of s) s.drawn
      | Labelled s ↦ labelled.reflexive s.count (labels_of s) s.labelled
    ] };

    ghost antisymmetric = { elim [
      | Drawn s ↦ drawn.antisymmetric s.count (drawing_of s) s.drawn
      | Labelled s ↦ labelled.antisymmetric s.count (labels_of s) s.labelled s.distinct
    ] };

    ghost transitive = { elim [
      | Drawn s ↦ drawn.transitive s.count (drawing_of s) s.drawn
      | Labelled s ↦ labelled.transitive s.count (labels_of s) s.labelled
    ] };

    ghost monotone = { elim [
      | Drawn s ↦ drawn.monotone s.count (drawing_of s) s.drawn
      | Labelled s ↦ labelled.monotone s.count (labels_of s) s.labelled s.distinct
    ] };

    ghost bounded = { elim [
      | Drawn s ↦ drawn.bounded s.count (drawing_of s) s.drawn
      | Labelled s ↦ labelled.bounded s.count (labels_of s) s.labelled
    ] };

    fn classes(&self) -> u8 {
        match self {
            ChosenOrder::Drawn(order) => order.classes(),
            ChosenOrder::Labelled(order) => order.classes(),
        }
    }

    fn dominates(&self, c: u8, d: u8) -> bool {
        match self {
            ChosenOrder::Drawn(order) => order.dominates(c, d),
            ChosenOrder::Labelled(order) => order.dominates(c, d),
        }
    }

    fn grade(&self, c: u8) -> u8 {
        match self {
            ChosenOrder::Drawn(order) => order.grade(c),
            ChosenOrder::Labelled(order) => order.grade(c),
        }
    }
}
