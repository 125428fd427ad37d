// What a drawn order answers: what the links reach, and the longest path down.
ghost use Rattle.std.specs.Prelude.{◌≡◌, ◌<◌, Decides};
ghost use Rattle.orders.specs.Links.{link, dominates_as_drawn, grade_as_drawn};
ghost use Rattle.orders.specs.Paths.{Reachable, Longest};
ghost use Rattle.orders.specs.DrawnOrders.{drawing_of};
ghost use Rattle.orders.specs.DrawnLaws;
ghost use Rattle.std.proofs.Common.{rules};

use super::DrawnOrder;
use crate::class_order::ClassOrder;

impl ClassOrder for DrawnOrder {
    ghost classes = { λ s. s.count };

    ghost dominates = { λ s. dominates_as_drawn (drawing_of s) };

    ghost grade = { λ s. grade_as_drawn (drawing_of s) };

    ghost few = { Prim.search rules };

    ghost reflexive = { λ s. DrawnLaws.reflexive s.count (drawing_of s) s.drawn };

    ghost antisymmetric = { λ s. DrawnLaws.antisymmetric s.count (drawing_of s) s.drawn };

    ghost transitive = { λ s. DrawnLaws.transitive s.count (drawing_of s) s.drawn };

    ghost monotone = { λ s. DrawnLaws.monotone s.count (drawing_of s) s.drawn };

    ghost bounded = { λ s. DrawnLaws.bounded s.count (drawing_of s) s.drawn };

    fn classes(&self) -> u8 {
        self.count
    }

    fn dominates(&self, c: u8, d: u8) -> bool
        ensures reply { result ≡ dominates_as_drawn (drawing_of self.now) c d }
        ensures laws { Decides result ((c < self.now.count) × Reachable (link (drawing_of self.now)) c d) }
    {
        self.classes
            .get(c as usize)
            .is_some_and(|class| class.reached.contains(d))
    }

    fn grade(&self, c: u8) -> u8
        ensures reply { result ≡ grade_as_drawn (drawing_of self.now) c }
        ensures laws { c < self.now.count → Longest (link (drawing_of self.now)) c result }
    {
        self.classes.get(c as usize).map_or(0, |class| class.grade)
    }
}
