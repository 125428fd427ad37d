// How a drawn order is built up, class by class.
ghost use Rattle.std.specs.Prelude.{◌≡◌, ℕ, ◌&&◌, ◌||◌, ◌==◌, slice_index};
ghost use Rattle.std.specs.Result.{result_map_both};
ghost use Rattle.sets.specs.Below.{some_below, greatest_below};
ghost use Rattle.sets.specs.Members.{members};
ghost use Rattle.orders.specs.Links.{set_at, step_up};
ghost use Rattle.orders.specs.DrawnClasses.{sets_reached, grades};
ghost use Rattle.orders.specs.DrawnOrders.{drawing_of, first_set, next_set};

use super::{DrawnClass, DrawnOrder};
use crate::class_order::MAX_CLASSES;
use crate::order_fault::OrderFault;
use sets::small_set::SmallSet;

impl DrawnOrder {
    // An order with class 0 only. Bit d of a set stands for class d, and nothing is below class 0.
    pub fn new(below: u16) -> Result<DrawnOrder, OrderFault>
        ensures { result_map_both drawing_of (λ e. e) result ≡ first_set below }
    {
        if below != 0 {
            return Err(OrderFault::NotSmaller);
        }
        let none = SmallSet::from(0u64);
        let mut classes = [DrawnClass {
            below: none,
            reached: none,
            grade: 0,
        }; MAX_CLASSES as usize];
        classes[0].reached = none.with(0);
        Ok(DrawnOrder { count: 1, classes })
    }

    // The newest class, with this set directly below it: it reaches itself and what the classes in the set reach,
    // and its grade is one more than the greatest grade in the set, or 0 if the set is empty.
    fn next_class(&self, below: SmallSet) -> DrawnClass
        ensures below { result.below ≡ below }
        ensures reached { (d : ℕ) → members result.reached d ≡ (self.now.count == d || some_below self.now.count (λ e. members below e && members (set_at (sets_reached self.now.classes) e) d)) }
        ensures grade { result.grade ≡ greatest_below self.now.count (step_up (members below) (λ e. slice_index (grades self.now.classes) e)) }
    {
        let mut reached = SmallSet::empty();
        let mut grade = 0;
        for (e, class) in self.classes[..self.count as usize].iter().enumerate() {
            if below.contains(e as u8) {
                reached = class.reached.union(reached);
                grade = (class.grade + 1).max(grade);
            }
        }
        let reached = reached.with(self.count);
        DrawnClass {
            below,
            reached,
            grade,
        }
    }

    // One more class, with this set directly below it.
    pub fn add(&mut self, below: u16) -> Result<(), OrderFault>
        ensures reply { result ≡ (next_set (drawing_of self.old) below).0 }
        ensures state { drawing_of self.new ≡ (next_set (drawing_of self.old) below).1 }
    {
        let n = self.count;
        if n >= MAX_CLASSES {
            return Err(OrderFault::TooManyClasses);
        }
        let set = SmallSet::from(u64::from(below));
        if !set.all_under(n) {
            return Err(OrderFault::NotSmaller);
        }
        self.classes[n as usize] = self.next_class(set);
        self.count = n + 1;
        Ok(())
    }
}
