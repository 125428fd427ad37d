// How an order of labels is built up, class by class.
ghost use Rattle.std.specs.Prelude.{◌≡◌};
ghost use Rattle.std.specs.Result.{result_map_both};
ghost use Rattle.orders.specs.LabelledOrders.{labels_of, used, first_label, next_label};

use super::LabelledOrder;
use crate::class_order::MAX_CLASSES;
use crate::label::{Label, MAX_RANK};
use crate::order_fault::OrderFault;

impl LabelledOrder {
    // An order with one class, which has this label.
    // Two numbers, as a frame has them: a caller would only write a `Label` around them.
    pub fn new(rank: u8, compartments: u8) -> Result<LabelledOrder, OrderFault>
        ensures { result_map_both labels_of (λ e. e) result ≡ first_label rank compartments }
    {
        if rank > MAX_RANK {
            return Err(OrderFault::RankTooHigh);
        }
        let label = Label { rank, compartments };
        Ok(LabelledOrder {
            count: 1,
            labels: [label; MAX_CLASSES as usize],
        })
    }

    // Whether some class has this label.
    fn has_label(&self, label: Label) -> bool
        ensures { result ≡ used (labels_of self.now) label }
    {
        self.labels[..self.count as usize]
            .iter()
            .any(|other| *other == label)
    }

    // One more class, with this label.
    pub fn add(&mut self, rank: u8, compartments: u8) -> Result<(), OrderFault>
        ensures reply { result ≡ (next_label (labels_of self.old) rank compartments).0 }
        ensures state { labels_of self.new ≡ (next_label (labels_of self.old) rank compartments).1 }
    {
        let n = self.count;
        if n >= MAX_CLASSES {
            return Err(OrderFault::TooManyClasses);
        }
        if rank > MAX_RANK {
            return Err(OrderFault::RankTooHigh);
        }
        let label = Label { rank, compartments };
        if self.has_label(label) {
            return Err(OrderFault::LabelUsed);
        }
        self.labels[n as usize] = label;
        self.count = n + 1;
        Ok(())
    }
}
