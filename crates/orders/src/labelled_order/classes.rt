// What an order of labels answers.
ghost use Rattle.orders.specs.Labels.{dominates_by_label, grade_by_label};
ghost use Rattle.orders.specs.LabelledOrders.{labels_of};
ghost use Rattle.orders.specs.LabelLaws;
ghost use Rattle.std.proofs.Common.{rules};

use super::LabelledOrder;
use crate::class_order::ClassOrder;

impl ClassOrder for LabelledOrder {
    ghost classes = { λ s. s.count };

    ghost dominates = { λ s. dominates_by_label (labels_of s) };

    ghost grade = { λ s. grade_by_label (labels_of s) };

    ghost few = { Prim.search rules };

    ghost reflexive = { λ s. LabelLaws.reflexive s.count (labels_of s) s.labelled };

    ghost antisymmetric = { λ s. LabelLaws.antisymmetric s.count (labels_of s) s.labelled s.distinct };

    ghost transitive = { λ s. LabelLaws.transitive s.count (labels_of s) s.labelled };

    ghost monotone = { λ s. LabelLaws.monotone s.count (labels_of s) s.labelled s.distinct };

    ghost bounded = { λ s. LabelLaws.bounded s.count (labels_of s) s.labelled };

    fn classes(&self) -> u8 {
        self.count
    }

    fn dominates(&self, c: u8, d: u8) -> bool {
        if c >= self.count || d >= self.count {
            return false;
        }
        self.labels[c as usize].dominates(self.labels[d as usize])
    }

    fn grade(&self, c: u8) -> u8 {
        if c < self.count {
            self.labels[c as usize].grade()
        } else {
            0
        }
    }
}
