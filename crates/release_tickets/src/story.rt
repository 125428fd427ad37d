// A story: what the jobs at a desk do, in which order.
use crate::desk::Desk;
use cells::value::Value;
use orders::class_order::ClassOrder;
use rules::local_rule::LocalRule;
use std::fmt::Display;

pub trait Story<V: Value + Display> {
    fn play<O: ClassOrder + Drop, R: LocalRule + Drop>(&self, desk: &mut Desk<'_, O, V, R>);
}
