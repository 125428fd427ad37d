// Two benches of a workshop take up one slip: the check rule lets both, and the later one fails validation.
use crate::desk::Desk;
use crate::item::Item;
use crate::story::Story;
use cells::value::Value;
use orders::class_order::ClassOrder;
use rules::local_rule::LocalRule;
use std::fmt::Display;
use tickets::job_kind::{Long, Update};

// The workshop is class 0, whose only item is the slip.
const WORKSHOP: u8 = 0;

const SLIP: Item = Item {
    class: WORKSHOP,
    number: 0,
    name: "the slip",
};

// The slip as the benches write it.
#[derive(Clone, Copy)]
pub struct Workshop<V> {
    pub received: V,
    pub reflashed: V,
}

impl<V: Value + Display> Story<V> for Workshop<V> {
    fn play<O: ClassOrder + Drop, R: LocalRule + Drop>(&self, desk: &mut Desk<'_, O, V, R>) {
        desk.tell("Slips under the check rule: two benches of a workshop take up one slip.");
        first_bench(desk, self.received, self.reflashed);
        desk.tick();
        report(desk);
        third_bench(desk, self.received);
    }
}

fn first_bench<O: ClassOrder + Drop, V: Value + Display, R: LocalRule + Drop>(
    desk: &mut Desk<'_, O, V, R>,
    received: V,
    reflashed: V,
) {
    if let Some(bench) = desk.begin::<Update>("the first bench", WORKSHOP, 0) {
        desk.read(&bench, SLIP);
        desk.write(&bench, SLIP, received);
        second_bench(desk, reflashed);
        desk.tell("What the first bench has read is out of date.");
        desk.commit(bench);
    }
}

fn second_bench<O: ClassOrder + Drop, V: Value + Display, R: LocalRule + Drop>(
    desk: &mut Desk<'_, O, V, R>,
    reflashed: V,
) {
    if let Some(bench) = desk.begin::<Update>("the second bench", WORKSHOP, 1) {
        desk.read(&bench, SLIP);
        desk.write(&bench, SLIP, reflashed);
        desk.commit(bench);
    }
}

fn report<O: ClassOrder + Drop, V: Value + Display, R: LocalRule + Drop>(
    desk: &mut Desk<'_, O, V, R>,
) {
    desk.tell("A report reads the slip as it was declared.");
    if let Some(report) = desk.begin::<Long>("the report", WORKSHOP, 2) {
        desk.read(&report, SLIP);
        desk.commit(report);
    }
}

fn third_bench<O: ClassOrder + Drop, V: Value + Display, R: LocalRule + Drop>(
    desk: &mut Desk<'_, O, V, R>,
    received: V,
) {
    desk.tell("A third bench takes the slip up, and leaves it.");
    if let Some(bench) = desk.begin::<Update>("the third bench", WORKSHOP, 3) {
        desk.write(&bench, SLIP, received);
        desk.give_up(bench);
    }
}
