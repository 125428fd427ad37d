// A release is withdrawn while two stations read it: no station sees parts of two releases, and the late one is overtaken.
use crate::desk::Desk;
use crate::item::Item;
use crate::story::Story;
use cells::value::Value;
use orders::class_order::ClassOrder;
use rules::local_rule::LocalRule;
use std::fmt::Display;
use tickets::job_kind::Update;

// The maker is class 0, whose items are the firmware number and the table layout; the distributor is class 1, above it.
const MAKER: u8 = 0;

const DISTRIBUTOR: u8 = 1;

const FIRMWARE: Item = Item {
    class: MAKER,
    number: 0,
    name: "firmware",
};

const LAYOUT: Item = Item {
    class: MAKER,
    number: 1,
    name: "layout",
};

// What the maker releases.
#[derive(Clone, Copy)]
pub struct Release<V> {
    pub firmware: V,
    pub layout: V,
}

impl<V: Value + Display> Story<V> for Release<V> {
    fn play<O: ClassOrder + Drop, R: LocalRule + Drop>(&self, desk: &mut Desk<'_, O, V, R>) {
        desk.tell("Words under locks: the maker releases a firmware with its layout.");
        maker(desk, self.firmware, self.layout);
        first_station(desk);
        desk.tick();
    }
}

fn maker<O: ClassOrder + Drop, V: Value + Display, R: LocalRule + Drop>(
    desk: &mut Desk<'_, O, V, R>,
    firmware: V,
    layout: V,
) {
    if let Some(maker) = desk.begin::<Update>("the maker", MAKER, 0) {
        desk.write(&maker, FIRMWARE, firmware);
        desk.write(&maker, LAYOUT, layout);
        desk.commit(maker);
    }
}

// Reads the firmware before the release is declared and the layout after, and is slower than the second station.
fn first_station<O: ClassOrder + Drop, V: Value + Display, R: LocalRule + Drop>(
    desk: &mut Desk<'_, O, V, R>,
) {
    desk.tell("A station reads the firmware before the release is declared, and the layout after.");
    if let Some(station) = desk.begin::<Update>("the first station", DISTRIBUTOR, 0) {
        desk.read(&station, FIRMWARE);
        desk.tick();
        desk.read(&station, LAYOUT);
        second_station(desk);
        desk.tell("So the first station, whose release is older, cannot commit any more.");
        desk.commit(station);
    }
}

fn second_station<O: ClassOrder + Drop, V: Value + Display, R: LocalRule + Drop>(
    desk: &mut Desk<'_, O, V, R>,
) {
    desk.tell("A second station reads the release that is declared now, and commits first.");
    if let Some(station) = desk.begin::<Update>("the second station", DISTRIBUTOR, 1) {
        desk.read(&station, FIRMWARE);
        desk.commit(station);
    }
}
