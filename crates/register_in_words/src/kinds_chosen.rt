// What the first frame of set-up chose: the kinds of order and of value, by which later frames are told. Until then they are unknown.
use lines::kinds::{OrderKind, ValueKind};
use lines::operation::Operation;

#[derive(Clone, Copy, Default)]
pub struct KindsChosen {
    pub order: Option<OrderKind>,
    pub values: Option<ValueKind>,
}

impl KindsChosen {
    // The kinds after a frame and its reply: an accepted choice gives them, any other frame leaves them.
    pub fn after(self, operation: Option<Operation>, frame: &[u8], reply: &[u8]) -> KindsChosen {
        match (operation, frame, reply) {
            (Some(Operation::Choose), [_, order, values, _], [0]) => KindsChosen {
                order: OrderKind::try_from(*order).ok(),
                values: ValueKind::try_from(*values).ok(),
            },
            _ => self,
        }
    }
}
