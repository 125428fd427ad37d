// Values in words.
use cells::slip::Slip;
use cells::value::Value;
use lines::kinds::ValueKind;
use std::fmt;

// Bytes as a value of the kind that was chosen; bytes that are no value by their number.
#[derive(Clone, Copy)]
pub struct ValueTold<'a> {
    kind: Option<ValueKind>,
    bytes: &'a [u8],
}

impl<'a> ValueTold<'a> {
    pub fn new(kind: Option<ValueKind>, bytes: &'a [u8]) -> ValueTold<'a> {
        ValueTold { kind, bytes }
    }

    // The value, where this kind was chosen.
    fn read_as<V: Value>(&self, kind: ValueKind) -> Option<V> {
        if self.kind != Some(kind) {
            return None;
        }
        V::read(self.bytes)
    }
}

impl fmt::Display for ValueTold<'_> {
    fn fmt<W: fmt::Write>(&self, f: &mut fmt::Formatter<W>) -> fmt::Result {
        if let Some(word) = self.read_as::<u32>(ValueKind::Words) {
            write!(f, "{word}")
        } else if let Some(slip) = self.read_as::<Slip>(ValueKind::Slips) {
            let Slip {
                serial,
                fault,
                state,
            } = slip;
            write!(f, "probe {serial}, fault {fault}, {state}")
        } else {
            write!(f, "{} bytes", self.bytes.len())
        }
    }
}
