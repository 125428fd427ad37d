// A slip: what is noted of a device that came in for repair. In bytes: the serial number with the high byte first, the fault code, the state.
ghost use Rattle.std.specs.Prelude.{◌≡◌, ok_or};
ghost use Rattle.cells.specs.Encodings.{slip_bytes, slip_from, blank_slip, state_byte, state_from};
ghost use Rattle.std.proofs.Common.{rules};

use crate::value::{Value, WrongWidth};

#[derive(Clone, Copy, PartialEq, Eq, Debug)]
pub enum SlipState {
    Received,
    Reflashed,
    SentBack,
}

#[derive(Clone, Copy, PartialEq, Eq, Debug)]
pub struct Slip {
    pub serial: u32,
    pub fault: u8,
    pub state: SlipState,
}

// A byte that stands for no state.
#[derive(Clone, Copy, PartialEq, Eq, Debug)]
pub struct NoSuchState(pub u8);

impl From<SlipState> for u8 {
    ghost from_gives = { λ state byte. byte ≡ state_byte state };

    fn from(state: SlipState) -> u8 {
        match state {
            SlipState::Received => 0,
            SlipState::Reflashed => 1,
            SlipState::SentBack => 2,
        }
    }
}

impl TryFrom<u8> for SlipState {
    type Error = NoSuchState;

    ghost try_from_gives = { λ byte state. state ≡ ok_or (state_from byte) (record { 0 = byte }) };

    fn try_from(byte: u8) -> Result<SlipState, NoSuchState> {
        match byte {
            0 => Ok(SlipState::Received),
            1 => Ok(SlipState::Reflashed),
            2 => Ok(SlipState::SentBack),
            _ => Err(NoSuchState(byte)),
        }
    }
}

impl Value for Slip {
    const WIDTH: usize = 6;

    ghost WIDTH = { 6 };

    ghost starting = { blank_slip };

    ghost encoding = { slip_bytes };

    ghost decoding = { slip_from };

    ghost narrow = { Prim.search rules };

    ghost exact = { Prim.search rules };

    ghost decodes = { Prim.search rules };

    ghost encodes = { Prim.search rules };

    fn start() -> Slip {
        Slip {
            serial: 0,
            fault: 0,
            state: SlipState::Received,
        }
    }

    fn read(bytes: &[u8]) -> Option<Slip> {
        match bytes {
            [a, b, c, d, fault, state] => Some(Slip {
                serial: u32::from_be_bytes([*a, *b, *c, *d]),
                fault: *fault,
                state: SlipState::try_from(*state).ok()?,
            }),
            _ => None,
        }
    }

    fn write(self, out: &mut [u8]) -> Result<(), WrongWidth> {
        if out.len() != Self::WIDTH {
            return Err(WrongWidth);
        }
        let [a, b, c, d] = self.serial.to_be_bytes();
        out.copy_from_slice(&[a, b, c, d, self.fault, self.state.into()]);
        Ok(())
    }
}
