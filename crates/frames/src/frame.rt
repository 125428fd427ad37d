// A frame: the bytes that a well-formed line stands for, 1 to 10 of them.
ghost use Rattle.std.specs.Prelude.{◌≡◌};
ghost use Rattle.frames.specs.FrameSize.{FitsFrame};

use std::marker::Model;

pub const MOST_BYTES: usize = 10;

// The bytes are the first `len` of the array, and those after them are 0. No `ArrayVec`: it is not `Copy`, as a frame is.
#[derive(Clone, Copy)]
pub struct Frame {
    pub(crate) bytes: [u8; MOST_BYTES],
    pub(crate) len: usize,
}

// Contracts see a frame as its bytes.
impl Model for Frame {
    ghost use Rattle.std.specs.Prelude.{ℕ, List};

    ghost Value = { List ℕ };

    ghost use Rattle.frames.specs.Frames.{IsFrame, frame_bytes, frame_of, frame_of-frame_bytes};

    ghost view = { frame_bytes };

    ghost invariant = { IsFrame };

    ghost inverse = { frame_of };

    ghost inverse_ok = { frame_of-frame_bytes };
}

impl Frame {
    pub fn bytes(&self) -> &[u8]
        ensures reply { result.now ≡ self.now }
        ensures laws { FitsFrame result.now }
    {
        &self.bytes[..self.len]
    }
}
