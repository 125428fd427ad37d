// How far a session call has come.

// The longest reply, in digits and with its byte 10, has so many bytes.
pub const REPLY_ROOM: usize = 15;

#[derive(Clone, Copy, PartialEq, Eq, Debug)]
pub struct Served {
    // Bytes of input taken.
    pub taken: usize,
    // Bytes of output written.
    pub written: usize,
}
