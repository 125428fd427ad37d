// A call of the register by number, as a row of the table names it, and the parts that rows make up. A row is data, since the table
// prints its numbers beside the reply; class and bay stand in each case, since `By(0, 0, Begin(UPDATE))` would be no plainer.
#[derive(Clone, Copy)]
pub enum Request {
    // Class, bay, kind of job.
    Begin(u8, u8, u8),
    // Class, bay, other class, item.
    Read(u8, u8, u8, u8),
    // Class, bay, item, and the value, unless the bytes are none.
    Write(u8, u8, u8, Option<u32>),
    // Class, bay.
    Commit(u8, u8),
    GiveUp(u8, u8),
    Tick,
}

// A part of the table: what it shows, under a variant of the rules, by calls of a fresh register.
pub struct Part {
    pub title: &'static str,
    pub variant: u8,
    pub requests: &'static [Request],
}
