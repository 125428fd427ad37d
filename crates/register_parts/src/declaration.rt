// What a tick declares: a stable version, by its grade and its number.
#[derive(Clone, Copy, PartialEq, Eq, Debug)]
pub struct Declaration {
    pub grade: u8,
    pub number: u32,
}
