// The memory that a caller lends to a session: for a register over words, and for one over slips. Either may be empty.
use cells::slip::Slip;
use jobs::memory::Memory;
use rules::chosen_rule::ChosenRule;

#[derive(Drop)]
pub struct Supplied<'a> {
    pub words: Memory<'a, u32, ChosenRule>,
    pub slips: Memory<'a, Slip, ChosenRule>,
}
