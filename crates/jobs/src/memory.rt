// The memory that a caller lends to a register for the time of a call, so that it is no part of the register and comes beside it.
use cells::cell::Cell;

#[derive(Drop)]
pub struct Memory<'a, V, R> {
    // One cell an item, class after class.
    pub cells: &'a mut [Cell<V>],
    // Eight places for each of the eight bays of each class.
    pub pending: &'a mut [V],
    // One local rule for each class.
    pub rules: &'a mut [R],
}
