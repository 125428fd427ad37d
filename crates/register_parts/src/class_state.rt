// What the register itself keeps of a class; the class's cells, pending values and rule lie in lent memory.
use crate::bay::Bay;

#[derive(Clone, Copy)]
pub struct ClassState {
    // The down number of the last commit that had one: no later commit may go below it.
    pub floor: u32,
    pub bays: [Bay; 8],
}
