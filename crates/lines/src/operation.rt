// What a frame asks for, by its first byte.
#[derive(Clone, Copy, PartialEq, Eq, Debug)]
pub enum JobOperation {
    Begin,
    Read,
    Write,
    Commit,
    GiveUp,
    Tick,
}

#[derive(Clone, Copy, PartialEq, Eq, Debug)]
pub enum Operation {
    // Chooses the kind of order, the kind of value and the number of classes.
    Choose,
    // Adds the next class.
    AddClass,
    // Chooses the local rule; the register then serves jobs.
    Start,
    // A call of the register.
    Job(JobOperation),
}
