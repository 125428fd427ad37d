// The versions that a cell keeps beside its newest: at most two, the newer first.
// An enum, since an `ArrayVec` is not `Copy`, as a cell is.
use crate::version::Version;

#[derive(Clone, Copy, PartialEq, Eq, Debug)]
pub enum Older<V> {
    Nothing,
    One(Version<V>),
    Two(Version<V>, Version<V>),
}
