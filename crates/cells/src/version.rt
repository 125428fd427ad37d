// A version of an item: a value under the number of the version period that wrote it.
#[derive(Clone, Copy, PartialEq, Eq, Debug)]
pub struct Version<V> {
    pub number: u32,
    pub value: V,
}
