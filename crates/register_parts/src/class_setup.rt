// What set-up says of a class, apart from its place in the order.
#[derive(Clone, Copy)]
pub struct ClassSetup {
    // How many items the class has.
    pub items: u8,
}
