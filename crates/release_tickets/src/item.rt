// An item by its class and number, with a name for the story.

#[derive(Clone, Copy)]
pub struct Item {
    pub class: u8,
    pub number: u8,
    pub name: &'static str,
}
