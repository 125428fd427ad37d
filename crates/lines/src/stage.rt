// How far the set-up of a session has come.
use crate::kinds::ValueKind;
use crate::plan::Plan;
use jobs::register::Register;
use orders::chosen_order::ChosenOrder;

#[derive(Drop)]
pub(crate) enum Stage {
    // The kinds of order and value are yet to be chosen.
    Opening,
    // Classes are being added; then the rule is chosen.
    Planning(Plan),
    // The register serves jobs.
    Serving {
        values: ValueKind,
        register: Register<ChosenOrder>,
    },
}
