// A session: how far set-up has come, with what has been set up.
use crate::stage::Stage;

#[derive(Drop)]
pub struct Session {
    pub(crate) stage: Stage,
}
