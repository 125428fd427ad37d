// Which bay of which class a call is for, once the caller's numbers are judged.
ghost use Rattle.std.specs.Prelude.{◌<◌};

#[derive(Clone, Copy)]
pub(crate) struct BayId {
    pub(crate) class: u8,
    pub(crate) bay: u8,
    ghost one_of_sixteen: { class < 16 },
    ghost one_of_eight: { bay < 8 },
}
