// Access to one bay of a class.
ghost use Rattle.std.specs.Prelude.{◌≡◌, length};
ghost use Rattle.jobs.specs.Parts.{class_in, bay_in, with_bay_in, with_class_in};

use crate::bay_id::BayId;
use crate::register::Register;
use register_parts::bay::Bay;

impl<O> Register<O> {
    // It says the length of the table, which a proof does not find behind an index.
    pub(crate) fn bay(&self, id: BayId) -> Bay
        ensures reply { result ≡ bay_in self.now id.class id.bay }
        ensures eight { length (class_in self.now id.class).bays ≡ 8 }
    {
        let state = &self.classes[usize::from(id.class)];
        state.bays[usize::from(id.bay)]
    }

    pub(crate) fn set_bay(&mut self, id: BayId, new: Bay)
        ensures state { self.new ≡ with_class_in self.old id.class (with_bay_in (class_in self.old id.class) id.bay new) }
    {
        let state = &mut self.classes[usize::from(id.class)];
        state.bays[usize::from(id.bay)] = new;
    }
}
