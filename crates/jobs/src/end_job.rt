// The end of a job, however it comes.
ghost use Rattle.std.specs.Prelude.{◌≡◌};
ghost use Rattle.register_parts.specs.declared.bay.Bay.TheVariants.{Free};
ghost use Rattle.rules.specs.Claims.{forgotten};
ghost use Rattle.jobs.specs.Parts.{with_bay_in, class_in, with_class_in};

use crate::bay_id::BayId;
use crate::register::Register;
use register_parts::bay::Bay;
use rules::local_rule::LocalRule;

impl<O> Register<O> {
    // The class's rule forgets the job's claims, which no rule refuses for one of the eight bays; the bay is free, and with the job its pending values are dropped.
    pub(crate) fn end_job<R: LocalRule>(&mut self, rule: &mut R, id: BayId)
        ensures state { self.new ≡ with_class_in self.old id.class (with_bay_in (class_in self.old id.class) id.bay Free) }
        ensures rule { R.LocalRule.meaning rule.new ≡ forgotten id.bay (R.LocalRule.meaning rule.old) }
    {
        let _ = rule.forget(id.bay);
        self.set_bay(id, Bay::Free);
    }
}
