// That calls by ticket are the calls by number, as the promise of a function that does nothing: whoever calls it has what it ensures.
ghost use Rattle.tickets.specs.Agreement.{AnswersAgree};

use cells::value::Value;
use orders::class_order::ClassOrder;
use rules::local_rule::LocalRule;

/// Whatever answers a request as defined, a call by ticket or the call by number, gives the same reply and leads to the same state.
pub fn answers_agree<O: ClassOrder, V: Value, R: LocalRule>()
    ensures { AnswersAgree (O.ClassOrder) (V.Value) (R.LocalRule) }
{}
