// The kinds of rule in words.
ghost use Rattle.std.specs.Prelude.{Some};
ghost use Rattle.rules.specs.RuleWords.{rule_words};

use crate::chosen_rule::RuleKind;
use std::fmt;

impl fmt::Display for RuleKind {
    ghost output = { λ kind. Some (rule_words kind) };

    fn fmt<W: fmt::Write>(&self, f: &mut fmt::Formatter<W>) -> fmt::Result {
        f.write_str(match self {
            RuleKind::Locking => "locks",
            RuleKind::Checking => "check",
        })
    }
}
