// The laws of the register, as promises of functions that do nothing: whoever calls one has what it ensures.
ghost use Rattle.laws.specs.Laws.{FreshStands, LawsHold, RunsKeepLaws, StepsKeepLaws};
ghost use Rattle.laws.specs.Shortcuts.{ShortcutsFail};
ghost use Rattle.laws.specs.Worked.{Worked};

/// Every history, so every run of calls, of every register over values of type V that is set up lawfully keeps separation, one copy and deadlines.
pub fn laws_hold<V>()
    ensures fresh { FreshStands V }
    ensures steps { StepsKeepLaws V }
    ensures laws { LawsHold V }
    ensures runs { RunsKeepLaws V }
{}

/// The definitions come out as they should on small cases, and the laws' premises can be met.
pub fn cases_worked()
    ensures { Worked }
{}

/// The law of one copy has teeth: three shortcuts break it, each in a short run in which the register keeps it.
pub fn shortcuts_fail()
    ensures { ShortcutsFail }
{}
