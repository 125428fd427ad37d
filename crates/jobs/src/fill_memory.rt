// Filling lent memory as a fresh register has it.
ghost use Rattle.std.specs.Prelude.{◌≡◌, ◌<◌, ◌≤◌, length, nat_lt};
ghost use Rattle.jobs.specs.SetUp.{Overwritten, FreshCell, FreshRule};

use cells::cell::Cell;
use cells::value::Value;
use rules::local_rule::LocalRule;

// The first places hold what `fresh` makes from now on.
pub(crate) fn fill_first<T: Drop, F: Fn() -> T>(places: &mut [T], count: usize, fresh: F)
    requires room { count ≤ length places.old }
    requires callable { F.IsAlwaysCallable fresh }
    ensures { Overwritten (λ value. F.post fresh value) count places.old places.new }
{
    places[..count].fill_with(fresh);
}

// One fresh cell an item.
pub(crate) fn fill_cells<V: Value>(cells: &mut [Cell<V>], items: usize)
    requires { items ≤ length cells.old }
    ensures { Overwritten (FreshCell (V.Value)) items cells.old cells.new }
{
    fill_first(cells, items, || Cell::starting());
}

// Whether the local rules have this variant. Each class gets a rule of its own, so the one made for the question is dropped.
pub(crate) fn has_variant<R: LocalRule + Drop>(variant: u8) -> bool
    ensures { result ≡ nat_lt variant R.LocalRule.variants }
{
    R::fresh(variant).is_some()
}

// One fresh rule for each class. A loop of its own: a rule is large, and through a closure it was copied on its way to its place.
pub(crate) fn fill_rules<R: LocalRule + Drop>(rules: &mut [R], classes: usize, variant: u8)
    requires { (classes ≤ length rules.old) × (variant < R.LocalRule.variants) }
    ensures { Overwritten (FreshRule (R.LocalRule) variant) classes rules.old rules.new }
{
    for k in 0..classes {
        rules[k] = R::fresh(variant).unwrap();
    }
}
