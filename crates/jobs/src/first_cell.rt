// Where the cells of a class begin in lent memory.
ghost use Rattle.std.specs.Prelude.{◌≡◌, ◌≤◌, length, slice_index, sum};
ghost use Rattle.laws.specs.Setting.{sum_below};

use register_parts::item_counts::ItemCounts;

// The cells of a class lie behind those of the classes with smaller numbers: without a heap, callers lend one run of cells for all classes.
pub(crate) fn first_cell(counts: &ItemCounts, class: u8) -> usize
    requires { class ≤ 16 }
    ensures reply { result ≡ sum_below class (λ c. slice_index counts.now.items c) }
    ensures bound { result ≤ 256 }
{
    items_in_all(&counts.items[..usize::from(class)])
}

// How many items so many classes have together.
fn items_in_all(counts: &[u8]) -> usize
    requires { length counts.now ≤ 16 }
    ensures { result ≡ sum counts.now }
{
    counts.iter().map(|&items| usize::from(items)).sum()
}
