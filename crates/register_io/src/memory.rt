// Memory for the largest register of either kind of value.
ghost use Rattle.std.specs.Prelude.{◌≡◌};
ghost use Rattle.std.specs.Fn.{FnOnceReturnsAtMut};
ghost use Rattle.lines.specs.Supplies.{rooms_of};
ghost use Rattle.lines.specs.declared.supplied.Supplied.{Supplied as supplied_memory};
ghost use Rattle.register_io.specs.Largest.{largest_rooms};

use cells::cell::Cell;
use cells::slip::Slip;
use cells::value::Value;
use jobs::memory::Memory;
use lines::supplied::Supplied;
use rules::chosen_rule::ChosenRule;
use rules::local_rule::LocalRule;

// A cell for each of 256 items, and for each of 16 classes 64 places for pending values and a rule.
pub const CELLS: usize = 256;

pub const PENDING: usize = 1024;

pub const RULES: usize = 16;

// What `serve` does with such memory. It has to be callable: no function can call a closure without asking so.
pub fn with_memory<T, F: FnOnce(&mut Supplied<'_>) -> T>(serve: F) -> T
    requires { F.IsAlwaysCallable serve }
    ensures served { (memory : supplied_memory) × (after : supplied_memory) × (rooms_of memory ≡ largest_rooms) × FnOnceReturnsAtMut F.FnOnce serve memory result after }
{
    let rule = ChosenRule::fresh(0).unwrap();
    let mut supplied = Supplied {
        words: Memory {
            cells: &mut [Cell::<u32>::starting(); CELLS],
            pending: &mut [u32::start(); PENDING],
            rules: &mut [rule; RULES],
        },
        slips: Memory {
            cells: &mut [Cell::<Slip>::starting(); CELLS],
            pending: &mut [Slip::start(); PENDING],
            rules: &mut [rule; RULES],
        },
    };
    serve(&mut supplied)
}
