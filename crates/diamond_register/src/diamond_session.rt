// The session at the diamond, from set-up on: in enough memory it comes out as its contract says, and the laws hold of it.
ghost use Rattle.std.specs.Prelude.{◌≡◌, [], ◌∷◌};
ghost use Rattle.register_parts.specs.CheckedCounts.{said};
ghost use Rattle.diamond_register.specs.DiamondSession.{room_for_diamond, Plays, LawfullyPlayed};

use crate::diamond_order::DiamondOrder;
use crate::session::{Replies, session, set_up};
use exclusive_rule::exclusive::Exclusive;
use jobs::class_setup::ClassSetup;
use jobs::memory::Memory;
use jobs::register::Register;
use jobs::setup_fault::SetUpFault;

// What set-up says of the classes: the maker has two items, the others have one each.
pub fn records() -> [ClassSetup; 4]
    ensures { said result ≡ 2 ∷ 1 ∷ 1 ∷ 1 ∷ [] }
{
    let one = ClassSetup { items: 1 };
    [ClassSetup { items: 2 }, one, one, one]
}

// The maker publishes firmware; the left distributor reads it, and asks for what the right one has.
pub fn diamond_session(
    memory: &mut Memory<'_, u32, Exclusive>,
    firmware: u32,
) -> Result<(Register<DiamondOrder>, Replies<u32>), SetUpFault>
    ensures reply { Plays (room_for_diamond memory.old) firmware memory.old result memory.new }
    ensures laws { LawfullyPlayed firmware result memory.new }
{
    let mut register = set_up(DiamondOrder, &records(), 0, memory)?;
    let replies = session(&mut register, memory, firmware);
    Ok((register, replies))
}
