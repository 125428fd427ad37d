// Item counts from the records of set-up.
ghost use Rattle.std.specs.Prelude.{◌≡◌};
ghost use Rattle.register_parts.specs.CheckedCounts.{said, checked_counts, counts_in};

use crate::class_setup::ClassSetup;
use crate::item_counts::ItemCounts;
use crate::setup_fault::SetUpFault;

const MOST_CLASSES: usize = 16;

const MOST_ITEMS: u8 = 64;

const MOST_ITEMS_IN_ALL: usize = 256;

impl ItemCounts {
    // The counts that the records say; refused where one of them or their sum is out of range.
    pub fn new(records: &[ClassSetup]) -> Result<ItemCounts, SetUpFault>
        ensures reply { counts_in result ≡ checked_counts (said records.now) }
    {
        if records.len() > MOST_CLASSES {
            return Err(SetUpFault::TooManyClasses);
        }
        let mut items = [0; 16];
        let mut sum: usize = 0;
        // One `for` over the records, as a rule of the project has it.
        for (class, record) in records.iter().enumerate() {
            if record.items > MOST_ITEMS {
                return Err(SetUpFault::TooManyItems);
            }
            items[class] = record.items;
            sum += usize::from(record.items);
        }
        if sum > MOST_ITEMS_IN_ALL {
            return Err(SetUpFault::TooManyItemsInAll);
        }
        Ok(ItemCounts { items })
    }
}
