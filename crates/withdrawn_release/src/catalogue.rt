// The catalogue of releases: two items, published together and read together.
ghost use Rattle.std.specs.Prelude.{◌≡◌, map};
ghost use Rattle.cells.specs.Cells.{versions};
ghost use Rattle.withdrawn_release.specs.Releases.{publish_reply, published, served_reply};

use crate::release::Release;
use cells::cell::Cell;
use cells::faults::{ReadFault, StoreFault};
use cells::version_store::{read_at, store};

const FIRMWARE: usize = 0;

const LAYOUT: usize = 1;

// Stores both parts of a release under the number of a version period.
pub fn publish(catalogue: &mut [Cell<u32>], period: u32, release: Release) -> Result<(), StoreFault>
    ensures reply { result ≡ publish_reply period release (map versions catalogue.old) }
    ensures memory { map versions catalogue.new ≡ published period release (map versions catalogue.old) }
{
    store(catalogue, FIRMWARE, period, release.firmware)?;
    store(catalogue, LAYOUT, period, release.layout)
}

// The release that a reader at a number is served.
pub fn served(catalogue: &[Cell<u32>], number: u32) -> Result<Option<Release>, ReadFault>
    ensures reply { result ≡ served_reply number (map versions catalogue.now) }
{
    let firmware = read_at(catalogue, FIRMWARE, number)?;
    let layout = read_at(catalogue, LAYOUT, number)?;
    Ok(
        firmware.zip(layout).map(|(firmware, layout)| Release {
            firmware: firmware.value,
            layout: layout.value,
        }),
    )
}
