ghost use Rattle.std.specs.Prelude.{◌≡◌, [], IfOk};
ghost use Rattle.pt_sector.specs.Sectors.{IsSectorSize};

use crate::own::Own;
use std::alloc::{AllocError, Global};

/// Room for the sectors that an overlay or a cache keeps, taken before it borrows its disk.
#[derive(Drop)]
pub struct Room<const B: usize> {
    pub(crate) own: Own<B>,
    ghost empty: { own.puts.items ≡ [] },
}

impl<const B: usize> Room<B> {
    ghost use Rattle.pt_sector.specs.Overlays.{room_for};

    /// Room for this many sectors.
    pub fn new(alloc: Global, room: usize) -> Result<Room<B>, AllocError>
        requires { IsSectorSize B }
        ensures { IfOk result (λ r. room_for r ≡ room) }
    {
        Ok(Room {
            own: Own::new(alloc, room)?,
        })
    }

    /// Room for what a [`ReadCache`](crate::ReadCache) keeps: 512 sectors, which is more than a table takes, its EBRs and
    /// its labels with it, on any disk but a crowded one.
    pub fn for_cache(alloc: Global) -> Result<Room<B>, AllocError>
        requires { IsSectorSize B }
        ensures { IfOk result (λ r. room_for r ≡ 512) }
    {
        Room::new(alloc, 512)
    }
}
