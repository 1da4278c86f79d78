//! Members and sectors in path order.

ghost use Rattle.std.specs.Prelude.{◌↔◌, IsTrue};
ghost use Rattle.pt_layout.specs.inner.Sound.{SpotIsBefore, FirstSpotIs};

use pt_path::Path;

/// A member by its path, and a sector.
#[derive(Clone, Copy)]
pub struct Spot {
    pub path: Path,
    pub lba: u64,
}

fn spot_before(a: &Spot, b: &Spot) -> bool
    ensures { IsTrue result ↔ SpotIsBefore a.now b.now }
{
    if a.path.is_before(b.path) {
        return true;
    }
    !b.path.is_before(a.path) && a.lba < b.lba
}

// The one that comes first, by path and then by sector.
pub(crate) fn first_of(a: Option<Spot>, b: Option<Spot>) -> Option<Spot>
    ensures { FirstSpotIs a b result }
{
    match (a, b) {
        (Some(x), Some(y)) => {
            if spot_before(&y, &x) {
                Some(y)
            } else {
                Some(x)
            }
        }
        (Some(x), None) => Some(x),
        (None, y) => y,
    }
}
