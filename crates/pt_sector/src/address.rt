ghost use Rattle.std.specs.Prelude.{◌≡◌, ◌<◌, ◌≤◌, ◌+◌, ◌^◌, ◌↔◌, IfSome, IsSome, IsTrue};
ghost use Rattle.pt_sector.specs.Sectors.{InSpan, span, Share, IsWithin};

/// The number of a sector, counted from 0.
#[derive(Clone, Copy, Debug, Default, PartialEq, Eq, PartialOrd, Ord)]
pub struct Lba(pub u64);

/// The bytes of one sector: 512 or 4096 of them.
pub type Sector<const B: usize> = [u8; B];

/// Consecutive sectors, at least one, the last below 2^63.
#[derive(Clone, Copy)]
pub struct Extent {
    first: u64,
    last: u64,
    pub ghost ordered: { first ≤ last },
    pub ghost small: { last < 2 ^ 63 },
}

impl Extent {
    /// The sectors from `first` to `last`; none where they are out of order, or `last` is 2^63 or more.
    pub fn new(first: Lba, last: Lba) -> Option<Extent>
        ensures exists { IsSome result ↔ ((first.0 ≤ last.0) × (last.0 < 2 ^ 63)) }
        ensures value { IfSome result (λ e. (e.first ≡ first.0) × (e.last ≡ last.0)) }
    {
        if first.0 <= last.0 && last.0 < 1 << 63 {
            Some(Extent {
                first: first.0,
                last: last.0,
            })
        } else {
            None
        }
    }

    /// The first sector.
    pub fn first(&self) -> Lba
        ensures { result.0 ≡ self.now.first }
    {
        Lba(self.first)
    }

    /// The last sector.
    pub fn last(&self) -> Lba
        ensures { result.0 ≡ self.now.last }
    {
        Lba(self.last)
    }

    /// The number of its sectors.
    pub fn len(&self) -> u64
        ensures { self.now.first + result ≡ self.now.last + 1 }
    {
        self.last - self.first + 1
    }

    /// Whether this sector is one of its own.
    pub fn contains(&self, lba: Lba) -> bool
        ensures { IsTrue result ↔ InSpan (span self.now.first self.now.last) lba.0 }
    {
        self.first <= lba.0 && lba.0 <= self.last
    }

    /// Whether the two have a sector in common.
    pub fn meets(&self, other: &Extent) -> bool
        ensures { IsTrue result ↔ Share (span self.now.first self.now.last) (span other.now.first other.now.last) }
    {
        self.first <= other.last && other.first <= self.last
    }

    /// Whether all its sectors are sectors of the other.
    pub fn inside(&self, other: &Extent) -> bool
        ensures { IsTrue result ↔ IsWithin (span self.now.first self.now.last) (span other.now.first other.now.last) }
    {
        other.first <= self.first && self.last <= other.last
    }
}
