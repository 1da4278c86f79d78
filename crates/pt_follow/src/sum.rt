//! The sums of an array's sectors, and that of all after a change of one.

ghost use Rattle.std.specs.Prelude.{◌≡◌, ◌<◌, ◌≤◌, ◌*◌, ◌-◌, ℕ, List, length, take};
ghost use Rattle.pt_sum.specs.Sums.{crc_of};
ghost use Rattle.pt_sector.specs.Sectors.{IsSectorSize};
ghost use Rattle.pt_gpt.specs.Copies.{counted};
ghost use Rattle.pt_follow.specs.inner.Follow.{entries_with, range_of};

use pt_gpt::ENTRY_SIZE;
use pt_resum::sum_after_change;
use pt_sector::Sector;
use pt_sum::crc32;

// The sum of those bytes of sector `k` that are of so many entries.
pub(crate) fn part_sum<const B: usize>(count: u32, k: u64, bytes: &Sector<B>) -> u32
    requires size { IsSectorSize B }
    requires most { count ≤ 128 }
    requires within { k < counted B count }
    ensures { result ≡ crc_of (take (count * 128 - k * B) bytes.now) }
{
    let left = count as usize * ENTRY_SIZE - k as usize * B;
    let whole = &bytes[..];
    crc32(&whole[..left.min(B)])
}

// The sum of so many entries once sector `k` of the array has other bytes. `sum` is theirs before; `before` and `now` are those of the
// sector's part of them.
pub(crate) fn sum_with<const B: usize>(sum: u32, before: u32, now: u32, count: u32, k: u64) -> u32
    requires size { IsSectorSize B }
    requires most { count ≤ 128 }
    requires within { k < counted B count }
    ensures { (x y : List ℕ) → length x ≡ count * 128 → length y ≡ B → sum ≡ crc_of x → before ≡ crc_of (range_of B x k)
        → now ≡ crc_of (take (count * 128 - k * B) y) → result ≡ crc_of (entries_with B x k y) }
{
    let left = count as usize * ENTRY_SIZE - k as usize * B;
    let behind = (left - left.min(B)) / ENTRY_SIZE;
    sum_after_change(sum, before, now, behind as u32)
}
