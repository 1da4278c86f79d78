ghost use Rattle.std.specs.Prelude.{◌≡◌, ◌≤◌, ◌<◌, length, drop, slice_index};
ghost use Rattle.pt_disks.specs.Memory.{pending_writes};
ghost use Rattle.pt_disks.specs.Stops.{values, is_pending, chosen};
ghost use Rattle.pt_disks.specs.inner.Stops.{picked};

use crate::in_memory::cache::Pending;

/// Leaves of each sector what was chosen.
pub(crate) fn pick_all<const B: usize>(
    durable: &mut [[u8; B]],
    pending: &[Pending<B>],
    choices: &[usize],
)
    requires { B ≤ 4096 }
    ensures { durable.new ≡ picked (pending_writes pending.now) 0 choices.now durable.old }
{
    let mut left = choices;
    for k in 0..durable.len() {
        let choice = first_or_zero(left);
        pick(&mut durable[k], pending, k as u64, choice);
        if has(pending, k as u64) {
            left = rest_of(left);
        }
    }
}

fn first_or_zero(choices: &[usize]) -> usize
    ensures { result ≡ slice_index choices.now 0 }
{
    if choices.is_empty() { 0 } else { choices[0] }
}

fn rest_of(choices: &[usize]) -> &[usize]
    ensures { result.now ≡ drop 1 choices.now }
{
    if choices.is_empty() {
        choices
    } else {
        &choices[1..]
    }
}

fn has<const B: usize>(pending: &[Pending<B>], k: u64) -> bool
    requires { B ≤ 4096 }
    ensures { result ≡ is_pending (pending_writes pending.now) k }
{
    for write in pending {
        if write.lba.0 == k {
            return true;
        }
    }
    false
}

fn pick<const B: usize>(into: &mut [u8; B], pending: &[Pending<B>], k: u64, choice: usize)
    requires { B ≤ 4096 }
    ensures { into.new ≡ chosen into.old (values (pending_writes pending.now) k) choice }
{
    let mut left = choice;
    for write in pending {
        if write.lba.0 == k && left > 0 {
            *into = write.bytes;
            left -= 1;
        }
    }
}
