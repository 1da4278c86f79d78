//! The sectors of partitions.

ghost use Rattle.std.specs.Prelude.{◌≡◌, IfSome, IfNone};
ghost use Rattle.pt_sector.specs.Sectors.{IsSectorSize};
ghost use Rattle.pt_replay.specs.Wanted.{disk_of};
ghost use Rattle.pt_replay.specs.Claims.{IsNamed, LocatedFor, path_in};

use crate::answers::{Answer, Status};
use crate::recovered::recovered;
use crate::view::View;
use pt_layout::{Path, locate};
use pt_sector::Moments;
use std::alloc::Global;

/// The path of a number and a letter, 0 for none.
fn path_of(number: u64, letter: u8) -> Option<Path>
    ensures ok { IfSome result (λ path. path ≡ path_in number letter) }
    ensures named { IfSome result (λ path. IsNamed number letter) }
    ensures none { IfNone result (¬ IsNamed number letter) }
{
    let letter = match letter {
        0 => None,
        b'a'..=b'h' => Some(letter - b'a'),
        _ => return None,
    };
    if number == 0 {
        return None;
    }
    Some(Path { number, letter })
}

/// Where sector `k` of a partition of a view's disk is, whatever stands elsewhere.
#[tactic(auto, using(crate::proofs::Saying::located_not))]
pub fn located<const B: usize>(
    alloc: Global,
    view: &View<'_>,
    number: u64,
    letter: u8,
    k: u64,
    elsewhere: Moments<[u8; B]>,
) -> Answer
    requires size { IsSectorSize B }
    ensures says { LocatedFor B view.now (disk_of B view.now elsewhere.entry.items) number letter k result.status result.reply }
{
    let Some(path) = path_of(number, letter) else {
        return Answer::bad_argument(3);
    };
    let layout = match recovered::<B>(alloc, view, elsewhere) {
        Ok(layout) => layout,
        Err(answer) => return answer,
    };
    match locate::<B>(&layout, &path, k) {
        Some(at) => {
            let mut answer = Answer::of(Status::Done);
            answer.reply.sector = at.0;
            answer
        }
        None => Answer::of(Status::No),
    }
}
