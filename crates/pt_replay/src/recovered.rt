//! The layout of a view's disk.

ghost use Rattle.std.specs.Prelude.{◌≡◌, Some, IfOk, IfErr};
ghost use Rattle.pt_sector.specs.Sectors.{IsSectorSize};
ghost use Rattle.pt_recover.specs.Denotes.{Denotes};
ghost use Rattle.pt_replay.specs.Wanted.{disk_of, IsView, OfView, NoBuffers};
ghost use Rattle.pt_replay.specs.Replies.{table_answer, chain_answer};
ghost use Rattle.pt_replay.specs.Claims.{NoLayout};

use crate::answers::{About, Answer, Status};
use crate::replay::ReplayDisk;
use crate::view::View;
use pt_layout::{Layout, NoTable, recover};
use pt_mbr::ChainError;
use pt_sector::Moments;
use std::alloc::Global;

fn no_chain(error: ChainError) -> Answer
    ensures { result ≡ chain_answer error }
{
    let (fault, at) = match error {
        ChainError::NoSignature(at) => (1, at.0),
        ChainError::BadRecord(at) => (2, at.0),
        ChainError::NotUpward(at) => (3, at.0),
        ChainError::OutsideExtended(at) => (4, at.0),
        ChainError::TooLong => (5, 0),
        ChainError::Device(_) => return Answer::of(Status::Device),
    };
    Answer::told(Status::NoTable, About::Table, 2).with(fault, at)
}

/// Why there is no layout: the disk denotes nothing, or a sector is wanted.
pub fn no_table(why: NoTable) -> Answer
    ensures { result ≡ table_answer why }
{
    match why {
        NoTable::NoCopy(primary, backup) => {
            let (primary, backup) = (u64::from(primary.number()), u64::from(backup.number()));
            Answer::told(Status::NoTable, About::Table, 1).with(primary, backup)
        }
        NoTable::Chain(error) => no_chain(error),
        NoTable::TwoExtended => Answer::told(Status::NoTable, About::Table, 3),
        NoTable::TooSmall => Answer::told(Status::NoTable, About::Table, 4),
        NoTable::Device(at) => Answer::want(at),
        NoTable::Memory => Answer::of(Status::Memory),
    }
}

/// The layout that the disk of a view denotes, whatever stands elsewhere; or why there is none.
pub fn recovered<const B: usize>(
    alloc: Global,
    view: &View<'_>,
    elsewhere: Moments<[u8; B]>,
) -> Result<Layout, Answer>
    requires size { IsSectorSize B }
    ensures ok { IfOk result (λ o. Denotes B (disk_of B view.now elsewhere.entry.items) (Some o)) }
    ensures view { IfOk result (λ o. IsView B view.now) }
    ensures err { IfErr result (λ a. OfView B view.now NoBuffers (NoLayout B view.now (disk_of B view.now elsewhere.entry.items))
        a.status a.reply) }
{
    let Some(mut disk) = ReplayDisk::<B>::new(alloc, view, elsewhere) else {
        return Err(Answer::bad_argument(2));
    };
    match recover::<B, _>(alloc, &mut disk) {
        Ok(layout) => Ok(layout),
        Err(why) => Err(no_table(why)),
    }
}
