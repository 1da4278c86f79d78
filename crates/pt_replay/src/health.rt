//! Whether a disk is healthy.

ghost use Rattle.std.specs.Prelude.{◌≡◌};
ghost use Rattle.pt_sector.specs.Sectors.{IsSectorSize};
ghost use Rattle.pt_replay.specs.Wanted.{disk_of};
ghost use Rattle.pt_replay.specs.Replies.{finding_answer, side_number};
ghost use Rattle.pt_replay.specs.Claims.{VerifiedFor};

use crate::answers::{About, Answer, Status};
use crate::replay::ReplayDisk;
use crate::view::View;
use pt_gpt::Side;
use pt_layout::{Finding, Verdict, verify};
use pt_sector::Moments;
use std::alloc::Global;

// 1 for the primary copy, 2 for the backup.
fn number_of(side: Side) -> u64
    ensures { result ≡ side_number side }
{
    match side {
        Side::Primary => 1,
        Side::Backup => 2,
    }
}

/// The answer of a finding, with its arguments as the command prints them.
fn found(finding: &Finding) -> Answer
    ensures { result ≡ finding_answer finding.now }
{
    let answer = Answer::told(Status::No, About::Finding, finding.number());
    match finding {
        Finding::NoTable(_) | Finding::CopiesDiffer | Finding::Protective => answer,
        Finding::PrimaryCopy(error) => answer.with(u64::from(error.number()), 0),
        Finding::BackupCopy(error) => answer.with(u64::from(error.number()), 0),
        Finding::Alternate(side) => answer.with(number_of(*side), 0),
        Finding::OutsideUsable(path) | Finding::ForeignLabel(path) => answer.with_path(path),
        Finding::Overlap(before, it) => answer.with_path(before).with_second(it),
        Finding::OnTable(path, at) => answer.with(0, at.0).with_path(path),
        Finding::SameGuid(lower, higher) => answer.with(*lower, *higher),
    }
}

/// Whether the disk of a view is healthy, whatever stands elsewhere.
pub fn verified<const B: usize>(
    alloc: Global,
    view: &View<'_>,
    elsewhere: Moments<[u8; B]>,
) -> Answer
    requires size { IsSectorSize B }
    ensures says { VerifiedFor B view.now (disk_of B view.now elsewhere.entry.items) result.status result.reply }
{
    let Some(mut disk) = ReplayDisk::<B>::new(alloc, view, elsewhere) else {
        return Answer::bad_argument(2);
    };
    match verify::<B, _>(alloc, &mut disk) {
        Ok(Verdict::Yes(_)) => Answer::of(Status::Done),
        Ok(Verdict::No(finding)) => found(&finding),
        Err(failure) => Answer::failed(failure),
    }
}
