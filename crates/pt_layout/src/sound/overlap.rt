ghost use Rattle.std.specs.Prelude.{◌≡◌, ◌+◌, ◌<◌, ◌≤◌, ◌↔◌, IfOk, IsTrue, All};
ghost use Rattle.pt_layout.specs.Sound.{Meets};
ghost use Rattle.pt_layout.specs.inner.Sound.{FirstMeetingIs, FirstOverlapIs, IsOrdered};

use pt_members::Member;
use pt_path::Path;
use std::alloc::AllocError;

/// Two members that share a sector.
#[derive(Clone, Copy)]
pub struct Overlap {
    pub before: Path,
    pub it: Path,
}

fn meets(a: &Member, b: &Member) -> bool
    ensures { IsTrue result ↔ Meets a.now b.now }
{
    a.first <= b.last && b.first <= a.last
}

// The first that meets the one just before it.
fn first_meeting(members: &[Member]) -> Option<Overlap>
    ensures { FirstMeetingIs members.now result }
{
    for k in 1..members.len() {
        if meets(&members[k - 1], &members[k]) {
            return Some(Overlap {
                before: members[k - 1].path,
                it: members[k].path,
            });
        }
    }
    None
}

// The first of some siblings, by first sector and then by path, that meets the one just before it.
pub(crate) fn first_overlap(members: Vec<Member>) -> Result<Option<Overlap>, AllocError>
    requires ordered { All IsOrdered members.items }
    ensures found { IfOk result (λ o. FirstOverlapIs members.items o) }
{
    let mut sorted = members;
    sorted.sort_by_key(|m| m.first)?;
    Ok(first_meeting(&sorted))
}
