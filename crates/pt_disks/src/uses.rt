//! What the system's lists say of devices that are in use.

ghost use Rattle.std.specs.Prelude.{◌≡◌, ◌≤◌, ◌≢◌, ℕ, List, [], ◌∷◌, length, drop, IfSome, IfNone, IsTrue, ◌↔◌, All, Any, Some};
ghost use Rattle.pt_disks.specs.inner.Devices.{parts, IsSecond, IsSourceIn, IsMount, IsSwap, IsOn};
ghost use Rattle.pt_disks.specs.Sentences.{purpose_text};

use crate::numbers::{DeviceNumber, is_one_of};
use std::fmt;

/// A line of /proc/self/mountinfo: the number of the file system's device, where it is mounted, and what it was mounted from.
#[derive(Clone, Copy)]
pub(crate) struct Mount<'a> {
    pub(crate) device: DeviceNumber,
    pub(crate) place: &'a str,
    pub(crate) source: &'a str,
}

/// What something is used for.
#[derive(Clone, Copy)]
pub(crate) enum Purpose<'a> {
    Mount(Mount<'a>),
    Swap(&'a str),
}

/// Something that is in use: the number that the system's list gives for it, the number of the device that its path leads to, and what for.
#[derive(Clone, Copy)]
pub(crate) struct Claim<'a> {
    pub(crate) listed: Option<DeviceNumber>,
    pub(crate) node: Option<DeviceNumber>,
    pub(crate) purpose: Purpose<'a>,
}

impl fmt::Display for Purpose<'_> {
    ghost output = { λ purpose. Some (purpose_text purpose) };

    fn fmt<W: fmt::Write>(&self, f: &mut fmt::Formatter<W>) -> fmt::Result {
        match self {
            Purpose::Mount(mount) => write!(f, "{} is mounted on {}", mount.source, mount.place),
            Purpose::Swap(path) => write!(f, "{path} is swap"),
        }
    }
}

// The part before the first space, and the text after it.
fn cut(text: &str) -> Option<(&str, &str)>
    ensures some { IfSome result (λ r. parts text.now ≡ r.0.now ∷ parts r.1.now) }
    ensures none { IfNone result (parts text.now ≡ text.now ∷ []) }
{
    text.split_once(' ')
}

// The text behind the second space.
fn behind_two(text: &str) -> Option<&str>
    ensures some { IfSome result (λ r. drop 2 (parts text.now) ≡ parts r.now) }
    ensures none { IfNone result (length (parts text.now) ≤ 2) }
{
    let (_, rest) = cut(text)?;
    let (_, rest) = cut(rest)?;
    Some(rest)
}

// The second part.
fn second_part(text: &str) -> Option<&str>
    ensures some { IfSome result (λ r. IsSecond (parts text.now) r.now) }
    ensures none { IfNone result ((part : List ℕ) → ¬ IsSecond (parts text.now) part) }
{
    let (_, rest) = cut(text)?;
    match cut(rest) {
        Some((part, _)) => Some(part),
        None => Some(rest),
    }
}

// What a file system was mounted from, in the parts of its line from the options on.
fn source_in(text: &str) -> Option<&str>
    ensures some { IfSome result (λ r. IsSourceIn (parts text.now) r.now) }
    ensures none { IfNone result ((source : List ℕ) → ¬ IsSourceIn (parts text.now) source) }
{
    let mut rest = text;
    while let Some((part, after)) = cut(rest) {
        if part == "-" {
            return second_part(after);
        }
        rest = after;
    }
    None
}

/// What a line of /proc/self/mountinfo says.
pub(crate) fn mount_of(line: &str) -> Option<Mount<'_>>
    ensures some { IfSome result (IsMount line.now) }
    ensures none { IfNone result ((mount : _) → ¬ IsMount line.now mount) }
{
    let rest = behind_two(line)?;
    let (number, rest) = cut(rest)?;
    let (_, rest) = cut(rest)?;
    let (place, rest) = cut(rest)?;
    let device = DeviceNumber::read(number)?;
    let source = source_in(rest)?;
    Some(Mount {
        device,
        place,
        source,
    })
}

/// The path in a line of /proc/swaps; the line above the list has none.
pub(crate) fn swap_of(line: &str) -> Option<&str>
    ensures some { IfSome result (λ r. IsSwap line.now r.now) }
    ensures none { IfNone result ((path : List ℕ) → ¬ IsSwap line.now path) }
{
    let path = match cut(line) {
        Some((path, _)) => path,
        None => line,
    };
    match path.as_bytes() {
        [b'/', ..] => Some(path),
        _ => None,
    }
}

/// What one of these devices is used for; none where none of them is in use.
pub(crate) fn use_among<'a>(claims: &[Claim<'a>], devices: &[DeviceNumber]) -> Option<Purpose<'a>>
    ensures some { IfSome result (λ purpose. Any (λ claim. IsOn devices.now claim × (claim.purpose ≡ purpose)) claims.now) }
    ensures none { IfNone result (All (λ claim. ¬ IsOn devices.now claim) claims.now) }
{
    for claim in claims {
        if is_one_of(devices, claim.listed) || is_one_of(devices, claim.node) {
            return Some(claim.purpose);
        }
    }
    None
}
