//! GUIDs, their texts, and fresh ones.

ghost use Rattle.std.specs.Prelude.{◌≡◌, ◌<◌, ◌↔◌, All, IsTrue, IfOk, IfErr, Some, None, length, replicate, nat_eq, take, drop};
ghost use Rattle.std.proofs.Common.{rules};
ghost use Rattle.std.specs.Cmp.Lexicographic.{pointwise};
ghost use Rattle.std.specs.Cmp.Rules.{comparing};
ghost use Rattle.std.specs.Ordering.{on};
ghost use Rattle.std.specs.Int.{w64, from_le_bytes};
ghost use Rattle.uuid.specs.Text.{hyphenated_text, lower};
ghost use Rattle.pt_guid.specs.Guids.{mixed, stored_of, text_of, fresh_of};
ghost use Rattle.pt_guid.specs.Sentences.{guid_error_sentence};

use std::error::Error;
use std::fmt;
use uuid::Uuid;
use uuid::fmt::Hyphenated;

/// A GUID, by its sixteen bytes as a disk stores them: those of the first three fields of its text are turned round, field by field
/// (UEFI 2.10, Appendix A).
#[derive(Clone, Copy, Debug)]
pub struct Guid(pub [u8; 16]);

// Half of the bytes as a number.
fn half(bytes: &[u8]) -> u64
    requires { length bytes.now ≡ 8 }
    ensures { result ≡ from_le_bytes w64 bytes.now }
{
    u64::from_le_bytes([
        bytes[0], bytes[1], bytes[2], bytes[3], bytes[4], bytes[5], bytes[6], bytes[7],
    ])
}

// Both halves.
fn halves(bytes: &[u8; 16]) -> (u64, u64)
    ensures first { result.0 ≡ from_le_bytes w64 (take 8 bytes.now) }
    ensures second { result.1 ≡ from_le_bytes w64 (drop 8 bytes.now) }
    ensures bytes { All (λ byte. byte < 256) bytes.now }
    ensures whole { length bytes.now ≡ 16 }
{
    let (first, second) = bytes.split_at(8);
    (half(first), half(second))
}

#[tactic(auto, using(crate::proofs::Halves::same_by_halves))]
fn have_same_bytes(a: &[u8; 16], b: &[u8; 16]) -> bool
    ensures { IsTrue result ↔ (a.now ≡ b.now) }
{
    let (a, b) = (halves(a), halves(b));
    a.0 == b.0 && a.1 == b.1
}

// By hand: two numbers are compared, and not sixteen bytes one by one.
impl PartialEq for Guid {
    ghost eq = { on (λ g. g.0) (pointwise nat_eq) };

    ghost laws = { Prim.search (comparing, rules) };

    fn eq(&self, other: &Guid) -> bool {
        have_same_bytes(&self.0, &other.0)
    }
}

impl Eq for Guid {
    ghost laws = { Prim.search (comparing, rules) };
}

/// Why a text is no GUID.
#[derive(Clone, Copy, Debug, PartialEq, Eq)]
pub enum GuidError {
    /// The text isn't 32 hexadecimal digits in groups of 8, 4, 4, 4 and 12 with hyphens between.
    NotAGuid,
}

impl fmt::Display for GuidError {
    ghost output = { λ error. Some (guid_error_sentence error) };

    fn fmt<W: fmt::Write>(&self, f: &mut fmt::Formatter<W>) -> fmt::Result {
        match self {
            GuidError::NotAGuid => f.write_str("not a GUID"),
        }
    }
}

impl Error for GuidError {}

/// The GUID of a text such as `c12a7328-f81f-11d2-ba4b-00a0c93ec93b`. Digits may be of either case; there are no braces, and no hyphen
/// is left out.
pub fn parse(text: &str) -> Result<Guid, GuidError>
    ensures ok { IfOk result (λ guid. stored_of text.now ≡ Some guid.0) }
    ensures err { IfErr result (λ _. stored_of text.now ≡ None) }
{
    // The parser knows three more forms, each of another length.
    if text.len() != 36 {
        return Err(GuidError::NotAGuid);
    }
    match Uuid::parse_str(text) {
        Ok(id) => Ok(Guid(id.to_bytes_le())),
        Err(_) => Err(GuidError::NotAGuid),
    }
}

// The bytes in the order of the text.
fn in_text_order(stored: &[u8; 16]) -> Hyphenated
    ensures value { result ≡ mixed stored.now }
    ensures whole { length stored.now ≡ 16 }
    ensures bytes { All (λ byte. byte < 256) stored.now }
{
    Uuid::from_bytes_le(*stored).hyphenated()
}

// The text of bytes in its order.
fn write_text<'b>(bytes: &Hyphenated, buffer: &'b mut [u8; 36]) -> &'b str
    ensures { result.now ≡ hyphenated_text lower bytes.now }
{
    bytes.encode_lower(buffer)
}

impl Guid {
    /// The text in lower case, written into the buffer.
    pub fn to_text<'b>(&self, buffer: &'b mut [u8; 36]) -> &'b str
        ensures text { result.now ≡ text_of self.now.0 }
        ensures read { stored_of result.now ≡ Some self.now.0 }
    {
        let bytes = in_text_order(&self.0);
        write_text(&bytes, buffer)
    }

    /// Whether all its bytes are zero, as those of the type of an unused entry.
    pub fn is_zero(&self) -> bool
        ensures { IsTrue result ↔ (self.now.0 ≡ replicate 16 0) }
    {
        self.0 == [0; 16]
    }
}

/// The GUID of version 4 that is made of 16 drawn bytes, given in the order of the text: the upper half of byte 6 becomes 4, and the
/// two upper bits of byte 8 become 10.
pub fn fresh(mut drawn: [u8; 16]) -> Guid
    ensures { result.0 ≡ fresh_of drawn }
{
    drawn[6] = (drawn[6] & 0x0F) | 0x40;
    drawn[8] = (drawn[8] & 0x3F) | 0x80;
    Guid(Uuid::from_bytes(drawn).to_bytes_le())
}
