//! Attributes in sfdisk's words.

ghost use Rattle.std.specs.Prelude.{◌≡◌, ◌∷◌, ◌==◌};
ghost use Rattle.std.specs.Option.{option_map};
ghost use Rattle.pt_drafts.specs.Attributes.{bits_of, if_own, own_bit, own_bits, word_bits, are_worded};
ghost use Rattle.pt_drafts.specs.Pieces.{pieces};
ghost use Rattle.pt_drafts.specs.Texts.{by_text};
ghost use Rattle.pt_drafts.specs.inner.Steps.{pieces_of};

use crate::digits::decimal;
use crate::texts::behind;
use crate::values::Stands;
use serde_json::Value;

// The bits that have words (UEFI 2.10, 5.3.3).
const WORDED: u64 = 0xFFFF_0000_0000_0007;

// The first piece of a text, and what stands behind the mark that ends it.
fn cut(text: &[u8], mark: u8) -> (&[u8], Option<&[u8]>)
    ensures { pieces mark text.now ≡ result.0.now ∷ pieces_of mark (option_map (λ t. t.now) result.1) }
{
    for k in 0..text.len() {
        if text[k] == mark {
            return (&text[..k], Some(&text[k + 1..]));
        }
    }
    (text, None)
}

fn own(bit: u64) -> Option<u64>
    ensures { result ≡ if_own bit }
{
    if 48 <= bit && bit < 64 {
        return Some(1 << bit);
    }
    None
}

// The bit that a number names.
fn own_bit(word: &[u8]) -> Option<u64>
    ensures { result ≡ own_bit word.now }
{
    own(decimal(word)?)
}

// The bits that numbers name.
#[tactic(auto, unfolding(crate::specs::Attributes::own_bits))]
fn own_bits(text: &[u8]) -> Option<u64>
    ensures { result ≡ own_bits text.now }
{
    let mut bits = 0;
    let mut rest = Some(text);
    while let Some(text) = rest {
        let (word, more) = cut(text, b',');
        bits |= own_bit(word)?;
        rest = more;
    }
    Some(bits)
}

// The bits that a word names.
fn word_bits(word: &[u8]) -> Option<u64>
    ensures { result ≡ word_bits word.now }
{
    if word.is_empty() {
        Some(0)
    } else if word == b"RequiredPartition".as_slice() {
        Some(1)
    } else if word == b"NoBlockIOProtocol".as_slice() {
        Some(2)
    } else if word == b"LegacyBIOSBootable".as_slice() {
        Some(4)
    } else {
        own_bits(behind(word, b"GUID:")?)
    }
}

// The bits that words name.
#[tactic(auto, unfolding(crate::specs::Attributes::bits_of))]
fn bits(text: &[u8]) -> Option<u64>
    ensures { result ≡ bits_of text.now }
{
    let mut bits = 0;
    let mut rest = Some(text);
    while let Some(text) = rest {
        let (word, more) = cut(text, b' ');
        bits |= word_bits(word)?;
        rest = more;
    }
    Some(bits)
}

/// Words, by the bits that they name.
pub(crate) enum Words {}

impl Stands for Words {
    type Out = u64;

    ghost stands_for = { by_text bits_of };

    fn read(value: &Value) -> Option<u64> {
        bits(value.as_str()?.as_bytes())
    }
}

/// Whether these are all bits of the attributes that have words.
pub(crate) fn are_worded(attributes: u64, bits: u64) -> bool
    ensures { result ≡ are_worded attributes bits }
{
    attributes & WORDED == bits
}
