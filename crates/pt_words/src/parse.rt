//! Words from their texts.

ghost use Rattle.std.specs.Prelude.{◌≡◌, ◌≢◌, ℕ, IfOk, IfErr, IfSome, IfNone, [], ◌∷◌};
ghost use Rattle.std.specs.Option.{option_map};
ghost use Rattle.pt_words.specs.Words.{fields, word_with, word_of, IsWord, IsNaming, IsWordFault};
ghost use Rattle.pt_words.specs.inner.Words.{fields_after, Answers};

use crate::error::EditError;
use crate::field::next_field;
use crate::word::Edit;
use crate::words::{
    alone, parse_align, parse_delete, parse_new, parse_set_bit, parse_set_disk, parse_set_kind,
    parse_set_name, parse_set_unique,
};
use std::alloc::Global;

// The only byte of a text.
fn only_byte(text: &str) -> Option<u8>
    ensures some { IfSome result (λ byte. text.now ≡ byte ∷ []) }
    ensures none { IfNone result ((byte : ℕ) → text.now ≢ byte ∷ []) }
{
    match text.as_bytes() {
        [byte] => Some(*byte),
        _ => None,
    }
}

// The word of a letter and the fields behind it.
#[tactic(auto, unfolding(crate::specs::Words::word_with))]
fn parse_word(alloc: Global, letter: u8, rest: Option<&str>) -> Result<Edit, EditError>
    ensures { Answers (word_with letter (fields_after (option_map (λ t. t.now) rest.entry))) result }
{
    match letter {
        b'a' => parse_align(rest),
        b'n' => parse_new(rest),
        b'd' => parse_delete(rest),
        b't' => parse_set_kind(rest),
        b'c' => parse_set_name(alloc, rest),
        b'u' => parse_set_unique(rest),
        b'U' => parse_set_disk(rest),
        b'A' => parse_set_bit(rest),
        b'e' => alone(rest, Edit::Extend),
        b'g' => alone(rest, Edit::ToGpt),
        b'o' => alone(rest, Edit::Empty),
        _ => Err(EditError::UnknownLetter),
    }
}

// The word of a text.
#[tactic(auto, using(crate::proofs::Cuts::some_field, crate::proofs::Cuts::no_letter), unfolding(crate::specs::Words::word_of))]
fn parse_text(alloc: Global, text: &str) -> Result<Edit, EditError>
    ensures { Answers (word_of (fields text.now)) result }
{
    let (letter, rest) = match next_field(Some(text)) {
        Some(parts) => parts,
        None => return Err(EditError::UnknownLetter),
    };
    match only_byte(letter) {
        Some(letter) => parse_word(alloc, letter, rest),
        None => Err(EditError::UnknownLetter),
    }
}

/// The word that a text is (docs/commands.md).
///
/// Its fields stand between colons; the first is its letter, and the name of `c` is all that follows the second colon. Numbers are
/// decimal without a zero in front and fit 64 bits. Memory is taken for a name alone.
#[tactic(auto, using(crate::proofs::Answered::ok_answer, crate::proofs::Answered::err_answer, crate::proofs::Answered::memory_answer))]
pub fn parse_edit(alloc: Global, text: &str) -> Result<Edit, EditError>
    ensures ok { IfOk result (IsWord (fields text.now)) }
    ensures err { IfErr result (λ e. e ≢ EditError.Memory → IsWordFault (fields text.now) e) }
    ensures memory { IfErr result (λ e. e ≡ EditError.Memory → IsNaming (word_of (fields text.now))) }
{
    parse_text(alloc, text)
}
