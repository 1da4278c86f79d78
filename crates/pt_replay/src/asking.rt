//! What C asks for: words, and random bytes for new GUIDs.

ghost use Rattle.std.specs.Prelude.{◌≡◌, ◌≢◌, IfOk, IfErr};
ghost use Rattle.pt_words.specs.declared.error.EditError.TheVariants as EditError;
ghost use Rattle.pt_replay.specs.inner.Wanted.{IsUnasked, NoWords, NoGroups};
ghost use Rattle.pt_replay.specs.Replies.{bad_word};
ghost use Rattle.pt_replay.specs.Given.{AreEdits, AreDrawn};

use crate::answers::{About, Answer, Status};
use pt_edit::{Edit, EditError, parse_edit};
use pt_guid::{Guid, fresh};
use std::alloc::Global;

// Why the word of this number, from 1 on, isn't one.
fn no_word(error: EditError, number: u64) -> Answer
    ensures told { IsUnasked (λ r. (error ≢ EditError.Memory) × (r ≡ bad_word number error)) result.status result.reply }
{
    match error {
        EditError::Memory => Answer::of(Status::Memory),
        error => Answer::told(Status::Usage, About::Word, error.number()).with(number, 0),
    }
}

/// The edit words of a text, each ended by a zero byte.
pub fn edits_of(alloc: Global, words: &[u8]) -> Result<Vec<Edit>, Answer>
    ensures ok { IfOk result (λ edits. AreEdits words.now edits.items) }
    ensures err { IfErr result (λ a. IsUnasked (NoWords words.now) a.status a.reply) }
{
    let text = match std::str::from_utf8(words) {
        Ok(text) => text,
        Err(_) => return Err(Answer::bad_argument(5)),
    };
    let mut edits = Vec::new(alloc);
    let mut rest = text;
    while let Some((word, after)) = rest.split_once('\0') {
        let edit = match parse_edit(alloc, word) {
            Ok(edit) => edit,
            Err(error) => return Err(no_word(error, edits.len() as u64 + 1)),
        };
        match edits.push(edit) {
            Ok(()) => {}
            Err(_) => return Err(Answer::of(Status::Memory)),
        }
        rest = after;
    }
    if edits.is_empty() {
        return Err(Answer::bad_argument(5));
    }
    if !rest.is_empty() {
        return Err(Answer::bad_argument(5));
    }
    Ok(edits)
}

/// The fresh GUIDs of random bytes, sixteen for each.
pub fn guids_of(alloc: Global, drawn: &[u8]) -> Result<Vec<Guid>, Answer>
    ensures ok { IfOk result (λ guids. AreDrawn drawn.now guids.items) }
    ensures err { IfErr result (λ a. IsUnasked (NoGroups drawn.now) a.status a.reply) }
{
    let (groups, rest) = drawn.as_chunks::<16>();
    if !rest.is_empty() {
        return Err(Answer::bad_argument(4));
    }
    let mut guids = Vec::new(alloc);
    for k in 0..groups.len() {
        let group = groups[k];
        match guids.push(fresh(group)) {
            Ok(()) => {}
            Err(_) => return Err(Answer::of(Status::Memory)),
        }
    }
    Ok(guids)
}
