//! The words of an edit, and the fresh GUIDs that they take.

ghost use Rattle.std.specs.Prelude.{◌≡◌, IfOk, IfErr, IfSome, option_map, string_bytes};
ghost use Rattle.clap.specs.Walk.{texts as slice_texts};
ghost use Rattle.pt_answers.specs.declared.failure.Failure.TheVariants.{Memory};
ghost use Rattle.pt_answers.specs.Wanted.{AreEdits, AreFresh, AreGiven, IsWanted, guid_in};
ghost use Rattle.pt_answers.specs.inner.Wanted.{IsBadOr, IsNamed, IsNoFreshOr, IsNotGivenOr, IsUnread};

use crate::failure::Failure;
use pt_edit::{Edit, EditError, parse_edit};
use pt_guid::{Guid, fresh as fresh_guid};
use pt_line::Texts;
use std::alloc::Global;

/// How many hexadecimal digits a fresh GUID takes.
const DIGITS: usize = 32;

/// Edits, and the fresh GUIDs that they take.
#[derive(Drop)]
pub struct Wanted {
    pub edits: Vec<Edit>,
    pub guids: Vec<Guid>,
}

impl Wanted {
    /// Those of words, and of the text of the GUIDs.
    pub fn read(alloc: Global, fresh: &Option<String>, words: &Texts) -> Result<Wanted, Failure>
        ensures { IsWanted (option_map string_bytes fresh.now) words.now result }
    {
        let guids = guids_of(alloc, fresh)?;
        let edits = edits_of(alloc, words)?;
        Ok(Wanted { edits, guids })
    }
}

/// The GUIDs of a text, none where there is no text.
pub(crate) fn guids_of(alloc: Global, text: &Option<String>) -> Result<Vec<Guid>, Failure>
    ensures ok { IfOk result (λ guids. AreGiven (option_map string_bytes text.now) guids.items) }
    ensures err { IfErr result (IsNotGivenOr (option_map string_bytes text.now)) }
{
    match text {
        Some(text) => guids_in(alloc, text.as_str()),
        None => Ok(Vec::new(alloc)),
    }
}

/// The GUIDs of groups of 32 hexadecimal digits.
fn guids_in(alloc: Global, text: &str) -> Result<Vec<Guid>, Failure>
    ensures ok { IfOk result (λ guids. AreFresh text.now guids.items) }
    ensures err { IfErr result (IsNoFreshOr text.now) }
{
    let (groups, rest) = text.as_bytes().as_chunks::<DIGITS>();
    if !rest.is_empty() {
        return Err(Failure::BadFresh);
    }
    let mut guids = Vec::new(alloc);
    for k in 0..groups.len() {
        let Some(guid) = guid_of(&groups[k]) else {
            return Err(Failure::BadFresh);
        };
        if guids.push(guid).is_err() {
            return Err(Failure::Memory);
        }
    }
    Ok(guids)
}

/// The GUID that the bytes in hexadecimal make.
fn guid_of(digits: &[u8]) -> Option<Guid>
    ensures { result ≡ guid_in digits.now }
{
    let mut drawn = [0; 16];
    match hex::decode_to_slice(digits, &mut drawn) {
        Ok(()) => Some(fresh_guid(drawn)),
        Err(_) => None,
    }
}

// Why a word isn't read: it is none, or there is no memory for it.
fn unread(alloc: Global, why: EditError, word: &str) -> Failure
    ensures { IsUnread why word.now result }
{
    match why {
        EditError::Memory => Failure::Memory,
        _ => bad_word(alloc, word),
    }
}

fn bad_word(alloc: Global, word: &str) -> Failure
    ensures { IsNamed word.now result }
{
    match String::from_str(alloc, word) {
        Ok(text) => Failure::BadWord(text),
        Err(_) => Failure::Memory,
    }
}

/// The edits of words, or the first word that is none.
fn edits_of(alloc: Global, words: &Texts) -> Result<Vec<Edit>, Failure>
    ensures ok { IfOk result (λ edits. AreEdits words.now edits.items) }
    ensures err { IfErr result (IsBadOr words.now) }
{
    let Ok(mut edits) = Vec::with_capacity(alloc, words.len()) else {
        return Err(Failure::Memory);
    };
    for k in 0..words.len() {
        let word = words.get(k);
        let edit = match parse_edit(alloc, word) {
            Ok(edit) => edit,
            Err(why) => return Err(unread(alloc, why, word)),
        };
        match edits.push(edit) {
            Ok(()) => {}
            Err(_) => return Err(Failure::Memory),
        }
    }
    Ok(edits)
}

/// The texts of words, as [`run`](crate::run) takes them.
pub fn texts_of<'a>(alloc: Global, words: &'a Texts) -> Result<Vec<&'a str>, Failure>
    ensures texts { IfOk result (λ texts. slice_texts texts.items ≡ words.now) }
    ensures memory { IfErr result (λ why. why ≡ Memory) }
{
    let Ok(mut texts) = Vec::with_capacity(alloc, words.len()) else {
        return Err(Failure::Memory);
    };
    for k in 0..words.len() {
        if texts.push(words.get(k)).is_err() {
            return Err(Failure::Memory);
        }
    }
    Ok(texts)
}
