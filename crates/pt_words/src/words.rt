//! Words by their letters.

ghost use Rattle.std.specs.Prelude.{◌≡◌, IfOk, IfErr, Ok, Err};
ghost use Rattle.std.specs.Option.{option_map};
ghost use Rattle.pt_words.specs.Words.{align_of, new_of, delete_of, kind_of, name_of, unique_of, disk_of, bit_of, code_or_none};
ghost use Rattle.pt_words.specs.Words as words;
ghost use Rattle.pt_words.specs.inner.Words.{fields_after, Answers};

use crate::error::EditError;
use crate::field::{
    code_field, end_field, entry_number, guid_field, new_path_field, next_field, number_in,
    one_field, path_field, three_fields, two_fields,
};
use crate::word::{Code, Edit};
use std::alloc::Global;

// How many bits an attribute word has, less one.
const LAST_BIT: u64 = 63;

// The greatest alignment, in sectors.
const GREATEST_ALIGNMENT: u64 = 65536;

// `a:K`.
#[tactic(auto, unfolding(crate::specs::Words::align_of))]
pub(crate) fn parse_align(rest: Option<&str>) -> Result<Edit, EditError>
    ensures { Answers (align_of (fields_after (option_map (λ t. t.now) rest.entry))) result }
{
    let sectors = one_field(rest)?;
    Ok(Edit::Align(number_in(sectors, 1, GREATEST_ALIGNMENT)?))
}

// `d:PATH`.
#[tactic(auto, unfolding(crate::specs::Words::delete_of))]
pub(crate) fn parse_delete(rest: Option<&str>) -> Result<Edit, EditError>
    ensures { Answers (delete_of (fields_after (option_map (λ t. t.now) rest.entry))) result }
{
    let path = one_field(rest)?;
    Ok(Edit::Delete(path_field(path)?))
}

// `t:PATH:CODE`.
#[tactic(auto, unfolding(crate::specs::Words::kind_of))]
pub(crate) fn parse_set_kind(rest: Option<&str>) -> Result<Edit, EditError>
    ensures { Answers (kind_of (fields_after (option_map (λ t. t.now) rest.entry))) result }
{
    let (path, code) = two_fields(rest)?;
    Ok(Edit::SetKind(path_field(path)?, code_field(code)?))
}

// `u:NUM:GUID`.
#[tactic(auto, unfolding(crate::specs::Words::unique_of))]
pub(crate) fn parse_set_unique(rest: Option<&str>) -> Result<Edit, EditError>
    ensures { Answers (unique_of (fields_after (option_map (λ t. t.now) rest.entry))) result }
{
    let (number, guid) = two_fields(rest)?;
    Ok(Edit::SetUnique(entry_number(number)?, guid_field(guid)?))
}

// `U:GUID`.
#[tactic(auto, unfolding(crate::specs::Words::disk_of))]
pub(crate) fn parse_set_disk(rest: Option<&str>) -> Result<Edit, EditError>
    ensures { Answers (disk_of (fields_after (option_map (λ t. t.now) rest.entry))) result }
{
    let guid = one_field(rest)?;
    Ok(Edit::SetDisk(guid_field(guid)?))
}

// `A:NUM:BIT:V`.
#[tactic(auto, unfolding(crate::specs::Words::bit_of))]
pub(crate) fn parse_set_bit(rest: Option<&str>) -> Result<Edit, EditError>
    ensures { Answers (bit_of (fields_after (option_map (λ t. t.now) rest.entry))) result }
{
    let (entry, bit, value) = three_fields(rest)?;
    let number = entry_number(entry)?;
    let place = number_in(bit, 0, LAST_BIT)?;
    let set = number_in(value, 0, 1)?;
    Ok(Edit::SetBit(number, place as u8, set == 1))
}

// A letter alone, as `e`, `g` or `o`.
#[tactic(auto, using(crate::proofs::Cuts::not_alone), unfolding(crate::specs::Words::alone))]
pub(crate) fn alone(rest: Option<&str>, word: Edit) -> Result<Edit, EditError>
    ensures { Answers (words.alone word (fields_after (option_map (λ t. t.now) rest.entry))) result }
{
    match rest {
        None => Ok(word),
        Some(_) => Err(EditError::FieldCount),
    }
}

// The fields of `c`: a number, and the rest of the word as the name.
#[tactic(auto, using(crate::proofs::Cuts::named_text))]
fn name_fields<'a>(rest: Option<&'a str>) -> Result<(&'a str, &'a str), EditError>
    ensures ok { IfOk result (λ f. words.named_of (fields_after (option_map (λ t. t.now) rest.entry)) ≡ Ok (f.0.now, f.1.now)) }
    ensures err { IfErr result (λ e. words.named_of (fields_after (option_map (λ t. t.now) rest.entry)) ≡ Err e) }
{
    let (number, rest) = next_field(rest).ok_or(EditError::FieldCount)?;
    let name = rest.ok_or(EditError::FieldCount)?;
    Ok((number, name))
}

// `c:NUM:NAME`.
#[tactic(auto, unfolding(crate::specs::Words::name_of))]
pub(crate) fn parse_set_name(alloc: Global, rest: Option<&str>) -> Result<Edit, EditError>
    ensures { Answers (name_of (fields_after (option_map (λ t. t.now) rest.entry))) result }
{
    let (number, name) = name_fields(rest)?;
    let entry = entry_number(number)?;
    let name = String::from_str(alloc, name)?;
    Ok(Edit::SetName(entry, name))
}

// The type behind a fourth colon, if there is one.
#[tactic(auto, unfolding(crate::specs::Words::code_or_none))]
fn typed(text: Option<&str>) -> Result<Option<Code>, EditError>
    ensures { result ≡ code_or_none (option_map (λ t. t.now) text.entry) }
{
    match text {
        None => Ok(None),
        Some(text) => Ok(Some(code_field(text)?)),
    }
}

// The fields of `n`: three, and a type where there is a fourth.
fn place_fields<'a>(
    rest: Option<&'a str>,
) -> Result<(&'a str, &'a str, &'a str, Option<&'a str>), EditError>
    ensures ok { IfOk result (λ f. words.place_of (fields_after (option_map (λ t. t.now) rest.entry))
        ≡ Ok (f.0.now, f.1.now, f.2.now, option_map (λ t. t.now) f.3)) }
    ensures err { IfErr result (λ e. words.place_of (fields_after (option_map (λ t. t.now) rest.entry)) ≡ Err e) }
{
    match three_fields(rest) {
        Ok((path, start, end)) => Ok((path, start, end, None)),
        Err(_) => {
            let (path, rest) = next_field(rest).ok_or(EditError::FieldCount)?;
            let (start, end, code) = three_fields(rest)?;
            Ok((path, start, end, Some(code)))
        }
    }
}

// `n:NUM:START:END[:CODE]`.
#[tactic(auto, unfolding(crate::specs::Words::new_of))]
pub(crate) fn parse_new(rest: Option<&str>) -> Result<Edit, EditError>
    ensures { Answers (new_of (fields_after (option_map (λ t. t.now) rest.entry))) result }
{
    let (path, start, end, code) = place_fields(rest)?;
    Ok(Edit::New {
        path: new_path_field(path)?,
        start: number_in(start, 0, u64::MAX)?,
        end: end_field(end)?,
        code: typed(code)?,
    })
}
