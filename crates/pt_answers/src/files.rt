//! Files that are read: those of a plan, of a table's text, and of runs of sectors.

ghost use Rattle.std.specs.Prelude.{◌≡◌, ◌≢◌, ◌≤◌, ◌<◌, ◌+◌, length, take, count_by, IfOk, IfErr, OnOk, IfSome, IsUtf8, Some};
ghost use Rattle.std.specs.String.{string_bytes};
ghost use Rattle.pt_sector.specs.Sectors.{IsSectorSize};
ghost use Rattle.pt_answers.specs.Data.{ReadsRuns};
ghost use Rattle.pt_answers.specs.Images.{IsPlanAt, ReadsPlan, line_feeds};
ghost use Rattle.pt_answers.specs.Sets.{ReadsDraft};
ghost use Rattle.pt_answers.specs.Texts.{IsTextAt};
ghost use Rattle.pt_answers.specs.declared.failure.TextOf.TheVariants.{Data, Table};
ghost use Rattle.pt_answers.specs.inner.Answers.{IsNoText, IsUnreadable, ReadsText};

use crate::failure::{Failure, NoText, TextOf};
use crate::images::Images;
use pt_apply::{Plan, PlanTextError, read_plan};
use pt_carry::read_runs;
use pt_drafts::{Draft, read_draft};
use pt_sector::Extent;
use std::alloc::Global;
use std::io::{ErrorKind, Read};

/// The most bytes that such a text may have, 8 MiB.
const MOST: usize = 8_388_608;

/// The bytes that a reader begins with, one more than a text may have at most.
fn first_bytes<T: Read + Drop>(alloc: Global, reader: T) -> Result<Vec<u8>, Failure>
    ensures ok { IfOk result (λ bytes. IfSome (T.remaining reader) (λ all. bytes.items ≡ take (MOST + 1) all)) }
    ensures err { IfErr result IsUnreadable }
{
    let mut bytes = Vec::new(alloc);
    let mut start = reader.take(MOST as u64 + 1);
    match start.read_to_end(&mut bytes) {
        Ok(_) => Ok(bytes),
        Err(error) => {
            if error.kind() == ErrorKind::OutOfMemory {
                Err(Failure::Memory)
            } else {
                Err(Failure::Device)
            }
        }
    }
}

/// The text of a file's bytes, where it isn't too long and is UTF-8.
fn text_of(bytes: Vec<u8>) -> Result<String, NoText>
    ensures ok { IfOk result (λ text. string_bytes text ≡ bytes.items) }
    ensures short { OnOk result (length bytes.items ≤ MOST) }
    ensures err { IfErr result (IsNoText bytes.items) }
{
    if bytes.len() > MOST {
        return Err(NoText::TooLong);
    }
    match String::from_utf8(bytes) {
        Ok(text) => Ok(text),
        Err(_) => Err(NoText::NotUtf8),
    }
}

fn count_lines(text: &str) -> u64
    ensures { result ≡ line_feeds text.now }
{
    text.as_bytes()
        .iter()
        .filter(|byte| **byte == b'\n')
        .count() as u64
}

/// The plan of a text that isn't too long.
fn plan_of<const B: usize>(alloc: Global, text: &str) -> Result<Plan<B>, Failure>
    requires size { IsSectorSize B }
    requires short { length text.now ≤ MOST }
    ensures { ReadsPlan B (Some text.now) result }
{
    match read_plan::<B>(alloc, text) {
        Ok(plan) => Ok(plan),
        Err(PlanTextError::BadLine(line)) => Err(Failure::PlanText(line)),
        Err(PlanTextError::NoFinalFlush) => Err(Failure::PlanText(count_lines(text))),
        Err(PlanTextError::Memory) => Err(Failure::Memory),
    }
}

/// The plan in a file that was opened.
///
/// `Device` where it can't be read, `PlanText` where it holds no plan's text.
fn plan_in<const B: usize, T: Read + Drop>(alloc: Global, file: T) -> Result<Plan<B>, Failure>
    requires { IsSectorSize B }
    ensures { ReadsPlan B (T.remaining file) result }
{
    match text_of(first_bytes(alloc, file)?) {
        Ok(text) => plan_of::<B>(alloc, text.as_str()),
        Err(_) => Err(Failure::PlanText(0)),
    }
}

/// The plan in the file at a path.
pub(crate) fn plan_at<const B: usize, I: Images<B>>(
    alloc: Global,
    images: &mut I,
    path: &str,
) -> Result<Plan<B>, Failure>
    requires { IsSectorSize B }
    ensures { IsPlanAt B I.File.remaining path.now (I.past images.old) (I.past images.new) result }
{
    let file = images.open_plan(path)?;
    plan_in::<B, I::File>(alloc, file)
}

/// The text in a file that was opened, a table's or that of runs of sectors.
fn text_in<T: Read + Drop>(alloc: Global, of: TextOf, file: T) -> Result<String, Failure>
    ensures reads { ReadsText of (T.remaining file) result }
    ensures short { IfOk result (λ text. length (string_bytes text) ≤ MOST) }
{
    match first_bytes(alloc, file) {
        Ok(bytes) => match text_of(bytes) {
            Ok(text) => Ok(text),
            Err(why) => Err(Failure::NoText(of, why)),
        },
        Err(Failure::Memory) => Err(Failure::Memory),
        Err(_) => Err(Failure::NoText(of, NoText::Unreadable)),
    }
}

// The draft of a text that isn't too long.
fn draft_of(alloc: Global, text: &str) -> Result<Draft, Failure>
    requires short { length text.now ≤ MOST }
    ensures { ReadsDraft (Some text.now) result }
{
    Ok(read_draft(alloc, text)?)
}

/// The draft in a file that was opened.
fn draft_in<T: Read + Drop>(alloc: Global, file: T) -> Result<Draft, Failure>
    ensures { ReadsDraft (T.remaining file) result }
{
    let text = text_in(alloc, TextOf::Table, file)?;
    draft_of(alloc, text.as_str())
}

/// The draft in the file at a path.
pub(crate) fn draft_at<const B: usize, I: Images<B>>(
    alloc: Global,
    images: &mut I,
    path: &str,
) -> Result<Draft, Failure>
    ensures { IsTextAt ReadsDraft Table I.File.remaining path.now (I.past images.old) (I.past images.new) result }
{
    match images.open_table(path) {
        Ok(file) => draft_in::<I::File>(alloc, file),
        Err(_) => Err(Failure::NoText(TextOf::Table, NoText::Unreadable)),
    }
}

// The runs of a text that isn't too long.
fn runs_of(alloc: Global, text: &str) -> Result<Vec<Extent>, Failure>
    requires short { length text.now ≤ MOST }
    ensures { ReadsRuns (Some text.now) result }
{
    Ok(read_runs(alloc, text)?)
}

/// The runs of sectors in a file that was opened.
fn runs_in<T: Read + Drop>(alloc: Global, file: T) -> Result<Vec<Extent>, Failure>
    ensures { ReadsRuns (T.remaining file) result }
{
    let text = text_in(alloc, TextOf::Data, file)?;
    runs_of(alloc, text.as_str())
}

/// The runs of sectors in the file at a path.
pub(crate) fn runs_at<const B: usize, I: Images<B>>(
    alloc: Global,
    images: &mut I,
    path: &str,
) -> Result<Vec<Extent>, Failure>
    ensures { IsTextAt ReadsRuns Data I.File.remaining path.now (I.past images.old) (I.past images.new) result }
{
    match images.open_table(path) {
        Ok(file) => runs_in::<I::File>(alloc, file),
        Err(_) => Err(Failure::NoText(TextOf::Data, NoText::Unreadable)),
    }
}
