//! Answers in the form that they are asked for in.

ghost use Rattle.pt_sector.specs.Sectors.{IsSectorSize};
ghost use Rattle.pt_answers.specs.Forms.{InForm, IsFreeJson, IsHuman, IsJson, IsTypes};

use crate::failure::Failure;
use pt_edit::FreeBlock;
use pt_human::page_text;
use pt_layout::Layout;
use pt_line::Form;
use pt_report::Reply;
use pt_tables::{free_text, table_text};
use pt_types::types_text;
use std::alloc::Global;

// The table of an image with sectors of `B` bytes as JSON.
fn json<const B: usize>(alloc: Global, image: &str, layout: &Layout) -> Result<Reply, Failure>
    requires { IsSectorSize B }
    ensures { IsJson B image.now layout.now result }
{
    let mut text = table_text::<B>(alloc, image, layout)?;
    text.push_str("\n")?;
    Ok(Reply::Text(text))
}

// Free blocks as JSON.
fn free_json(alloc: Global, blocks: &[FreeBlock]) -> Result<Reply, Failure>
    ensures { IsFreeJson blocks.now result }
{
    let mut text = free_text(alloc, blocks)?;
    text.push_str("\n")?;
    Ok(Reply::Text(text))
}

// The page of an image with sectors of `B` bytes.
fn page<const B: usize>(alloc: Global, layout: &Layout) -> Result<Reply, Failure>
    requires { IsSectorSize B }
    ensures { IsHuman B layout.now result }
{
    let text = page_text::<B>(alloc, layout)?;
    Ok(Reply::Text(text))
}

/// An answer on an image with sectors of `B` bytes: a table and free blocks may be shown as JSON, a table also as a page for people, and
/// all else is in lines.
pub(crate) fn formed<const B: usize>(
    alloc: Global,
    image: &str,
    form: Form,
    found: Result<Reply, Failure>,
) -> Result<Reply, Failure>
    requires { IsSectorSize B }
    ensures { InForm B image.now form found result }
{
    match (form, found) {
        (Form::Json, Ok(Reply::Layout(layout))) => json::<B>(alloc, image, &layout),
        (Form::Human, Ok(Reply::Layout(layout))) => page::<B>(alloc, &layout),
        (Form::Json, Ok(Reply::Free(blocks))) => free_json(alloc, blocks.as_slice()),
        (_, found) => found,
    }
}

/// The list of partition types.
pub(crate) fn types(alloc: Global) -> Result<Reply, Failure>
    ensures { IsTypes result }
{
    let text = types_text(alloc)?;
    Ok(Reply::Text(text))
}
