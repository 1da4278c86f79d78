//! Blocks of free sectors as JSON.

ghost use Rattle.std.specs.Prelude.{◌≡◌, IfOk, OnOk, map, string_bytes};
ghost use Rattle.serde_json.specs.View.{view};
ghost use Rattle.pt_tables.specs.Fields.{array_of, with_fields};
ghost use Rattle.pt_tables.specs.Free.{block_data, free_data, inside_fields};
ghost use Rattle.pt_tables.specs.Text.{IsText};
ghost use Rattle.pt_tables.specs.inner.Objects.{members_in};

use crate::entries::put_end;
use crate::object::{Array, Object};
use pt_edit::FreeBlock;
use serde_json::Value;
use std::alloc::{AllocError, Global};

// Puts the number of what a block lies inside, where there is one.
fn put_inside(alloc: Global, object: &mut Object, inside: Option<u64>) -> Result<(), AllocError>
    ensures { OnOk result (members_in object.new ≡ with_fields (inside_fields inside) (members_in object.old)) }
{
    match inside {
        Some(number) => object.put_number(alloc, "inside", number),
        None => Ok(()),
    }
}

fn block_value(alloc: Global, block: &FreeBlock) -> Result<Value, AllocError>
    ensures { IfOk result (λ v. view v ≡ block_data block.now) }
{
    let mut object = Object::new(alloc);
    object.put_number(alloc, "start", block.first)?;
    put_end(alloc, &mut object, block.first, block.last)?;
    put_inside(alloc, &mut object, block.inside)?;
    Ok(object.into_value())
}

fn list_value(alloc: Global, blocks: &[FreeBlock]) -> Result<Value, AllocError>
    ensures { IfOk result (λ v. view v ≡ array_of (map block_data blocks.now)) }
{
    let mut list = Array::new(alloc);
    for block in blocks {
        list.push(block_value(alloc, block)?)?;
    }
    Ok(list.into_value())
}

fn free_value(alloc: Global, blocks: &[FreeBlock]) -> Result<Value, AllocError>
    ensures { IfOk result (λ v. view v ≡ free_data blocks.now) }
{
    let list = list_value(alloc, blocks)?;
    let mut object = Object::new(alloc);
    object.put(alloc, "freeblocks", list)?;
    Ok(object.into_value())
}

/// Blocks of free sectors, in their order, as one object of JSON with the array `freeblocks`. Each has its `start` and its `size`, and
/// `inside` the number of the extended partition or of the slice that it lies inside. A block of 2^64 sectors has `last` in place of
/// `size`.
///
/// The error is lack of memory.
pub fn free_text(alloc: Global, blocks: &[FreeBlock]) -> Result<String, AllocError>
    ensures { IfOk result (λ text. IsText (string_bytes text) (free_data blocks.now)) }
{
    free_value(alloc, blocks)?.to_string_pretty(alloc)
}
