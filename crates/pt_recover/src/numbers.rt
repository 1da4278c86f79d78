//! The numbers of records have 32 bits. Their types say so; contracts above see a layout as a value without types.

ghost use Rattle.std.specs.Prelude.{◌<◌, ◌^◌, All};
ghost use Rattle.pt_recover.specs.Denotes.{SlotNumbers, EbrNumbers, BodyNumbers};

use pt_mbr::{Ebr, Record};
use pt_members::Body;

fn has_32_bits(_number: u32)
    ensures { _number < 2 ^ 32 }
{}

fn slot_numbers(slot: &Option<Record>)
    ensures { SlotNumbers slot.now }
{
    if let Some(found) = slot {
        has_32_bits(found.start);
        has_32_bits(found.size);
    }
}

fn records_numbers(records: &[Option<Record>; 4])
    ensures { All SlotNumbers records.now }
{
    for k in 0..4usize {
        slot_numbers(&records[k]);
    }
}

fn chain_numbers(chain: &[Ebr])
    ensures { All EbrNumbers chain.now }
{
    for k in 0..chain.len() {
        slot_numbers(&chain[k].logical);
    }
}

/// That the starts and sizes of a body's records have 32 bits.
pub(crate) fn body_numbers(body: &Body)
    ensures { BodyNumbers body.now }
{
    match body {
        Body::Mbr { records, chain } => {
            records_numbers(records);
            chain_numbers(chain.as_slice());
        }
        Body::Gpt(_) => {}
    }
}
