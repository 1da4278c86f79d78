//! The word `t`, another type, and the word `d`, with which a partition goes with all that it holds.

ghost use Rattle.std.specs.Prelude.{◌≡◌, []};
ghost use Rattle.pt_edit.specs.Records.{whole_of};
ghost use Rattle.pt_edit.specs.MbrEdits.{primary_typed, record_typed, primary_deleted, record_deleted};

use crate::labels::{drop_label, drop_logical_labels};
use crate::records::chain_edit::{delete_logical, set_logical_kind};
use crate::records::parts::{MbrParts, is_primary, layout_of, put_record, used_record};
use crate::records::types::{is_container_type, record_type_of};
use pt_mbr::{Record, is_extended_kind};
use pt_members::{Ebrs, Layout};
use pt_words::{Code, Refusal};

// `t` of a record.
#[tactic(auto, unfolding(crate::specs::MbrEdits::primary_typed))]
fn set_record_kind<const B: usize>(
    records: &[Option<Record>; 4],
    number: u64,
    code: &Code,
) -> Result<[Option<Record>; 4], Refusal>
    ensures { result ≡ primary_typed B number code.now records.now }
{
    let mut record = used_record(records, number).ok_or(Refusal::NoSuchPartition)?;
    let kind = record_type_of(code).ok_or(Refusal::UnknownCode)?;
    if is_container_type::<B>(record.kind) || is_container_type::<B>(kind) {
        return Err(Refusal::ContainerType);
    }
    record.kind = kind;
    Ok(put_record(*records, number, Some(record)))
}

/// `t` without a letter: the layout where the record or the logical partition of a number has another type, and
/// nothing else changes. The first of these refusals is reported:
///
/// - `NoSuchPartition`: the number has none.
/// - `UnknownCode`: the code isn't of two digits, or is 00 or EE.
/// - `ContainerType`: the old or the new type is 05, 0F or, with sectors of 512 bytes, A5.
#[tactic(auto, unfolding(crate::specs::MbrEdits::record_typed))]
pub fn set_kind<const B: usize>(
    parts: MbrParts,
    number: u64,
    code: &Code,
) -> Result<Layout, Refusal>
    ensures { result ≡ record_typed B number code.now parts.records parts.chain (whole_of parts) }
{
    let MbrParts {
        sectors,
        records,
        chain,
        labels,
    } = parts;
    if is_primary(number) {
        let records = set_record_kind::<B>(&records, number, code)?;
        return Ok(layout_of(sectors, records, chain, labels));
    }
    let chain = set_logical_kind::<B>(chain, number, code)?;
    Ok(layout_of(sectors, records, chain, labels))
}

// The chain of an extended partition that goes.
fn no_chain(chain: Ebrs) -> Ebrs
    ensures { result ≡ [] }
{
    let mut items = chain.into_vec();
    items.clear();
    Ebrs::new(items)
}

// `d` of a record.
#[tactic(auto, using(crate::proofs::TypesLemmas::told_extended), unfolding(crate::specs::MbrEdits::primary_deleted))]
fn delete_record(parts: MbrParts, number: u64) -> Result<Layout, Refusal>
    ensures { result ≡ primary_deleted number parts.records parts.chain (whole_of parts) }
{
    let MbrParts {
        sectors,
        records,
        chain,
        labels,
    } = parts;
    let record = used_record(&records, number).ok_or(Refusal::NoSuchPartition)?;
    let records = put_record(records, number, None);
    let labels = drop_label(labels, number);
    if is_extended_kind(record.kind) {
        let labels = drop_logical_labels(labels);
        return Ok(layout_of(sectors, records, no_chain(chain), labels));
    }
    Ok(layout_of(sectors, records, chain, labels))
}

/// `d` without a letter: the layout without the record or the logical partition of a number and its label. An extended
/// record goes with its chain, the logical partitions and their labels; a logical partition leaves its extended boot
/// record in the chain, empty. `NoSuchPartition`: the number has none.
#[tactic(auto, unfolding(crate::specs::MbrEdits::record_deleted))]
pub fn delete(parts: MbrParts, number: u64) -> Result<Layout, Refusal>
    ensures { result ≡ record_deleted number parts.records parts.chain (whole_of parts) }
{
    if is_primary(number) {
        return delete_record(parts, number);
    }
    let MbrParts {
        sectors,
        records,
        chain,
        labels,
    } = parts;
    let (chain, labels) = delete_logical(chain, labels, number)?;
    Ok(layout_of(sectors, records, chain, labels))
}
