//! Logical partitions by their numbers: another type for one, and none.

ghost use Rattle.std.specs.Prelude.{◌≡◌, ◌<◌, IfSome, length};
ghost use Rattle.pt_edit.specs.Chains.{logical_of, with_logical, logical_typed, logical_deleted};

use crate::labels::lower_labels;
use crate::records::types::{is_container_type, record_type_of};
use pt_mbr::{Ebr, FIRST_LOGICAL, Record};
use pt_members::{Ebrs, Labels};
use pt_words::{Code, Refusal};

// The place of a logical partition's extended boot record, and its record.
fn find_logical(chain: &[Ebr], number: u64) -> Option<(usize, Record)>
    ensures value { result ≡ logical_of chain.now number }
    ensures within { IfSome result (λ r. r.0 < length chain.now) }
{
    let mut next = FIRST_LOGICAL;
    for k in 0..chain.len() {
        if let Some(record) = chain[k].logical {
            if next == number {
                return Some((k, record));
            }
            next += 1;
        }
    }
    None
}

// The chain with another logical partition, or none, in the extended boot record at a place.
pub(crate) fn put_logical(chain: Ebrs, k: usize, logical: Option<Record>) -> Ebrs
    requires { k < length chain }
    ensures { result ≡ with_logical chain k logical }
{
    let mut items = chain.into_vec();
    let mut ebr = items[k];
    ebr.logical = logical;
    items[k] = ebr;
    Ebrs::new(items)
}

/// The chain where the logical partition of this number has another type. The first of these refusals is reported:
///
/// - `NoSuchPartition`: there is no such logical partition.
/// - `UnknownCode`: the code isn't of two digits, or is 00 or EE.
/// - `ContainerType`: the old or the new type is 05, 0F or, with sectors of 512 bytes, A5.
#[tactic(auto, unfolding(crate::specs::Chains::logical_typed))]
pub fn set_logical_kind<const B: usize>(
    chain: Ebrs,
    number: u64,
    code: &Code,
) -> Result<Ebrs, Refusal>
    ensures { result ≡ logical_typed B number code.now chain }
{
    let found = find_logical(chain.as_slice(), number);
    let (k, mut record) = found.ok_or(Refusal::NoSuchPartition)?;
    let kind = record_type_of(code).ok_or(Refusal::UnknownCode)?;
    if is_container_type::<B>(record.kind) || is_container_type::<B>(kind) {
        return Err(Refusal::ContainerType);
    }
    record.kind = kind;
    Ok(put_logical(chain, k, Some(record)))
}

/// The chain without the logical partition of this number, and the labels without its own. Its extended boot record
/// stays, empty, and each higher logical partition has the number below its own from now on, with its label.
///
/// `NoSuchPartition` where there is no such logical partition.
#[tactic(auto, unfolding(crate::specs::Chains::logical_deleted))]
pub fn delete_logical(chain: Ebrs, labels: Labels, number: u64) -> Result<(Ebrs, Labels), Refusal>
    ensures { result ≡ logical_deleted number chain labels }
{
    let found = find_logical(chain.as_slice(), number);
    let (k, _) = found.ok_or(Refusal::NoSuchPartition)?;
    Ok((put_logical(chain, k, None), lower_labels(labels, number)))
}
