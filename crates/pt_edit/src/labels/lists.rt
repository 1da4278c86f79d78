//! The labels of a layout as a list.

ghost use Rattle.std.specs.Prelude.{◌≡◌, IfOk};
ghost use Rattle.pt_edit.specs.SliceLabels.{labelled, without_label, relabelled_as, with_label, labels_below, labels_above};
ghost use Rattle.pt_edit.specs.SliceLabels.{with_new_label, lowered_as, lowered, raised_as, raised, without_logicals};

use pt_bsd::Label;
use pt_mbr::FIRST_LOGICAL;
use pt_members::{Labelled, Labels};
use std::alloc::{AllocError, Global};

fn without(mut items: Vec<Labelled>, number: u64) -> Vec<Labelled>
    ensures { result.items ≡ without_label number items.items }
{
    items.retain(|labelled| labelled.number != number);
    items
}

fn below(mut items: Vec<Labelled>, number: u64) -> Vec<Labelled>
    ensures { result.items ≡ labels_below number items.items }
{
    items.retain(|labelled| labelled.number < number);
    items
}

fn above(mut items: Vec<Labelled>, number: u64) -> Vec<Labelled>
    ensures { result.items ≡ labels_above number items.items }
{
    items.retain(|labelled| number < labelled.number);
    items
}

// A label, or another where it is that of a number.
fn relabelled(old: Labelled, number: u64, label: &Label) -> Labelled
    ensures { result ≡ relabelled_as number label.now old }
{
    if old.number == number {
        Labelled {
            number,
            label: *label,
        }
    } else {
        old
    }
}

// A label under the number below its own, where that is above a number.
fn lowered(old: Labelled, number: u64) -> Labelled
    ensures { result ≡ lowered_as number old }
{
    if number < old.number {
        Labelled {
            number: old.number - 1,
            label: old.label,
        }
    } else {
        old
    }
}

// A label under the number above its own, where that isn't below a number.
fn raised(old: Labelled, number: u64) -> Labelled
    ensures { result ≡ raised_as number old }
{
    if old.number < number {
        old
    } else {
        Labelled {
            number: old.number.saturating_add(1),
            label: old.label,
        }
    }
}

/// The labels without that of a number.
pub fn drop_label(labels: Labels, number: u64) -> Labels
    ensures { result ≡ without_label number labels }
{
    Labels::new(without(labels.into_vec(), number))
}

/// The labels with that of a number changed, where it has one.
pub fn put_label(labels: Labels, number: u64, label: &Label) -> Labels
    ensures { result ≡ with_label number label.now labels }
{
    let mut items = labels.into_vec();
    for k in 0..items.len() {
        items[k] = relabelled(items[k], number, label);
    }
    Labels::new(items)
}

/// The labels with one of a number between those of lower and those of higher numbers. A label that the number had
/// goes. The error is lack of memory.
pub fn add_label(
    alloc: Global,
    labels: Labels,
    number: u64,
    label: &Label,
) -> Result<Labels, AllocError>
    ensures { IfOk result (λ made. made ≡ with_new_label number label.now labels) }
{
    let higher = above(Vec::from_slice(alloc, labels.as_slice())?, number);
    let mut items = below(labels.into_vec(), number);
    items.push(Labelled {
        number,
        label: *label,
    })?;
    items.extend_from_slice(&higher)?;
    Ok(Labels::new(items))
}

/// The labels after the logical partition of a number went: without its own, each label of a higher number under the
/// number below.
pub fn lower_labels(labels: Labels, number: u64) -> Labels
    ensures { result ≡ lowered number labels }
{
    let mut items = without(labels.into_vec(), number);
    for k in 0..items.len() {
        items[k] = lowered(items[k], number);
    }
    Labels::new(items)
}

/// The labels before a new logical partition takes a number: each label of that number or a higher one under the
/// number above. The number 18446744073709551615 stays, which no partition of a disk has.
pub fn raise_labels(labels: Labels, number: u64) -> Labels
    ensures { result ≡ raised number labels }
{
    let mut items = labels.into_vec();
    for k in 0..items.len() {
        items[k] = raised(items[k], number);
    }
    Labels::new(items)
}

/// The labels of numbers 1 to 4, after all logical partitions went.
pub fn drop_logical_labels(labels: Labels) -> Labels
    ensures { result ≡ without_logicals labels }
{
    Labels::new(below(labels.into_vec(), FIRST_LOGICAL))
}
