//! Words in order, and the state that they are folded over.

ghost use Rattle.std.specs.Prelude.{◌≡◌, ◌≢◌, ◌≤◌, IfOk, IfErr, Ok, Err, length, IfSome, ok_or};
ghost use Rattle.std.specs.Option.{option_map};
ghost use Rattle.pt_sector.specs.Sectors.{IsSectorSize};
ghost use Rattle.pt_words.specs.declared.error.Refusal.TheVariants.{NotForThisTable};
ghost use Rattle.pt_edit.specs.Edited.{emptied, made_of, step_of, step, taken_by, edited_from, Edited};
ghost use Rattle.pt_edit.specs.inner.Edited.{state_of};

use crate::convert::to_gpt;
use crate::entries::{rename, set_bit, set_unique};
use crate::gpt::{empty, extend, set_disk};
use crate::partitions::guids_for;
use crate::paths::{delete, new, set_kind};
use pt_gpt::has_room;
use pt_guid::Guid;
use pt_members::{Body, Layout};
use pt_words::{Asked, Edit, Refusal};
use std::alloc::{AllocError, Global};

/// The alignment of starts before a word says another, in bytes.
const FIRST_ALIGNMENT: usize = 1 << 20;

/// A layout or nothing, the alignment of starts in sectors, and how many of the fresh GUIDs are taken.
#[derive(Drop)]
pub struct State {
    pub layout: Option<Layout>,
    pub alignment: u64,
    pub taken: usize,
}

// The state after `o`.
#[tactic(auto, using(crate::proofs::Folding::next), unfolding(crate::specs::Edited::emptied))]
fn take_empty<const B: usize>(
    alloc: Global,
    state: &State,
    sectors: u64,
    guids: &[Guid],
) -> Result<State, Refusal>
    requires size { IsSectorSize B }
    requires taken { state.now.taken ≤ length guids.now }
    ensures taken { IfOk result (λ made. made.taken ≤ length guids.now) }
    ensures ok { IfOk result (λ made. emptied B sectors (state_of guids.now state.now) ≡ Ok (state_of guids.now made)) }
    ensures err { IfErr result (λ refusal. refusal ≢ Refusal.Memory
        → emptied B sectors (state_of guids.now state.now) ≡ Err refusal) }
{
    if !has_room::<B>(sectors) {
        return Err(Refusal::NoRoomForGpt);
    }
    if state.taken >= guids.len() {
        return Err(Refusal::NoFreshGuid);
    }
    let layout = empty::<B>(alloc, sectors, &guids[state.taken])?;
    Ok(State {
        layout: Some(layout),
        alignment: state.alignment,
        taken: state.taken + 1,
    })
}

// The layout after a word that needs one, with an alignment and the fresh GUIDs that are left.
#[tactic(auto, unfolding(crate::specs::Edited::made_of))]
fn take_on<const B: usize>(
    alloc: Global,
    layout: Layout,
    word: &Edit,
    alignment: u64,
    fresh: &[Guid],
) -> Result<Layout, Refusal>
    requires size { IsSectorSize B }
    ensures ok { IfOk result (λ made. made_of B alignment fresh.now word.now layout ≡ Ok made) }
    ensures err { IfErr result (λ refusal. refusal ≢ Refusal.Memory → made_of B alignment fresh.now word.now layout ≡ Err refusal) }
{
    match word {
        Edit::New {
            path,
            start,
            end,
            code,
        } => {
            let asked = Asked {
                number: path.number,
                alignment,
                start: *start,
                end: *end,
                code: *code,
            };
            new::<B>(alloc, layout, path.letter, &asked, fresh)
        }
        Edit::SetName(number, name) => rename(layout, *number, name.as_str()),
        Edit::SetUnique(number, guid) => set_unique(layout, *number, guid),
        Edit::SetDisk(guid) => set_disk(layout, guid),
        Edit::SetBit(number, bit, value) => set_bit(layout, *number, *bit, *value),
        Edit::Extend => extend::<B>(layout),
        Edit::SetKind(path, code) => set_kind::<B>(layout, path, code),
        Edit::Delete(path) => delete::<B>(layout, path),
        Edit::ToGpt => to_gpt::<B>(alloc, layout, fresh),
        // These need no layout, and are taken before.
        Edit::Align(_) | Edit::Empty => Err(Refusal::NotForThisTable),
    }
}

// How many fresh GUIDs a word takes.
fn guids_of(word: &Edit, layout: &Layout) -> usize
    ensures { result ≡ taken_by word.now layout.now }
{
    match (word, &layout.body) {
        (Edit::New { path, .. }, Body::Gpt(_)) if path.letter.is_none() => 1,
        (Edit::ToGpt, _) => guids_for(layout),
        _ => 0,
    }
}

// The state after a word that needs a layout.
#[tactic(auto, using(crate::proofs::Folding::state_after, crate::proofs::Folding::left), unfolding(crate::specs::Edited::step_of))]
fn take_layout<const B: usize>(
    alloc: Global,
    state: State,
    word: &Edit,
    guids: &[Guid],
) -> Result<State, Refusal>
    requires size { IsSectorSize B }
    requires taken { state.taken ≤ length guids.now }
    ensures ok { IfOk result (λ made. step_of B word.now (state_of guids.now state) ≡ Ok (state_of guids.now made)) }
    ensures err { IfErr result (λ refusal. refusal ≢ Refusal.Memory → step_of B word.now (state_of guids.now state) ≡ Err refusal) }
    ensures taken { IfOk result (λ made. made.taken ≤ length guids.now) }
{
    let State {
        layout,
        alignment,
        taken,
    } = state;
    let layout = layout.ok_or(Refusal::NotForThisTable)?;
    let count = guids_of(word, &layout);
    let layout = take_on::<B>(alloc, layout, word, alignment, &guids[taken..])?;
    Ok(State {
        layout: Some(layout),
        alignment,
        taken: taken + count,
    })
}

// The state after a word.
fn take_word<const B: usize>(
    alloc: Global,
    state: State,
    word: &Edit,
    sectors: u64,
    guids: &[Guid],
) -> Result<State, Refusal>
    requires size { IsSectorSize B }
    requires taken { state.taken ≤ length guids.now }
    ensures ok { IfOk result (λ made. step B sectors word.now (state_of guids.now state) ≡ Ok (state_of guids.now made)) }
    ensures err { IfErr result (λ refusal. refusal ≢ Refusal.Memory
        → step B sectors word.now (state_of guids.now state) ≡ Err refusal) }
    ensures taken { IfOk result (λ made. made.taken ≤ length guids.now) }
{
    match word {
        Edit::Align(k) => Ok(State {
            layout: state.layout,
            alignment: *k,
            taken: state.taken,
        }),
        Edit::Empty => take_empty::<B>(alloc, &state, sectors, guids),
        _ => take_layout::<B>(alloc, state, word, guids),
    }
}

// A copy of the layout before the words.
fn copy_of(alloc: Global, old: Option<&Layout>) -> Result<Option<Layout>, AllocError>
    ensures { IfOk result (λ made. made ≡ option_map (λ o. o.now) old.entry) }
{
    match old {
        Some(layout) => Ok(Some(layout.copy(alloc)?)),
        None => Ok(None),
    }
}

// The state after the words, in order.
#[tactic(auto, unfolding(crate::specs::Edited::edited_from))]
fn take_words<const B: usize>(
    alloc: Global,
    first: State,
    sectors: u64,
    edits: &[Edit],
    guids: &[Guid],
) -> Result<State, Refusal>
    requires size { IsSectorSize B }
    requires taken { first.taken ≤ length guids.now }
    ensures ok { IfOk result (λ made. edited_from B sectors edits.now (state_of guids.now first) ≡ ok_or made.layout NotForThisTable) }
    ensures err { IfErr result (λ refusal. refusal ≢ Refusal.Memory
        → edited_from B sectors edits.now (state_of guids.now first) ≡ Err refusal) }
{
    let mut state = first;
    for word in edits {
        state = take_word::<B>(alloc, state, word, sectors, guids)?;
    }
    Ok(state)
}

// What a last state is.
fn ended(state: State) -> Result<Layout, Refusal>
    ensures { result ≡ ok_or state.layout NotForThisTable }
{
    state.layout.ok_or(Refusal::NotForThisTable)
}

/// What the words make, in order, of the layout of a disk of so many sectors, or of nothing where the disk denotes nothing. The first
/// refusal ends the call, and `old` stays as it is.
///
/// Each new GUID is the next of `guids`. Memory is taken for the new layout.
pub fn edit<const B: usize>(
    alloc: Global,
    old: Option<&Layout>,
    sectors: u64,
    edits: &[Edit],
    guids: &[Guid],
) -> Result<Layout, Refusal>
    requires size { IsSectorSize B }
    requires same { IfSome old (λ o. o.now.sectors ≡ sectors) }
    ensures ok { IfOk result (λ made. Edited B sectors (option_map (λ o. o.now) old.entry) edits.now guids.now (Ok made)) }
    ensures err { IfErr result (λ refusal. refusal ≢ Refusal.Memory
        → Edited B sectors (option_map (λ o. o.now) old.entry) edits.now guids.now (Err refusal)) }
{
    let first = State {
        layout: copy_of(alloc, old)?,
        alignment: (FIRST_ALIGNMENT / B) as u64,
        taken: 0,
    };
    ended(take_words::<B>(alloc, first, sectors, edits, guids)?)
}
