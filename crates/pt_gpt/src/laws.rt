//! What is true of every disk and all bytes: empty functions whose contracts are the laws.
//!
//! The terms that they stand on are in proofs/Terms.antt, for contracts above to cite.

ghost use Rattle.std.specs.Prelude.{◌≡◌, ◌≤◌, ◌⊎◌, ◌↔◌, ℕ, List, Option, length};
ghost use Rattle.pt_sector.specs.Sectors.{Sectors, Agrees, IsSectorSize};
ghost use Rattle.pt_gpt.specs.Copies.{HeaderBytes, IsHeaderFault, AreEntries, AllFit, AllTyped, array_bytes, header_place, IsHead};
ghost use Rattle.pt_gpt.specs.Copies.{IsHeadFault, Copy, HasCopy, IsCopyFault, InArray, SideReads, SameSide, CopyWith, IsWrittenCopy};
ghost use Rattle.pt_gpt.specs.Entries.{EntryBytes, IsTyped};
ghost use Rattle.pt_gpt.specs.declared.header.Header.{Header};
ghost use Rattle.pt_gpt.specs.declared.entry.Entry.{Entry};
ghost use Rattle.pt_gpt.specs.declared.error.CopyError.{CopyError};
ghost use Rattle.pt_gpt.specs.declared.table.Side.{Side};
ghost use Rattle.pt_gpt.specs.declared.table.Table.{Table};

use crate::entry::{Entry, decode_entry, encode_entry};
use crate::error::CopyError;
use crate::header::{Header, decode_header, encode_header};

/// Bytes are one header at most.
pub fn header_is_one()
    ensures { (b : ℕ) (h k : Header) (bytes : List ℕ) → HeaderBytes b h bytes → HeaderBytes b k bytes → h ≡ k }
{}

/// A header is read back from its sector.
pub fn header_reads_back<const B: usize>(header: &Header) -> Result<Header, CopyError>
    requires { IsSectorSize B }
    ensures { result ≡ Ok header.now }
{
    decode_header::<B>(&encode_header::<B>(header))
}

/// An entry is read back from its bytes, where its type isn't zero.
pub fn entry_reads_back(entry: &Entry) -> Option<Entry>
    requires { IsTyped entry.now }
    ensures { result ≡ Some entry.now }
{
    decode_entry(&encode_entry(Some(entry)))
}

/// Bytes with a header's fault are no header.
pub fn no_header()
    ensures { (b : ℕ) (e : CopyError) (h : Header) (bytes : List ℕ) → IsHeaderFault b e bytes → ¬ HeaderBytes b h bytes }
{}

/// Bytes are one entry at most, and one list of entries at most.
pub fn entry_is_one()
    ensures one { (e f : Entry) (bytes : List ℕ) → EntryBytes e bytes → EntryBytes f bytes → e ≡ f }
    ensures all { (es fs : List (Option Entry)) (bytes : List ℕ) → AreEntries es bytes → AreEntries fs bytes → es ≡ fs }
{}

/// A side has one copy at most.
pub fn copy_is_one()
    ensures { (b : ℕ) (d : Sectors) (side : Side) (t u : Table) → Copy b d side t → Copy b d side u → t ≡ u }
{}

/// A side with a fault has no copy, and with a header's fault no header of a table.
pub fn no_copy()
    ensures copy { (b : ℕ) (d : Sectors) (side : Side) (e : CopyError) → IsCopyFault b d side e → ¬ HasCopy b d side }
    ensures head { (b : ℕ) (d : Sectors) (side : Side) (e : CopyError) (h : Header) → IsHeadFault b d side e → ¬ IsHead b d side h }
{}

/// A side has one fault at most, the first rule that fails.
pub fn fault_is_one()
    ensures { (b : ℕ) (d : Sectors) (side : Side) (e f : CopyError) → IsCopyFault b d side e → IsCopyFault b d side f → e ≡ f }
{}

/// A disk that agrees with another on the sectors that decide a side has the same there.
pub fn side_reads_decide()
    ensures { (b : ℕ) (side : Side) (c d : Sectors) → Agrees (SideReads b d side) c d → SameSide b side c d }
{}

/// Which sectors decide a side: where its header stands, that one and the counted ones of its array; else that one.
pub fn side_reads_are()
    ensures head { (b : ℕ) (d : Sectors) (side : Side) (h : Header) → IsHead b d side h → (s : ℕ)
        → SideReads b d side s ↔ ((s ≡ header_place side (length d)) ⊎ InArray b h s) }
    ensures fault { (b : ℕ) (d : Sectors) (side : Side) (e : CopyError) → IsHeadFault b d side e → (s : ℕ)
        → SideReads b d side s ↔ (s ≡ header_place side (length d)) }
{}

/// A copy has from 1 to 128 entries, and each that is used has a type.
pub fn copy_is_shaped()
    ensures count { (b : ℕ) (d : Sectors) (side : Side) (t : Table) → Copy b d side t → (1 ≤ length t.entries) × (length t.entries ≤ 128) }
    ensures typed { (b : ℕ) (d : Sectors) (side : Side) (t : Table) → Copy b d side t → AllTyped t.entries }
{}

/// What entries are written as is those entries, where they have types and their numbers fit.
pub fn entries_read_back()
    ensures { (es : List (Option Entry)) → AllFit es → AllTyped es → AreEntries es (array_bytes es) }
{}

/// A header, and an array that is written as a table's entries, are that table's copy.
pub fn written_is_copy()
    ensures { (b : ℕ) (d : Sectors) (side : Side) (h : Header) (t : Table) → IsSectorSize b → AllFit t.entries → AllTyped t.entries
        → IsWrittenCopy b d side h t → CopyWith b d side h t }
{}
