ghost use Rattle.std.specs.Prelude.{◌≡◌, ◌+◌, ◌<◌, ◌≤◌, ◌^◌, ◌↔◌, ◌⊎◌, [], List, Some, IfSome, IfOk, IfErr, OnOk, OnErr, ℕ, length};
ghost use Rattle.std.specs.Prelude.{IsTrue};
ghost use Rattle.arrayvec.specs.ArrayVec.{array_vec_len};
ghost use Rattle.pt_sector.specs.Sectors.{IsSectorSize, Span};
ghost use Rattle.pt_sector.specs.Device.{Blames};
ghost use Rattle.pt_sector.specs.Overlays.{OnlyReads};
ghost use Rattle.pt_mbr.specs.declared.chain.ChainError.TheVariants.{Device};
ghost use Rattle.pt_mbr.specs.declared.ebr.Ebr.{Ebr};
ghost use Rattle.pt_mbr.specs.Chain.{lba, span_of, IsInside, EbrAt, FaultAt, Walk, Chain, ChainFault, ChainReads, StandsAt, ReadsAre};
ghost use Rattle.pt_mbr.specs.Chain.{fault_in};
ghost use Rattle.pt_mbr.specs.Changes.{EndsIn};
ghost use Rattle.pt_mbr.specs.inner.Changes.{StepsTo, StepsOut};
ghost use Rattle.pt_mbr.specs.Records.{error_number};
ghost use Rattle.pt_mbr.specs.Sentences.{chain_error_sentence};

use crate::ebr::{Ebr, EbrFault, decode_ebr};
use arrayvec::ArrayVec;
use pt_sector::{Disk, Extent, FailedRead, Lba, Sector, read_sector};
use std::error::Error;
use std::fmt;

/// The most extended boot records that a chain has. This project's choice.
pub const MOST_EBRS: usize = 128;

/// Why an extended partition has no chain. The first fault on the way is reported; the place is that of the extended boot
/// record at fault.
#[derive(Clone, Copy, Debug, PartialEq, Eq)]
pub enum ChainError {
    /// Its bytes 510 and 511 aren't 55 AA.
    NoSignature(Lba),
    /// One of its records may not stand in an extended boot record: [`EbrFault::BadRecord`].
    BadRecord(Lba),
    /// It links to itself or to a sector below.
    NotUpward(Lba),
    /// The place of an extended boot record that isn't in the extended partition or isn't on the disk.
    OutsideExtended(Lba),
    /// The 128th extended boot record links to one more.
    TooLong,
    /// The read of this sector failed.
    Device(Lba),
}

impl ChainError {
    /// The number that stands for it in what is printed, from 1 to 6 in the order of the variants.
    pub fn number(self) -> u8
        ensures { result ≡ error_number self }
    {
        match self {
            ChainError::NoSignature(_) => 1,
            ChainError::BadRecord(_) => 2,
            ChainError::NotUpward(_) => 3,
            ChainError::OutsideExtended(_) => 4,
            ChainError::TooLong => 5,
            ChainError::Device(_) => 6,
        }
    }
}

impl fmt::Display for ChainError {
    ghost output = { λ error. Some (chain_error_sentence error) };

    fn fmt<W: fmt::Write>(&self, f: &mut fmt::Formatter<W>) -> fmt::Result {
        match self {
            ChainError::NoSignature(at) => {
                write!(f, "the extended boot record at sector {} lacks 55 AA", at.0)
            }
            ChainError::BadRecord(at) => write!(
                f,
                "the extended boot record at sector {} has a record that it may not have",
                at.0
            ),
            ChainError::NotUpward(at) => write!(
                f,
                "the link at sector {} leads to its own sector or to a lower one",
                at.0
            ),
            ChainError::OutsideExtended(at) => write!(
                f,
                "the chain leads to sector {}, outside the extended partition or the disk",
                at.0
            ),
            ChainError::TooLong => {
                f.write_str("the chain has more than 128 extended boot records")
            }
            ChainError::Device(at) => write!(f, "sector {} can't be read", at.0),
        }
    }
}

impl Error for ChainError {}

impl From<FailedRead> for ChainError {
    ghost from_gives = { λ failed e. e ≡ Device failed.0 };

    fn from(failed: FailedRead) -> ChainError {
        ChainError::Device(failed.0)
    }
}

fn first_of(extent: &Extent) -> Lba
    ensures start { result ≡ lba (span_of extent.now).first }
    ensures small { result.0 < 2 ^ 63 }
{
    extent.first()
}

fn is_inside(extent: &Extent, sectors: u64, at: Lba) -> bool
    ensures { IsTrue result ↔ IsInside (span_of extent.now) sectors at }
{
    extent.first().0 <= at.0 && at.0 <= extent.last().0 && at.0 < sectors
}

// The extended boot record at a place that some others lead to.
fn read_ebr<const B: usize, D: Disk<B>>(
    disk: &mut D,
    extent: &Extent,
    at: Lba,
) -> Result<Ebr, ChainError>
    requires size { IsSectorSize B }
    requires inside { IsInside (span_of extent.now) (D.count disk.old) at }
    ensures same { OnlyReads D.Disk disk.old disk.new }
    ensures blames { Blames fault_in result (D.faults disk.old) (D.faults disk.new) }
    ensures ok { D.tells → IfOk result (λ e. EbrAt (D.told disk.old).seen (span_of extent.now) at e) }
    ensures err { D.tells → IfErr result (λ e. (list : List Ebr) → length list < 128
        → Walk (D.told disk.old).seen (span_of extent.now) (Some (lba (span_of extent.now).first)) list (Some at)
        → EndsIn (D.told disk.old).seen (span_of extent.now) list e) }
{
    let mut sector = [0; B];
    read_sector(disk, at, &mut sector)?;
    match decode_ebr(&sector, first_of(extent), at) {
        Ok(ebr) => Ok(ebr),
        Err(EbrFault::NoSignature) => Err(ChainError::NoSignature(at)),
        Err(EbrFault::BadRecord) => Err(ChainError::BadRecord(at)),
    }
}

// One more extended boot record: where the next one stands, none at the chain's end.
fn step<const B: usize, D: Disk<B>>(
    disk: &mut D,
    extent: &Extent,
    at: Lba,
    list: &mut ArrayVec<Ebr, MOST_EBRS>,
) -> Result<Option<Lba>, ChainError>
    requires size { IsSectorSize B }
    requires inside { IsInside (span_of extent.now) (D.count disk.old) at }
    requires room { array_vec_len list.old < 128 }
    ensures same { OnlyReads D.Disk disk.old disk.new }
    ensures blames { Blames fault_in result (D.faults disk.old) (D.faults disk.new) }
    ensures one_more { OnOk result (array_vec_len list.new ≡ array_vec_len list.old + 1) }
    ensures next { IfOk result (λ o. IfSome o (λ next. IsInside (span_of extent.now) (D.count disk.old) next)) }
    ensures ok { D.tells → IfOk result (λ o. StepsTo (D.told disk.old).seen (span_of extent.now) list.old.items at list.new.items o) }
    ensures err { D.tells → IfErr result (λ e. StepsOut (D.told disk.old).seen (span_of extent.now) list.old.items at list.new.items e) }
{
    let sectors = disk.sectors();
    let ebr = read_ebr(disk, extent, at)?;
    list.push(ebr);
    let next = match ebr.next {
        Some(next) => next,
        None => return Ok(None),
    };
    if next.0 <= at.0 {
        return Err(ChainError::NotUpward(at));
    }
    if !is_inside(extent, sectors, next) {
        return Err(ChainError::OutsideExtended(next));
    }
    Ok(Some(next))
}

// The chain, or the fault that ends the way, with what was decoded up to there.
fn follow<const B: usize, D: Disk<B>>(
    disk: &mut D,
    extent: &Extent,
    list: &mut ArrayVec<Ebr, MOST_EBRS>,
) -> Result<(), ChainError>
    requires size { IsSectorSize B }
    requires empty { list.old.items ≡ [] }
    ensures same { OnlyReads D.Disk disk.old disk.new }
    ensures blames { Blames fault_in result (D.faults disk.old) (D.faults disk.new) }
    ensures ok { D.tells → OnOk result (Chain (D.told disk.old).seen (span_of extent.now) list.new.items) }
    ensures err { D.tells → IfErr result (λ e. EndsIn (D.told disk.old).seen (span_of extent.now) list.new.items e) }
{
    let sectors = disk.sectors();
    let mut at = first_of(extent);
    if !is_inside(extent, sectors, at) {
        return Err(ChainError::OutsideExtended(at));
    }
    for _ in 0..MOST_EBRS {
        match step(disk, extent, at, list)? {
            Some(next) => at = next,
            None => return Ok(()),
        }
    }
    Err(ChainError::TooLong)
}

/// Reads the chain of the extended partition `extent` into `list`, which is empty: in order, each extended boot record
/// once.
///
/// After an `Err` the list holds those that were decoded up to the fault, that of `NotUpward` and the 128th of
/// `TooLong` among them. The sectors read are those of the list and, of `NoSignature` and `BadRecord`, the one at
/// fault; none that `OutsideExtended` names is read.
#[tactic(auto, using(crate::proofs::Reading::reads_are))]
pub fn walk_chain<const B: usize, D: Disk<B>>(
    disk: &mut D,
    extent: &Extent,
    list: &mut ArrayVec<Ebr, MOST_EBRS>,
) -> Result<(), ChainError>
    requires size { IsSectorSize B }
    requires empty { list.old.items ≡ [] }
    ensures same { OnlyReads D.Disk disk.old disk.new }
    ensures blames { Blames fault_in result (D.faults disk.old) (D.faults disk.new) }
    ensures ok { D.tells → OnOk result (Chain (D.told disk.old).seen (span_of extent.now) list.new.items) }
    ensures err { D.tells → IfErr result (λ e. ChainFault (D.told disk.old).seen (span_of extent.now) e) }
    ensures decoded { D.tells → IfErr result (λ e. EndsIn (D.told disk.old).seen (span_of extent.now) list.new.items e) }
    ensures read_ok { D.tells → OnOk result ((s : ℕ) → ChainReads (D.told disk.old).seen (span_of extent.now) s
        ↔ StandsAt s list.new.items) }
    ensures read_err { D.tells → IfErr result (λ e. ReadsAre (D.told disk.old).seen (span_of extent.now) list.new.items e) }
{
    follow(disk, extent, list)?;
    Ok(())
}

/// Reads the chain of an extended partition: its extended boot records in order, each read once, the empty ones too.
///
/// The first stands in the extent's first sector; links lead upward, within the extent; there are at most 128. It
/// takes no memory. An `Err` is the first fault on the way: at each place first whether it is inside the extent and on
/// the disk, then what the device says, the signature, the records, and of its link whether it leads upward, inside,
/// and to a 129th.
pub fn read_chain<const B: usize, D: Disk<B>>(
    disk: &mut D,
    extent: Extent,
) -> Result<ArrayVec<Ebr, MOST_EBRS>, ChainError>
    requires size { IsSectorSize B }
    ensures same { OnlyReads D.Disk disk.old disk.new }
    ensures blames { Blames fault_in result (D.faults disk.old) (D.faults disk.new) }
    ensures ok { D.tells → IfOk result (λ list. Chain (D.told disk.old).seen (span_of extent) list.items) }
    ensures err { D.tells → IfErr result (λ e. ChainFault (D.told disk.old).seen (span_of extent) e) }
{
    let mut list = ArrayVec::new();
    walk_chain(disk, &extent, &mut list)?;
    Ok(list)
}
