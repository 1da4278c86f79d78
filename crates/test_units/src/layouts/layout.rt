//! Layouts made by hand, and small disks. Layouts on disks are tested with the command.

ghost use Rattle.pt_sector.specs.Sectors.{IsSectorSize};

use pt_bsd::{Label, LabelEntry, empty_label};
use pt_disks::in_memory::CrashDisk;
use pt_gpt::{Entry, Header, Side, array_at, array_crc, array_sectors, encode_header, header_at};
use pt_guid::Guid;
use pt_layout::{
    Body, Ebrs, Head, Labelled, Labels, Layout, Owner, Path, is_owned, is_table, owner, parse_path,
    survey_disk,
};
use pt_mbr::protective;
use pt_sector::{Disk, Lba, Sector};
use std::alloc::{AllocError, Global};
use test_samples::record;

/// Writes a sector, where there is one.
fn put<const B: usize, D: Disk<B>>(disk: &mut D, at: u64, bytes: &Sector<B>) {
    if at < disk.sectors() {
        let _ = disk.write(Lba(at), bytes);
    }
}

fn number(number: u64) -> Path {
    Path {
        number,
        letter: None,
    }
}

/// A slice from 2048 to 6143 whose label has a partition a from 2064 to 4063.
fn sliced(alloc: Global) -> Result<Layout, AllocError> {
    let mut label: Label = empty_label(4096);
    label.entries[0] = Some(LabelEntry {
        size: 2000,
        offset: 16,
        fragment: 0,
        fstype: 7,
        frag: 0,
        cpg: 0,
    });
    let mut labels = Vec::new(alloc);
    labels.push(Labelled { number: 1, label })?;
    Ok(Layout {
        sectors: 8192,
        body: Body::Mbr {
            records: [record(0xA5, 2048, 4096), None, None, None],
            chain: Ebrs::new(Vec::new(alloc)),
        },
        labels: Labels::new(labels),
    })
}

/// Who owns a sector of it.
fn owner_at<const B: usize>(alloc: Global, at: u64) -> Result<Owner, AllocError>
    requires { IsSectorSize B }
{
    let layout = sliced(alloc)?;
    Ok(owner::<B>(&layout, Lba(at)))
}

/// Of sector 2049, in sectors of 4096 bytes, whether it is of a table, and whether it is owned.
fn told_of_slice(alloc: Global) -> Result<(bool, bool), AllocError> {
    let layout = sliced(alloc)?;
    let at = Lba(2049);
    Ok((is_table::<4096>(&layout, at), is_owned::<4096>(&layout, at)))
}

#[test]
fn owners_in_a_slice(rt: HostRuntime) {
    let a = Path {
        number: 1,
        letter: Some(0),
    };
    for (at, want) in [
        (0, Owner::Table),
        (2048, Owner::Reserved),
        (2049, Owner::Table),
        (2064, Owner::Partition(a)),
        (4064, Owner::Reserved),
        (6144, Owner::Free),
    ] {
        assert!(rt; owner_at::<512>(rt.alloc(), at) == Ok(want));
    }
    let whole = Owner::Partition(number(1));
    assert!(rt; owner_at::<4096>(rt.alloc(), 6143) == Ok(whole));
}

#[test]
fn places_in_a_slice(rt: HostRuntime) {
    assert!(rt; told_of_slice(rt.alloc()) == Ok((false, true)));
}

/// Makes a disk of 200 sectors a healthy GPT disk whose 128 entries are unused.
fn put_gpt<const B: usize>(disk: &mut CrashDisk<B>)
    requires { IsSectorSize B }
{
    let edge = array_sectors::<B>() + 2;
    let entries: [Option<Entry>; 128] = [None; 128];
    for (side, other) in [(Side::Primary, Side::Backup), (Side::Backup, Side::Primary)] {
        let header = Header {
            my: header_at(side, 200),
            alternate: header_at(other, 200),
            first: edge,
            last: 200 - edge,
            disk: Guid([2; 16]),
            array: array_at::<B>(side, 200),
            count: 128,
            entry_size: 128,
            array_crc: array_crc(&entries),
        };
        put(disk, header_at(side, 200), &encode_header(&header));
    }
    put(disk, 0, &protective(200, &[0; B]));
}

/// How many sectors a survey of a disk reads, where those are fewer than 200: the first read that fails unseen is past
/// its last.
fn survey_reads<const B: usize>(alloc: Global, disk: &mut CrashDisk<B>) -> u64
    requires { IsSectorSize B }
{
    for k in 0..200 {
        disk.fail_at(k + 1, false);
        if survey_disk(alloc, disk).is_ok() {
            return k;
        }
    }
    200
}

/// The same of a healthy GPT disk, and whether a survey of it tells so where no read fails.
fn healthy_gpt<const B: usize>(alloc: Global) -> Result<(u64, bool), AllocError>
    requires { IsSectorSize B }
{
    let mut disk: CrashDisk<B> = CrashDisk::new(alloc, 200, 3)?;
    put_gpt(&mut disk);
    let reads = survey_reads(alloc, &mut disk);
    disk.fail_at(0, false);
    Ok((reads, is_told_healthy(alloc, &mut disk)))
}

fn is_told_healthy<const B: usize>(alloc: Global, disk: &mut CrashDisk<B>) -> bool
    requires { IsSectorSize B }
{
    match survey_disk(alloc, disk) {
        Ok(told) => {
            told.head == Head::Protected
                && told.finding == None
                && told.layout.is_some()
                && told.primary
                && !told.guarded.contains(Lba(0))
        }
        Err(_) => false,
    }
}

#[test]
fn a_survey_reads_once(rt: HostRuntime) {
    assert!(rt; healthy_gpt::<512>(rt.alloc()) == Ok((67, true)));
    assert!(rt; healthy_gpt::<4096>(rt.alloc()) == Ok((11, true)));
}

#[test]
fn paths_as_texts(rt: HostRuntime) {
    assert!(rt;
        parse_path("18446744073709551615.h")
            == Some(Path {
                number: u64::MAX,
                letter: Some(7)
            })
    );
}
