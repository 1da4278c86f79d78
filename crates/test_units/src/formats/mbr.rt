ghost use Rattle.pt_sector.specs.Sectors.{IsSectorSize};

use arrayvec::ArrayVec;
use pt_disks::in_memory::CrashDisk;
use pt_mbr::{
    ChainError, Ebr, Mbr, Record, bears_protective, decode_mbr, encode_mbr, link_to, put_record,
    read_chain, walk_chain,
};
use pt_sector::{Disk, Extent, Fault, Lba, Sector};
use test_samples::new_record;

/// A sector of zeros but for these records and the signature.
fn boot_record<const B: usize>(records: [Option<Record>; 2]) -> Sector<B>
    requires { IsSectorSize B }
{
    let mut sector = [0; B];
    sector[510] = 0x55;
    sector[511] = 0xAA;
    let sector = put_record(&sector, 0, records[0].as_ref());
    put_record(&sector, 1, records[1].as_ref())
}

fn link(kind: u8, start: u32, size: u32) -> [Option<Record>; 2] {
    [None, Some(new_record(kind, start, size))]
}

const EMPTY: [Option<Record>; 2] = [None; 2];

fn extended() -> Extent {
    Extent::new(Lba(4096), Lba(12287)).unwrap()
}

const WRITTEN: [Result<(), Fault>; 2] = [Ok(()); 2];

/// What a walk answers, and how many extended boot records it found.
fn walk_of<D: Disk<512>>(disk: &mut D) -> (Result<(), ChainError>, usize) {
    let mut list = ArrayVec::new();
    let walked = walk_chain(disk, &extended(), &mut list);
    (walked, list.len())
}

#[test]
fn a_failed_read_is_the_device(rt: HostRuntime) {
    let mut disk = CrashDisk::new(rt.alloc(), 16384, 2).expect(&rt, "memory");
    let first = disk.write(Lba(4096), &boot_record(link(0x05, 2047, 1)));
    let second = disk.write(Lba(6143), &boot_record(EMPTY));
    assert!(rt; [first, second] == WRITTEN);
    // of a chain of two, the second is not read once
    disk.fail_at(2, false);
    assert!(rt; walk_of(&mut disk) == (Err(ChainError::Device(Lba(6143))), 1));
    assert!(rt; read_chain(&mut disk, extended()).is_ok());
}

#[test]
fn records_with_a_signature(rt: HostRuntime) {
    let mut sector: Sector<512> = boot_record(EMPTY);
    sector[494] = 1;
    assert!(rt; decode_mbr(&sector) == None);
}

/// What these records decode to once they are written over bytes of 7.
fn written<const B: usize>(records: [Option<Record>; 4]) -> Option<[Option<Record>; 4]>
    requires { IsSectorSize B }
{
    let sector: Sector<B> = encode_mbr(&Mbr { records }, &[7; B]);
    if sector[445] != 7 || (B > 512 && sector[B - 1] != 7) {
        return None;
    }
    match decode_mbr(&sector) {
        Some(mbr) => Some(mbr.records),
        None => None,
    }
}

#[test]
fn what_is_written_is_read(rt: HostRuntime) {
    let mut bootable = new_record(0xA5, 2048, 4096);
    bootable.boot = 0x80;
    let records = [
        None,
        Some(bootable),
        Some(new_record(0x0F, u32::MAX, 1)),
        None,
    ];
    assert!(rt; written::<512>(records) == Some(records));
    assert!(rt; written::<4096>(records) == Some(records));
    bootable.boot = 0x81;
    assert!(rt; written::<512>([Some(bootable), None, None, None]) == None);
    let unused = new_record(0x83, 7, 0);
    assert!(rt; written::<512>([Some(unused), None, None, None]) == Some([None; 4]));
}

#[test]
fn an_empty_record_may_bear_the_protective_type(rt: HostRuntime) {
    for k in 0..4usize {
        let sector: Sector<4096> = put_record(&[0; 4096], k, Some(&new_record(0xEE, 1, 0)));
        assert!(rt; bears_protective(&sector));
    }
    assert!(rt; !bears_protective(&[0; 4096]));
}

/// An extended boot record at a place, with a logical partition of 1000 sectors behind it.
fn ebr_at(at: u64, next: Option<Lba>) -> Ebr {
    Ebr {
        at: Lba(at),
        logical: Some(new_record(0x83, 1, 1000)),
        next,
    }
}

#[test]
fn links_fit_their_fields(rt: HostRuntime) {
    let empty = Ebr {
        at: Lba(4096 + 0xFFFF_FFFF),
        logical: None,
        next: None,
    };
    assert!(rt; link_to(Lba(4096), &empty) == Some(new_record(0x05, 0xFFFF_FFFF, 1)));
    assert!(rt; link_to(Lba(4095), &empty) == None);
    assert!(rt; link_to(Lba(4096), &ebr_at(4095, None)) == None);
    let mut long = ebr_at(6143, None);
    long.logical = Some(new_record(0x83, 1, 0xFFFF_FFFE));
    assert!(rt; link_to(Lba(4096), &long) == Some(new_record(0x05, 2047, 0xFFFF_FFFF)));
    long.logical = Some(new_record(0x83, 2, 0xFFFF_FFFE));
    assert!(rt; link_to(Lba(4096), &long) == None);
}
