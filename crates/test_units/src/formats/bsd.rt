//! Labels with known checksums.

ghost use Rattle.std.specs.Prelude.{◌<◌};
ghost use Rattle.pt_sector.specs.Sectors.{IsSectorSize};

use pt_bsd::{
    Form, Label, LabelEntry, LabelError, bears_magic, decode_label, empty_label, encode_for,
    encode_label,
};
use pt_sector::Sector;

// A file system's partition.
fn partition(offset: u32, size: u32) -> LabelEntry {
    LabelEntry {
        size,
        offset,
        fragment: 0,
        fstype: 7,
        frag: 0,
        cpg: 0,
    }
}

// The empty label of 4096 sectors in a slice from sector 2048 on, with absolute offsets.
fn absolute() -> Label {
    let mut label = empty_label(4096);
    label.entries[2] = Some(LabelEntry {
        fstype: 0,
        ..partition(2048, 4096)
    });
    label
}

// An empty label of 4096 sectors with other bytes at a place of two bytes and at the checksum.
fn changed(at: usize, bytes: [u8; 2], checksum: [u8; 2]) -> [u8; 512]
    requires { at < 511 }
{
    let mut sector = encode_label(&empty_label(4096), &[0; 512]);
    sector[at] = bytes[0];
    sector[at + 1] = bytes[1];
    sector[136] = checksum[0];
    sector[137] = checksum[1];
    sector
}

// The two bytes of a label's checksum over bytes of this value, and what is read of it there in a slice.
fn stored<const B: usize>(
    label: &Label,
    under: u8,
    first: u64,
    sectors: u64,
) -> ([u8; 2], Result<Label, LabelError>)
    requires { IsSectorSize B }
{
    let sector: Sector<B> = encode_label(label, &[under; B]);
    let checksum = [sector[136], sector[137]];
    (checksum, decode_label(&sector, first, sectors))
}

// Three bytes behind an empty label, over bytes of 255.
fn behind(label: &Label) -> [u8; 3] {
    let sector: [u8; 512] = encode_label(label, &[255; 512]);
    [sector[275], sector[276], sector[511]]
}

#[test]
fn empty_labels_have_one_checksum(rt: HostRuntime) {
    for n in [0, 1, 4096, 4294967295] {
        let label = empty_label(n);
        let want = ([0x08, 0x22], Ok(label));
        assert!(rt; stored::<512>(&label, 255, 7, n as u64) == want);
        assert!(rt; stored::<4096>(&label, 0, 7, n as u64) == want);
        assert!(rt; behind(&label) == [0, 255, 255]);
    }
}

#[test]
fn three_entries(rt: HostRuntime) {
    let mut label = empty_label(4096);
    for k in 3..8usize {
        label.entries[k] = None;
    }
    let sector: [u8; 512] = encode_label(&label, &[9; 512]);
    assert!(rt; [sector[136], sector[137], sector[138]] == [0x03, 0x22, 3]);
    assert!(rt; [sector[195], sector[196], sector[275], sector[511]] == [0, 9, 9, 9]);
    assert!(rt; decode_label(&sector, 2048, 4096) == Ok(label));
}

// What is read of an empty label of 4096 sectors with other bytes at a place below 511.
fn decoded(at: usize, bytes: [u8; 2], checksum: [u8; 2]) -> Result<Label, LabelError> {
    if at >= 511 {
        return Err(LabelError::RawPartition);
    }
    decode_label(&changed(at, bytes, checksum), 2048, 4096)
}

#[test]
fn labels_of_other_slices(rt: HostRuntime) {
    let empty = empty_label(4096);
    for sectors in [4097, 4294971392] {
        let (_, read) = stored::<512>(&empty, 0, 2048, sectors);
        assert!(rt; read == Err(LabelError::RawPartition));
    }
}

#[test]
fn first_broken_rule(rt: HostRuntime) {
    let rows = [
        (138, [2, 0], [0, 0], Err(LabelError::Count)),
        (138, [9, 0], [0, 0], Err(LabelError::Count)),
        (138, [255, 255], [0, 0], Err(LabelError::Count)),
        (40, [0, 8], [0x08, 0x28], Err(LabelError::SectorSize)),
        (132, [0x56, 0x45], [0x09, 0x22], Err(LabelError::Magic)),
        (0, [0x56, 0x45], [0x09, 0x22], Err(LabelError::Magic)),
        (138, [8, 0], [0x09, 0x22], Err(LabelError::Checksum)),
        (138, [8, 0], [0x08, 0x22], Ok(empty_label(4096))),
    ];
    for (at, bytes, checksum, want) in rows {
        assert!(rt; decoded(at, bytes, checksum) == want);
    }
}

// A label of 4096 sectors with partitions of 2000 and of 1000 sectors, the second at this offset.
fn with_two(mut label: Label, first: u32, second: u32) -> Label {
    label.entries[0] = Some(partition(first, 2000));
    label.entries[1] = Some(partition(second, 1000));
    label
}

#[test]
fn partitions_of_an_absolute_label(rt: HostRuntime) {
    let label = with_two(absolute(), 2064, 4064);
    assert!(rt; stored::<4096>(&label, 0, 2048, 4096) == ([0xC0, 0x29], Ok(label)));
}

#[test]
fn absolute_label_elsewhere(rt: HostRuntime) {
    let sector = encode_label(&absolute(), &[0u8; 512]);
    for first in [0, 2047, 2049, 4294969344] {
        assert!(rt; decode_label(&sector, first, 4096) == Err(LabelError::RawPartition));
    }
}

#[test]
fn offsets(rt: HostRuntime) {
    assert!(rt; Form::Relative.offset_of(2048, 2047) == None);
}

#[test]
fn magic(rt: HostRuntime) {
    assert!(rt; bears_magic(&encode_label(&empty_label(1), &[0u8; 512])));
    assert!(rt; bears_magic(&encode_label(&empty_label(1), &[0u8; 4096])));
    assert!(rt; bears_magic(&changed(132, [0, 0], [0, 0])));
    assert!(rt; !bears_magic(&changed(2, [0x56, 0x83], [0, 0])));
    assert!(rt; !bears_magic(&[0u8; 4096]));
}

// What a label is over bytes of 7, for a slice of so many sectors from here on.
fn encoded(label: &Label, first: u64, sectors: u64) -> Option<Sector<512>> {
    encode_for(label, first, sectors, &[7; 512])
}

#[test]
fn labels_are_read_back(rt: HostRuntime) {
    let label = absolute();
    let sector = encode_label(&label, &[7u8; 512]);
    assert!(rt; encoded(&label, 2048, 4096) == Some(sector));
    let mut gap = label;
    gap.entries[1] = None;
    for (label, first, sectors) in [(label, 2049, 4096), (label, 2048, 4095), (gap, 2048, 4096)] {
        assert!(rt; encoded(&label, first, sectors) == None);
    }
}
