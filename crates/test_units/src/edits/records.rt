//! What words make of the records of a disk of 16,384 sectors.

use pt_bsd::empty_label;
use pt_edit::records::{MbrParts, delete, new, set_kind};
use pt_mbr::{Ebr, Record};
use pt_recover::{Ebrs, Labelled, Labels, Layout};
use pt_sector::Lba;
use pt_words::{Asked, Code, End, Refusal};
use std::alloc::Global;
use std::test::Fail;
use test_samples::new_record;

/// A record to be booted, as it is read from a disk.
fn record(kind: u8, start: u32, size: u32) -> Record {
    Record {
        boot: 0x80,
        start_chs: [1, 2, 3],
        end_chs: [4, 5, 6],
        ..new_record(kind, start, size)
    }
}

/// The parts of a disk.
fn parts(
    alloc: Global,
    records: [Option<Record>; 4],
    chain: &[Ebr],
    labels: &[Labelled],
) -> Result<MbrParts, Fail> {
    Ok(MbrParts {
        sectors: 16384,
        records,
        chain: Ebrs::new(Vec::from_slice(alloc, chain)?),
        labels: Labels::new(Vec::from_slice(alloc, labels)?),
    })
}

/// The label of a slice without partitions.
fn labelled(number: u64, size: u32) -> Labelled {
    Labelled {
        number,
        label: empty_label(size),
    }
}

/// A slice, an extended partition with one in it, and a plain one.
fn three(alloc: Global) -> Result<MbrParts, Fail> {
    let records = [
        Some(record(0xA5, 2048, 2048)),
        Some(record(0x05, 4096, 8192)),
        None,
        Some(record(0x83, 12288, 4096)),
    ];
    let chain = [Ebr {
        at: Lba(4096),
        logical: Some(record(0xA5, 2048, 100)),
        next: None,
    }];
    parts(
        alloc,
        records,
        &chain,
        &[labelled(1, 2048), labelled(5, 100)],
    )
}

/// What `t` is refused with there.
fn not_typed(alloc: Global, number: u64, code: Code) -> Result<Option<Refusal>, Fail> {
    Ok(set_kind::<512>(three(alloc)?, number, &code).err())
}

/// Whether a word made just this disk.
fn is(made: Result<Layout, Refusal>, wanted: MbrParts) -> bool {
    made.is_ok_and(|made| made.same(&wanted.whole()))
}

#[test]
fn refused_types(rt: HostRuntime) -> Result<(), Fail> {
    for (number, code, refusal) in [
        (1, Code::Two(0x00), Refusal::UnknownCode),
        (1, Code::Two(0xEE), Refusal::UnknownCode),
    ] {
        assert!(rt; not_typed(rt.alloc(), number, code)? == Some(refusal));
    }
    Ok(())
}

#[test]
fn types_of_no_partition(rt: HostRuntime) -> Result<(), Fail> {
    let code = Code::Two(0x83);
    assert!(rt; not_typed(rt.alloc(), 0, code)? == Some(Refusal::NoSuchPartition));
    Ok(())
}

#[test]
fn an_extended_partition_goes_with_its_chain(rt: HostRuntime) -> Result<(), Fail> {
    let records = [
        Some(record(0xA5, 2048, 2048)),
        None,
        None,
        Some(record(0x83, 12288, 4096)),
    ];
    let wanted = parts(rt.alloc(), records, &[], &[labelled(1, 2048)])?;
    let made = delete(three(rt.alloc())?, 2);
    assert!(rt; is(made, wanted));
    Ok(())
}

/// What a word `n` asks for, by its number, start, end and code.
fn asked((number, start, end, code): (u64, u64, End, Option<Code>)) -> Asked {
    Asked {
        number,
        alignment: 2048,
        start,
        end,
        code,
    }
}

#[test]
fn an_extended_partition_of_one_sector(rt: HostRuntime) -> Result<(), Fail> {
    let records = [None, None, None, Some(new_record(0x0F, 8192, 1))];
    let chain = [Ebr {
        at: Lba(8192),
        logical: None,
        next: None,
    }];
    let wanted = parts(rt.alloc(), records, &chain, &[])?;
    let old = parts(rt.alloc(), [None; 4], &[], &[])?;
    let asked = asked((4, 8192, End::Length(1), Some(Code::Two(0x0F))));
    assert!(rt; is(new::<512>(rt.alloc(), old, &asked), wanted));
    Ok(())
}

/// What `n` is refused with where 1, 2 and 4 are used, and 3 if `full`.
fn not_new(
    alloc: Global,
    full: bool,
    number: u64,
    end: End,
    code: Code,
) -> Result<Option<Refusal>, Fail> {
    let mut old = three(alloc)?;
    if full {
        old.records = [Some(record(0x83, 1, 1)); 4];
    }
    Ok(new::<512>(alloc, old, &asked((number, 2048, end, Some(code)))).err())
}

#[test]
fn refused_partitions(rt: HostRuntime) -> Result<(), Fail> {
    for (full, number, code, refusal) in [
        (true, 5, Code::Two(0x83), Refusal::NoSuchPartition),
        (false, 1, Code::Four(0x8300), Refusal::NumberTaken),
    ] {
        let refused = not_new(rt.alloc(), full, number, End::Block, code)?;
        assert!(rt; refused == Some(refusal));
    }
    Ok(())
}
