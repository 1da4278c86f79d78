//! When new logical partitions are refused, as docs/commands.md tells it.

use pt_edit::records::new_logical;
use pt_mbr::Ebr;
use pt_recover::{Ebrs, Labelled, Labels};
use pt_sector::Lba;
use pt_words::{Asked, Code, End, Refusal};
use std::alloc::Global;
use std::test::Fail;
use test_samples::new_record;

/// An extended boot record with a logical partition of 1,000 sectors.
fn used(at: u64, kind: u8, next: Option<Lba>) -> Ebr {
    Ebr {
        at: Lba(at),
        logical: Some(new_record(kind, 1, 1000)),
        next,
    }
}

/// An empty one.
fn empty(at: u64, next: Option<Lba>) -> Ebr {
    Ebr {
        at: Lba(at),
        logical: None,
        next,
    }
}

type Edited = Result<(Ebrs, Labels), Refusal>;

/// A new partition in the extended one from 4096 to 12287.
fn put(
    alloc: Global,
    chain: &[Ebr],
    labels: &[Labelled],
    (start, end, code): (u64, End, u8),
) -> Result<Edited, Fail> {
    let chain = Ebrs::new(Vec::from_slice(alloc, chain)?);
    let labels = Labels::new(Vec::from_slice(alloc, labels)?);
    let extended = Some(new_record(0x05, 4096, 8192));
    let asked = Asked {
        number: 5,
        alignment: 2048,
        start,
        end,
        code: Some(Code::Two(code)),
    };
    Ok(new_logical::<512>(alloc, extended, chain, labels, &asked))
}

/// What a new partition is refused with; none where it is made.
fn put_refused(
    alloc: Global,
    chain: &[Ebr],
    asked: (u64, End, u8),
) -> Result<Option<Refusal>, Fail> {
    Ok(put(alloc, chain, &[], asked)?.err())
}

#[test]
fn refused_ones(rt: HostRuntime) -> Result<(), Fail> {
    let alloc = rt.alloc();
    let old = [empty(4096, Some(Lba(6143))), used(6143, 0x83, None)];
    for (asked, refusal) in [
        ((0, End::Block, 0), Refusal::UnknownCode),
        ((8192, End::Length(1), 0xA5), Refusal::ContainerType),
    ] {
        assert!(rt; put_refused(alloc, &old, asked)? == Some(refusal));
    }
    Ok(())
}
