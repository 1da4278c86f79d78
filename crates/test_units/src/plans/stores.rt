//! A disk over bytes in memory.

use pt_disks::{MemStore, StoreDisk};
use pt_layout::{Verdict, verify};
use pt_plan::commit;
use pt_sector::Disk;
use std::alloc::Global;
use std::test::Fail;
use test_samples::{guids, words};

/// A disk of 4096 sectors, over bytes that end within one more.
fn zeros(alloc: Global) -> Result<StoreDisk<512, MemStore>, Fail> {
    let mut bytes = Vec::new(alloc);
    bytes.resize(4096 * 512 + 100, 0)?;
    match StoreDisk::new(MemStore::new(bytes)) {
        Some(disk) => Ok(disk),
        None => Err(Fail::new("no disk over bytes in memory")),
    }
}

#[test]
fn a_table_on_bytes_in_memory(rt: HostRuntime) -> Result<(), Fail> {
    let mut disk = zeros(rt.alloc())?;
    assert!(rt; disk.sectors() == 4096);
    let words = words(rt.alloc(), &["o"])?;
    assert!(rt; commit(rt.alloc(), &mut disk, &words, &guids()) == Ok(()));
    let verdict = verify(rt.alloc(), &mut disk)?;
    assert!(rt; matches!(&verdict, Verdict::Yes(_)));
    Ok(())
}
