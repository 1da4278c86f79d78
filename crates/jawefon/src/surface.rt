//! The surface as a program uses it: what its own values are made of, and the steps that no example takes.

use crate::bsd::{decode_label, empty_label, encode_label};
use crate::drafts::{DraftError, Key, TextFault};
use crate::gpt::{Side, decode_header, encode_header, has_room, read_copy};
use crate::mbr::{Mbr, decode_mbr, encode_mbr, protective, put_record, read_chain};
use crate::sums::{Crc, crc32, xor16};
use crate::{
    Access, After, Body, Code, CommitError, CrashDisk, Disk, Edit, End, Extent, Fault, FileDisk,
    Guid, InUse, Layout, Lba, MemDisk, NoDevice, NoTable, Overlay, Path, Primary, ReadCache,
    Reason, Room, Row, Rows, Run, Sector, SetError, Source, apply, code_of_type, commit,
    commit_draft, device_sector_size, edit, entry_type, entry_type_name, free_blocks, fresh,
    guids_for, is_owned, is_table, layout_after, make_plan, parse_guid, plan_draft, read_draft,
    record_type, record_type_name, recover, recover_traced, table_for, table_text, type_of_code,
    type_of_record, unsound,
};
use std::alloc::Global;
use std::test::Fail;

/// Partition 1.
const FIRST: Path = Path {
    number: 1,
    letter: None,
};

/// An empty table, and a partition of 100 sectors at the start of the largest free block.
fn words(alloc: Global) -> Result<Vec<Edit>, Fail> {
    let mut edits = Vec::new(alloc);
    edits.push(Edit::Empty)?;
    edits.push(Edit::New {
        path: FIRST,
        start: 0,
        end: End::Length(100),
        code: Some(Code::Four(0x8300)),
    })?;
    Ok(edits)
}

fn run(first: u128, last: u128) -> Run {
    Run { first, last }
}

fn guids() -> [Guid; 2] {
    [fresh([1; 16]), fresh([2; 16])]
}

fn gpt_disk(alloc: Global) -> Result<MemDisk<512>, Fail> {
    let mut disk = MemDisk::new(alloc, 4096)?;
    commit(alloc, &mut disk, &words(alloc)?, &guids())?;
    Ok(disk)
}

/// Without partition 1.
fn without(alloc: Global, layout: &Layout) -> Result<Layout, Fail> {
    let mut edits = Vec::new(alloc);
    edits.push(Edit::Delete(FIRST))?;
    Ok(edit::<512>(alloc, Some(layout), layout.sectors, &edits, &[])?)
}

#[test]
fn a_layout_and_its_sectors(rt: HostRuntime) -> Result<(), Fail> {
    let mut disk = gpt_disk(rt.alloc())?;
    let (found, trace) = recover_traced(rt.alloc(), &mut disk);
    let layout = found?;
    assert!(rt; trace.contains(Lba(1)) && !trace.contains(Lba(2048)));
    assert!(rt; is_table::<512>(&layout, Lba(33)) && !is_table::<512>(&layout, Lba(2048)));
    assert!(rt; is_owned::<512>(&layout, Lba(2048)) && !is_owned::<512>(&layout, Lba(33)));
    assert!(rt; unsound::<512>(rt.alloc(), &layout)? == None);
    let free = free_blocks(rt.alloc(), &layout)?;
    assert!(rt; free.as_slice() == [run(34, 2047), run(2148, 4062)].as_slice());
    let linux = type_of_code(0x8300);
    match &layout.body {
        Body::Gpt(table) => match table.entries.get(0) {
            Some(entry) => assert!(rt; Some(entry.kind) == linux),
            None => assert!(rt; false),
        },
        Body::Mbr { .. } => assert!(rt; false),
    }
    let mut rows: Rows<'_, 512> = layout.rows();
    match rows.next() {
        Some(
            Row {
                member,
                source: Source::Entry(entry),
            },
        ) => {
            assert!(rt; member.path == FIRST && Some(entry.kind) == linux);
        }
        _ => assert!(rt; false),
    }
    assert!(rt; rows.next().is_none());
    Ok(())
}

/// What stands there is no block device, and is neither opened nor read as one.
#[test]
fn no_device(rt: HostRuntime) -> Result<(), Fail> {
    for in_use in [InUse::Refused, InUse::Allowed] {
        for (access, path) in [(Access::Read, "/dev/null"), (Access::Write, ".")] {
            let opened = FileDisk::<512>::open_device(&rt, path, access, in_use);
            assert!(rt; matches!(opened, Err(NoDevice::NotBlock)));
            assert!(rt; matches!(device_sector_size(&rt, path), Err(NoDevice::NotBlock)));
        }
    }
    let missing = FileDisk::<4096>::open_device(&rt, "no such file", Access::Read, InUse::Refused);
    assert!(rt; matches!(missing, Err(NoDevice::Unopened)));
    Ok(())
}

#[test]
fn type_codes(rt: HostRuntime) -> Result<(), Fail> {
    let linux = parse_guid("0fc63daf-8483-4772-8e79-3d69d8477de4")?;
    assert!(rt; type_of_code(0x8300) == Some(linux));
    assert!(rt; type_of_record(0x83) == Some(linux));
    assert!(rt; code_of_type(&linux) == Some(0x8300));
    Ok(())
}

#[test]
fn an_mbr_becomes_a_gpt(rt: HostRuntime) -> Result<(), Fail> {
    let mut disk: MemDisk<512> = MemDisk::new(rt.alloc(), 4096)?;
    disk.write(Lba(0), &encode_mbr(&Mbr::default(), &[0; 512]))?;
    let layout = recover(rt.alloc(), &mut disk)?;
    assert!(rt; guids_for(&layout) == 1);
    let mut edits = Vec::new(rt.alloc());
    edits.push(Edit::ToGpt)?;
    commit(rt.alloc(), &mut disk, &edits, &[fresh([1; 16])])?;
    let made = recover(rt.alloc(), &mut disk)?;
    assert!(rt; matches!(&made.body, Body::Gpt(_)));
    Ok(())
}

/// A disk too small for a GPT denotes nothing for that reason, which is no failure.
#[test]
fn why_a_disk_has_no_table(rt: HostRuntime) -> Result<(), Fail> {
    let mut disk: MemDisk<512> = MemDisk::new(rt.alloc(), 67)?;
    match recover(rt.alloc(), &mut disk) {
        Ok(_) => assert!(rt; false),
        Err(why) => assert!(rt; why.reason() == Ok(Reason::TooSmall)),
    }
    Ok(())
}

#[test]
fn what_a_plan_makes(rt: HostRuntime) -> Result<(), Fail> {
    let mut disk = gpt_disk(rt.alloc())?;
    let old = recover(rt.alloc(), &mut disk)?;
    let wanted = without(rt.alloc(), &old)?;
    let mut plan = make_plan(rt.alloc(), &mut disk, &wanted)?;
    match layout_after(rt.alloc(), &mut disk, &plan)? {
        After::Layout(made) => assert!(rt; made.same(&wanted)),
        After::No(_) => assert!(rt; false),
    }
    assert!(rt; recover(rt.alloc(), &mut disk)?.same(&old));
    let _first = plan.phases.pop();
    match layout_after(rt.alloc(), &mut disk, &plan)? {
        After::Layout(_) => assert!(rt; false),
        After::No(why) => assert!(rt; why.number() == 8),
    }
    Ok(())
}

#[test]
fn a_plan_over_an_overlay(rt: HostRuntime) -> Result<(), Fail> {
    let mut disk = gpt_disk(rt.alloc())?;
    let old = recover(rt.alloc(), &mut disk)?;
    let wanted = without(rt.alloc(), &old)?;
    let room = Room::new(rt.alloc(), 100)?;
    let mut over = Overlay::new(&mut disk, room);
    let plan = make_plan(rt.alloc(), &mut over, &wanted)?;
    apply(&mut over, &plan)?;
    assert!(rt; recover(rt.alloc(), &mut over)?.same(&wanted));
    drop(over);
    let cache_room = Room::for_cache(rt.alloc())?;
    let mut cache = ReadCache::new(&mut disk, cache_room);
    assert!(rt; recover(rt.alloc(), &mut cache)?.same(&old));
    Ok(())
}

#[test]
fn texts(rt: HostRuntime) -> Result<(), Fail> {
    let mut disk = gpt_disk(rt.alloc())?;
    let layout = recover(rt.alloc(), &mut disk)?;
    let text = table_text::<512>(rt.alloc(), "disk", &layout)?;
    assert!(rt; text.as_str().contains("\"node\": \"disk1\""));
    assert!(rt; text.as_str().contains("\"type_name\": \"linux-generic\""));
    let lvm = parse_guid("e6d6d379-f507-44c2-a23c-238f2a3df928")?;
    assert!(rt; entry_type("lvm") == Some(lvm) && entry_type("8E00") == Some(lvm));
    assert!(rt; entry_type_name(&lvm) == Some("lvm"));
    assert!(rt; record_type("5") == Some(0x05) && record_type("swap") == Some(0x82));
    assert!(rt; record_type_name(0xEE).is_none());
    Ok(())
}

/// A text with one partition of 100 sectors, by its size in bytes.
const TEXT: &str =
    r#"{"partitiontable": {"partitions": [{"start": 100, "size": "50KiB", "type": "swap"}]}}"#;

#[test]
fn a_table_by_its_text(rt: HostRuntime) -> Result<(), Fail> {
    let mut disk: MemDisk<512> = MemDisk::new(rt.alloc(), 4096)?;
    let draft = read_draft(rt.alloc(), TEXT)?;
    let plan = plan_draft(rt.alloc(), &mut disk, &draft, &guids(), Primary::Kept)?;
    assert!(rt; !plan.phases.is_empty());
    commit_draft(rt.alloc(), &mut disk, &draft, &guids(), Primary::Kept)?;
    let layout = recover(rt.alloc(), &mut disk)?;
    match &layout.body {
        Body::Gpt(table) => match table.entries.get(0) {
            Some(entry) => {
                assert!(rt; entry.first == 100 && entry.last == 199);
                assert!(rt; entry.unique == guids()[1] && Some(entry.kind) == entry_type("swap"));
            }
            None => assert!(rt; false),
        },
        Body::Mbr { .. } => assert!(rt; false),
    }
    let made = table_for::<512>(rt.alloc(), &draft, 4096, Some(&layout), &[])?;
    assert!(rt; made.same(&layout));
    Ok(())
}

/// A text of an MBR with a primary and a logical partition.
const MBR_TEXT: &str = r#"{"partitiontable": {"label": "dos", "partitions": [
    {"start": 100, "size": 50, "bootable": true}, {"number": 9, "start": 300, "size": 9}, {"type": "5", "start": 200}]}}"#;

#[test]
fn an_mbr_by_its_text(rt: HostRuntime) -> Result<(), Fail> {
    let draft = read_draft(rt.alloc(), MBR_TEXT)?;
    let made = table_for::<512>(rt.alloc(), &draft, 4096, None, &[])?;
    match &made.body {
        Body::Mbr { records, chain } => {
            assert!(rt; matches!(records[0], Some(it) if it.boot == 0x80 && it.start == 100));
            assert!(rt; matches!(records[1], Some(it) if it.kind == 0x05 && it.size == 3896));
            match chain.as_slice() {
                [ebr] => assert!(rt; matches!(ebr.logical, Some(it) if it.start == 100)),
                _ => assert!(rt; false),
            }
        }
        Body::Gpt(_) => assert!(rt; false),
    }
    let text = table_text::<512>(rt.alloc(), "disk", &made)?;
    let again = read_draft(rt.alloc(), text.as_str())?;
    let same = table_for::<512>(rt.alloc(), &again, 4096, None, &[])?;
    assert!(rt; same.same(&made));
    Ok(())
}

#[test]
fn a_faulty_text(rt: HostRuntime) -> Result<(), Fail> {
    let mut disk = gpt_disk(rt.alloc())?;
    let text = r#"{"partitiontable": {"partitions": [{}, {"number": 200}]}}"#;
    let draft = read_draft(rt.alloc(), text)?;
    let found = commit_draft(rt.alloc(), &mut disk, &draft, &guids(), Primary::Kept);
    let fault = TextFault {
        key: Key::Number,
        part: Some(2),
    };
    assert!(rt; matches!(found, Err(SetError::Fault(told)) if told == fault));
    let spelt = read_draft(rt.alloc(), r#"{"partitiontable": {"lable": "gpt"}}"#);
    assert!(rt; matches!(spelt, Err(DraftError::Fault(told)) if told.key == Key::Unknown));
    Ok(())
}

#[test]
fn a_disk_that_stops(rt: HostRuntime) -> Result<(), Fail> {
    let mut disk: CrashDisk<512> = CrashDisk::new(rt.alloc(), 4096, 100)?;
    disk.fail_at(20, false);
    let words = words(rt.alloc())?;
    let done = commit(rt.alloc(), &mut disk, &words, &guids());
    assert!(rt; matches!(done, Err(CommitError::Device(_))));
    let mut left = disk.stop(&[]);
    let found = recover(rt.alloc(), &mut left);
    assert!(rt; matches!(&found, Err(NoTable::NoCopy(_, _))));
    Ok(())
}

#[test]
fn formats(rt: HostRuntime) -> Result<(), Fail> {
    let mut disk = gpt_disk(rt.alloc())?;
    if !has_room::<512>(disk.sectors()) {
        return Err(Fail::new("no room for a GPT"));
    }
    let table = read_copy(rt.alloc(), &mut disk, Side::Backup)?;
    assert!(rt; table.first == 34 && table.last == 4062);
    let mut sector: Sector<512> = [0; 512];
    disk.read(Lba(1), &mut sector)?;
    let header = decode_header(&sector)?;
    assert!(rt; encode_header::<512>(&header) == sector);
    assert!(rt; decode_mbr(&protective(4096, &[0; 512])).is_some());
    assert!(rt; put_record(&[1; 512], 0, None)[446..462] == [0; 16]);
    let label = empty_label(100);
    assert!(rt; decode_label(&encode_label(&label, &[0; 512]), 2048, 100).is_ok());
    assert!(rt; crc32(b"123456789") == 0xCBF4_3926 && xor16(&[1, 2, 3, 4]) == 0x0602);
    let mut sum = Crc::new();
    sum.update(b"123456789");
    assert!(rt; sum.value() == 0xCBF4_3926);
    match Extent::new(Lba(1), Lba(2)) {
        Some(extent) => assert!(rt; read_chain(&mut disk, extent).is_err()),
        None => assert!(rt; false),
    }
    assert!(rt; disk.flush() != Err(Fault::Flush));
    Ok(())
}
