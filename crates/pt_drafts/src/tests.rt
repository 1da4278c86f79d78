//! Texts as `sfdisk --json` and `ptab show --json` write them, and texts with one fault.

use crate::{
    Chain, DiskId, Draft, DraftError, Extent, Key, PartDraft, TableKind, TextFault, read_draft,
};
use pt_guid::parse;
use std::alloc::Global;
use std::test::Fail;

const GPT_OF_SFDISK: &str = r#"{
   "partitiontable": {
      "label": "gpt",
      "id": "00010203-0405-4607-8809-0A0B0C0D0E0F",
      "device": "disk.img",
      "unit": "sectors",
      "firstlba": 2048,
      "lastlba": 131038,
      "grain": "512",
      "table-length": "64",
      "sectorsize": 512,
      "partitions": [
         {
            "node": "disk.img1",
            "start": 2048,
            "size": 32768,
            "type": "C12A7328-F81F-11D2-BA4B-00A0C93EC93B",
            "uuid": "10111213-1415-4617-9819-1A1B1C1D1E1F",
            "name": "EFI",
            "attrs": null
         },{
            "node": "disk.img12",
            "start": 34816,
            "size": 96223,
            "type": "linux",
            "uuid": "20212223-2425-4627-a829-2a2b2c2d2e2f",
            "name": "w\u00fcrfel \ud83d\ude00",
            "attrs": "LegacyBIOSBootable  GUID:48,63"
         }
      ]
   }
}"#;

const MBR_OF_SFDISK: &str = r#"{
   "partitiontable": {
      "label": "dos",
      "id": "0x1234abcd",
      "device": "/dev/nvme0n1",
      "unit": "sectors",
      "sectorsize": 512,
      "partitions": [
         {"node": "/dev/nvme0n1p1", "start": 2048, "size": 20000, "type": "83", "bootable": true},
         {"node": "/dev/nvme0n1p2", "start": 40960, "size": 60000, "type": "5"},
         {"node": "/dev/nvme0n1p5", "start": 43008, "size": 10000, "type": "82"}
      ]
   }
}"#;

const MBR_OF_OURS: &str =
    r#"{"partitiontable": {"chain": [40960, 18446744073709551615], "device": "mbr.img", "entries": 4, "table-length": 4,
  "label": "dos", "sectors": 131072, "partitions": [
  {"bsd": null, "boot": 7, "end_chs": "feFFff", "node": "mbr.img", "number": 1, "size": "512MiB", "start": 63, "start_chs": "010100",
   "type": "a5", "type_name": "freebsd"},
  {"number": 5, "record": 40960, "offset": 2048, "last": 50000, "type": "0b", "bootable": false, "name_units": [55296, 0, 65],
   "attributes": 1152921504606846988, "attrs": "LegacyBIOSBootable GUID:60"}]}}"#;

fn gpt_part(draft: &Draft, place: usize) -> Option<PartDraft> {
    draft.parts.as_slice().get(place).copied()
}

fn name_of(letters: &[u16]) -> [u16; 36] {
    let mut name = [0; 36];
    let mut place = 0;
    for letter in letters {
        if place < 36 {
            name[place] = *letter;
            place += 1;
        }
    }
    name
}

#[test]
fn gpt_of_sfdisk(rt: HostRuntime) -> Result<(), Fail> {
    let draft = read_draft(rt.alloc(), GPT_OF_SFDISK)?;
    assert!(rt; draft.label == Some(TableKind::Gpt));
    assert!(rt;
        draft.disk
            == parse("00010203-0405-4607-8809-0a0b0c0d0e0f")
                .ok()
                .map(DiskId::Guid)
    );
    assert!(rt; draft.first == Some(2048));
    assert!(rt; draft.last == Some(131038));
    assert!(rt; draft.entries == Some(64));
    assert!(rt; draft.sectors.is_none());
    assert!(rt; draft.sector_size == Some(512));
    assert!(rt; draft.chain.is_none());
    assert!(rt; draft.parts.as_slice().len() == 2);
    Ok(())
}

#[test]
fn entries_of_sfdisk(rt: HostRuntime) -> Result<(), Fail> {
    let draft = read_draft(rt.alloc(), GPT_OF_SFDISK)?;
    let first = gpt_part(&draft, 0).unwrap_or(EMPTY);
    assert!(rt; first.number == Some(1));
    assert!(rt; first.start == Some(2048));
    assert!(rt; first.extent == Some(Extent::Sectors(32768)));
    assert!(rt;
        first.kind.and_then(|kind| kind.gpt) == parse("C12A7328-F81F-11D2-BA4B-00A0C93EC93B").ok()
    );
    assert!(rt; first.kind.and_then(|kind| kind.mbr).is_none());
    assert!(rt; first.unique == parse("10111213-1415-4617-9819-1A1B1C1D1E1F").ok());
    assert!(rt; first.name == Some(name_of(&[69, 70, 73])));
    assert!(rt; first.attributes.is_none());
    let second = gpt_part(&draft, 1).unwrap_or(EMPTY);
    assert!(rt; second.number == Some(12));
    assert!(rt;
        second.kind.and_then(|kind| kind.gpt) == parse("0fc63daf-8483-4772-8e79-3d69d8477de4").ok()
    );
    assert!(rt; second.kind.and_then(|kind| kind.mbr) == Some(0x83));
    assert!(rt; second.name == Some(name_of(&[119, 252, 114, 102, 101, 108, 32, 0xD83D, 0xDE00])));
    assert!(rt; second.attributes == Some(0x8001_0000_0000_0004));
    Ok(())
}

#[test]
fn mbr_of_sfdisk(rt: HostRuntime) -> Result<(), Fail> {
    let draft = read_draft(rt.alloc(), MBR_OF_SFDISK)?;
    assert!(rt; draft.label == Some(TableKind::Mbr));
    assert!(rt; draft.disk == Some(DiskId::Signature));
    let first = gpt_part(&draft, 0).unwrap_or(EMPTY);
    assert!(rt; first.number == Some(1));
    assert!(rt; first.kind.and_then(|kind| kind.mbr) == Some(0x83));
    assert!(rt; first.boot == Some(0x80));
    let third = gpt_part(&draft, 2).unwrap_or(EMPTY);
    assert!(rt; third.number == Some(5));
    assert!(rt; third.start == Some(43008));
    assert!(rt; third.boot.is_none());
    Ok(())
}

const EMPTY: PartDraft = PartDraft {
    number: None,
    start: None,
    extent: None,
    kind: None,
    unique: None,
    name: None,
    attributes: None,
    boot: None,
    start_chs: None,
    end_chs: None,
    at: None,
    offset: None,
    bsd: None,
};

#[test]
fn mbr_of_ours(rt: HostRuntime) -> Result<(), Fail> {
    let draft = read_draft(rt.alloc(), MBR_OF_OURS)?;
    assert!(rt;
        draft
            .chain
            .as_ref()
            .map(|chain| chain.as_slice() == [40960, u64::MAX].as_slice())
            == Some(true)
    );
    assert!(rt; draft.entries == Some(4));
    assert!(rt; draft.sectors == Some(131072));
    let first = gpt_part(&draft, 0).unwrap_or(EMPTY);
    assert!(rt; first.number == Some(1));
    assert!(rt; first.extent == Some(Extent::Bytes(536870912)));
    assert!(rt; first.boot == Some(7));
    assert!(rt; first.start_chs == Some([1, 1, 0]));
    assert!(rt; first.end_chs == Some([0xFE, 0xFF, 0xFF]));
    assert!(rt; first.bsd == Some(None));
    let second = gpt_part(&draft, 1).unwrap_or(EMPTY);
    assert!(rt; second.extent == Some(Extent::Last(50000)));
    assert!(rt; second.at == Some(40960));
    assert!(rt; second.offset == Some(2048));
    assert!(rt; second.boot == Some(0));
    assert!(rt; second.name == Some(name_of(&[55296, 0, 65])));
    assert!(rt; second.attributes == Some(1152921504606846988));
    Ok(())
}

#[test]
fn what_is_left_out(rt: HostRuntime) -> Result<(), Fail> {
    let draft = read_draft(rt.alloc(), "{\"partitiontable\":{}}")?;
    assert!(rt;
        draft.label.is_none()
            && draft.disk.is_none()
            && draft.first.is_none()
            && draft.last.is_none()
    );
    assert!(rt;
        draft.entries.is_none()
            && draft.sectors.is_none()
            && draft.sector_size.is_none()
            && draft.chain.is_none()
    );
    assert!(rt; draft.parts.as_slice().is_empty());
    let draft = read_draft(rt.alloc(), "{\"partitiontable\":{\"partitions\":[{}]}}")?;
    assert!(rt; draft.parts.as_slice() == [EMPTY].as_slice());
    Ok(())
}

// ---- faults

fn fault(alloc: Global, text: &str) -> Option<TextFault> {
    match read_draft(alloc, text) {
        Ok(_) => None,
        Err(DraftError::Fault(fault)) => Some(fault),
        Err(DraftError::Memory) => None,
    }
}

#[test]
fn faults_of_the_whole(rt: HostRuntime) {
    for (text, key) in [
        ("", Key::Text),
        ("{\"partitiontable\":{}", Key::Text),
        ("[]", Key::Table),
        ("{}", Key::Table),
        ("{\"partitiontable\":[]}", Key::Table),
        ("{\"partitiontable\":{},\"more\":1}", Key::Table),
    ] {
        assert!(rt;
            fault(rt.alloc(), text) == Some(TextFault { key, part: None }),
            "{text}"
        );
    }
}

fn with_member(alloc: Global, member: &str) -> Result<String, Fail> {
    Ok(format!(in alloc; "{{\"partitiontable\":{{{member}}}}}")?)
}

#[test]
fn faults_of_a_table(rt: HostRuntime) -> Result<(), Fail> {
    for (member, key) in [
        ("\"signature\":1,\"label\":2", Key::Unknown),
        ("\"label\":\"sun\"", Key::Label),
        ("\"label\":1", Key::Label),
        ("\"device\":1,\"unit\":2", Key::Device),
        ("\"unit\":\"bytes\"", Key::Unit),
        ("\"unit\":null", Key::Unit),
        ("\"sectorsize\":\"512\"", Key::SectorSize),
        ("\"sectors\":-1", Key::Sectors),
        ("\"sectors\":18446744073709551616", Key::Sectors),
        ("\"id\":\"0x\"", Key::Id),
        ("\"id\":\"0x123456789\"", Key::Id),
        ("\"id\":\"0x12g\"", Key::Id),
        ("\"id\":\"{00010203-0405-4607-8809-0A0B0C0D0E0F}\"", Key::Id),
        ("\"firstlba\":1.0", Key::FirstLba),
        ("\"lastlba\":null", Key::LastLba),
        ("\"entries\":true", Key::Entries),
        ("\"table-length\":\"12a\"", Key::TableLength),
        ("\"table-length\":\"\"", Key::TableLength),
        ("\"table-length\":\"+12\"", Key::TableLength),
        (
            "\"table-length\":\"18446744073709551616\"",
            Key::TableLength,
        ),
        ("\"table-length\":\"64\",\"entries\":128", Key::TableLength),
        ("\"partitions\":{},\"chain\":1", Key::Partitions),
        ("\"chain\":1,\"partitions\":[1]", Key::Chain),
        ("\"chain\":[1,\"2\"]", Key::Chain),
    ] {
        let text = with_member(rt.alloc(), member)?;
        assert!(rt;
            fault(rt.alloc(), text.as_str()) == Some(TextFault { key, part: None }),
            "{member}"
        );
    }
    Ok(())
}

fn with_part(alloc: Global, member: &str) -> Result<String, Fail> {
    Ok(format!(in alloc; "{{\"partitiontable\":{{\"partitions\":[{{}},{{{member}}},1]}}}}")?)
}

#[test]
fn faults_of_a_place(rt: HostRuntime) -> Result<(), Fail> {
    for (member, key) in [
        ("\"label\":1,\"number\":null", Key::Unknown),
        ("\"number\":null,\"node\":1", Key::Number),
        ("\"node\":1", Key::Node),
        ("\"start\":\"1\"", Key::Start),
        ("\"size\":\"512\"", Key::Size),
        ("\"size\":\"512 MiB\"", Key::Size),
        ("\"size\":\"MiB\"", Key::Size),
        ("\"size\":\"512MB\"", Key::Size),
        ("\"size\":\"16777216TiB\"", Key::Size),
        ("\"size\":null", Key::Size),
        ("\"size\":1,\"last\":1", Key::Last),
        ("\"last\":\"1\"", Key::Last),
        ("\"offset\":-1", Key::Offset),
        ("\"record\":-1", Key::Record),
        ("\"start\":1", Key::Partitions),
    ] {
        let text = with_part(rt.alloc(), member)?;
        let part = if key == Key::Partitions { 3 } else { 2 };
        assert!(rt;
            fault(rt.alloc(), text.as_str())
                == Some(TextFault {
                    key,
                    part: Some(part)
                }),
            "{member}"
        );
    }
    Ok(())
}

#[test]
fn faults_of_a_partition(rt: HostRuntime) -> Result<(), Fail> {
    for (member, key) in [
        ("\"type\":\"no such type\"", Key::Type),
        ("\"type\":\"ee\"", Key::Type),
        ("\"type_name\":1", Key::TypeName),
        ("\"uuid\":\"1\"", Key::Uuid),
        (
            "\"name\":\"1234567890123456789012345678901234567\"",
            Key::Name,
        ),
        ("\"name\":\"a\\u0000\"", Key::Name),
        ("\"name\":\"a\",\"name_units\":[65]", Key::NameUnits),
        ("\"name_units\":[65536]", Key::NameUnits),
        ("\"name_units\":\"a\"", Key::NameUnits),
        ("\"bootable\":1", Key::Bootable),
        ("\"boot\":256", Key::Boot),
        ("\"boot\":0,\"bootable\":false", Key::Boot),
        ("\"start_chs\":\"0101\"", Key::StartChs),
        ("\"end_chs\":\"01010g\"", Key::EndChs),
        ("\"bsd\":{}", Key::Bsd),
    ] {
        let text = with_part(rt.alloc(), member)?;
        assert!(rt;
            fault(rt.alloc(), text.as_str()) == Some(TextFault { key, part: Some(2) }),
            "{member}"
        );
    }
    Ok(())
}

#[test]
fn faults_of_attributes(rt: HostRuntime) -> Result<(), Fail> {
    for (member, key) in [
        ("\"attributes\":\"1\"", Key::Attributes),
        ("\"attrs\":\"Bootable\"", Key::Attrs),
        ("\"attrs\":\"GUID:\"", Key::Attrs),
        ("\"attrs\":\"GUID:47\"", Key::Attrs),
        ("\"attrs\":\"GUID:64\"", Key::Attrs),
        ("\"attrs\":\"GUID:48,\"", Key::Attrs),
        ("\"attrs\":1", Key::Attrs),
        (
            "\"attributes\":5,\"attrs\":\"RequiredPartition\"",
            Key::Attrs,
        ),
    ] {
        let text = with_part(rt.alloc(), member)?;
        assert!(rt;
            fault(rt.alloc(), text.as_str()) == Some(TextFault { key, part: Some(2) }),
            "{member}"
        );
    }
    Ok(())
}

#[test]
fn attributes(rt: HostRuntime) -> Result<(), Fail> {
    for (member, bits) in [
        ("\"attributes\":8", 8),
        ("\"attrs\":\"\"", 0),
        ("\"attrs\":\" RequiredPartition  NoBlockIOProtocol \"", 3),
        ("\"attrs\":\"GUID:63,48 GUID:50\"", 0x8005_0000_0000_0000),
        ("\"attributes\":12,\"attrs\":\"LegacyBIOSBootable\"", 12),
        ("\"attributes\":12,\"attrs\":null", 12),
    ] {
        let text = with_member(
            rt.alloc(),
            format!(in rt.alloc(); "\"partitions\":[{{{member}}}]")?.as_str(),
        )?;
        let draft = read_draft(rt.alloc(), text.as_str())?;
        assert!(rt;
            gpt_part(&draft, 0).and_then(|part| part.attributes) == Some(bits),
            "{member}"
        );
    }
    Ok(())
}

#[test]
fn sizes(rt: HostRuntime) -> Result<(), Fail> {
    for (size, extent) in [
        ("0", Extent::Sectors(0)),
        ("\"0KiB\"", Extent::Bytes(0)),
        ("\"007KiB\"", Extent::Bytes(7168)),
        ("\"3MiB\"", Extent::Bytes(3145728)),
        ("\"5GiB\"", Extent::Bytes(5368709120)),
        ("\"16777215TiB\"", Extent::Bytes(18446742974197923840)),
    ] {
        let text = with_member(
            rt.alloc(),
            format!(in rt.alloc(); "\"partitions\":[{{\"size\":{size}}}]")?.as_str(),
        )?;
        let draft = read_draft(rt.alloc(), text.as_str())?;
        assert!(rt;
            gpt_part(&draft, 0).and_then(|part| part.extent) == Some(extent),
            "{size}"
        );
    }
    Ok(())
}

// ---- labels

const LABEL: &str = r#""kind": 5, "subtype": 6, "type_name": "000102030405060708090a0b0c0d0e0f",
 "pack_name": "00000000000000000000000000000000", "geometry": [63, 16, 20, 1008], "unit": 20160,
 "kept":
"0000000000000000000000000000000000000000000000000000000000000000000000000000000000000000000000000000000000000000000000000000000000000001",
 "bbsize": 8192, "sbsize": 0, "entries": [null, null,
 {"size": 20160, "offset": 4294967295, "fragment": 1, "fstype": 7, "frag": 8, "cpg": 65535},
 null, null, null, null"#;

#[test]
fn labels(rt: HostRuntime) -> Result<(), Fail> {
    let text = format!(in rt.alloc();
        "{{\"partitiontable\":{{\"partitions\":[{{\"bsd\":{{{LABEL}, null]}}}}]}}}}"
    )?;
    let draft = read_draft(rt.alloc(), text.as_str())?;
    let label = gpt_part(&draft, 0)
        .and_then(|part| part.bsd)
        .and_then(|label| label);
    assert!(rt; label.map(|label| label.kind) == Some(5));
    assert!(rt; label.map(|label| label.subtype) == Some(6));
    assert!(rt;
        label.map(|label| label.type_name)
            == Some([0, 1, 2, 3, 4, 5, 6, 7, 8, 9, 10, 11, 12, 13, 14, 15])
    );
    assert!(rt; label.map(|label| label.geometry) == Some([63, 16, 20, 1008]));
    assert!(rt; label.map(|label| label.kept[67]) == Some(1));
    assert!(rt;
        label
            .and_then(|label| label.entries[2])
            .map(|entry| entry.offset)
            == Some(4294967295)
    );
    assert!(rt;
        label
            .and_then(|label| label.entries[2])
            .map(|entry| entry.cpg)
            == Some(65535)
    );
    assert!(rt; label.map(|label| label.entries[7].is_none()) == Some(true));
    Ok(())
}

#[test]
fn faults_of_labels(rt: HostRuntime) -> Result<(), Fail> {
    for end in [
        "]",
        ", null, null]",
        ", null], \"more\": 1",
        ", 1]",
        ", {\"size\": 1}]",
    ] {
        let text = format!(in rt.alloc();
            "{{\"partitiontable\":{{\"partitions\":[{{\"bsd\":{{{LABEL}{end}}}}}]}}}}"
        )?;
        assert!(rt;
            fault(rt.alloc(), text.as_str())
                == Some(TextFault {
                    key: Key::Bsd,
                    part: Some(1)
                }),
            "{end}"
        );
    }
    Ok(())
}

// ---- names of keys

#[test]
fn keys(rt: HostRuntime) -> Result<(), Fail> {
    for (key, name) in [
        (Key::Text, "text"),
        (Key::Table, "partitiontable"),
        (Key::TableLength, "table-length"),
        (Key::FirstLba, "firstlba"),
        (Key::NameUnits, "name_units"),
    ] {
        let text = format!(in rt.alloc(); "{key}")?;
        assert!(rt; text.as_str() == name, "{name}");
    }
    Ok(())
}
