//! What texts name, as UEFI, the Discoverable Partitions Specification, sgdisk and sfdisk have it.

use crate::{entry_type, entry_type_name, record_type, record_type_name, types_text};
use pt_guid::parse;

#[test]
fn entries_by_text(rt: HostRuntime) {
    let esp = "C12A7328-F81F-11D2-BA4B-00A0C93EC93B";
    let linux = "0fc63daf-8483-4772-8e79-3d69d8477de4";
    for (text, guid) in [
        ("esp", esp),
        ("efi", esp),
        ("EF00", esp),
        ("ef00", esp),
        (esp, esp),
        ("linux", linux),
        ("8300", linux),
        ("8304", "4f68bce3-e8cd-4db1-96e7-fbcaf984b709"),
        ("root-arm64", "b921b045-1df0-41c3-af44-4c6f280d3fae"),
        (
            "usr-x86-64-verity-sig",
            "e7bb33fb-06cf-4e81-8273-e543b413e2e2",
        ),
        ("fd00", "a19d880f-05fc-4d3b-a006-743f0f84911e"),
        ("lvm", "e6d6d379-f507-44c2-a23c-238f2a3df928"),
        (
            "12345678-1234-1234-1234-123456789abc",
            "12345678-1234-1234-1234-123456789abc",
        ),
    ] {
        assert!(rt; entry_type(text).is_some(), "{text}");
        assert!(rt; entry_type(text) == parse(guid).ok(), "{text}");
    }
    for text in [
        "",
        "83",
        "8399",
        "83000",
        "+830",
        "Linux",
        "ESP",
        "esp ",
        "-",
        "no-such-type",
    ] {
        assert!(rt; entry_type(text) == None, "{text}");
    }
}

#[test]
fn names_of_entries(rt: HostRuntime) {
    for (guid, name) in [
        ("c12a7328-f81f-11d2-ba4b-00a0c93ec93b", Some("esp")),
        (
            "0FC63DAF-8483-4772-8E79-3D69D8477DE4",
            Some("linux-generic"),
        ),
        ("bc13c2ff-59e6-4262-a352-b275fd6f7172", Some("xbootldr")),
        ("773f91ef-66d4-49b5-bd83-d683bf40ad16", Some("user-home")),
        ("00000000-0000-0000-0000-000000000000", None),
    ] {
        let guid = parse(guid).expect(&rt, "a GUID");
        assert!(rt; entry_type_name(&guid) == name);
    }
}

#[test]
fn records(rt: HostRuntime) {
    for (text, kind) in [
        ("83", 0x83),
        ("linux", 0x83),
        ("7", 0x07),
        ("ntfs", 0x07),
        ("0c", 0x0C),
        ("0C", 0x0C),
        ("fat32-lba", 0x0C),
        ("ef", 0xEF),
        ("esp", 0xEF),
        ("raid", 0xFD),
        ("01", 0x01),
        ("99", 0x99),
    ] {
        assert!(rt; record_type(text) == Some(kind), "{text}");
    }
    for text in [
        "", "0", "00", "ee", "EE", "083", "8300", "+8", "gpt", "Linux",
    ] {
        assert!(rt; record_type(text) == None, "{text}");
    }
    assert!(rt; record_type_name(0x82) == Some("swap"));
    assert!(rt; record_type_name(0x8E) == Some("lvm"));
    assert!(rt; record_type_name(0xEE) == None);
}

#[test]
fn listed(rt: HostRuntime) {
    let text = types_text(rt.alloc()).expect(&rt, "memory");
    assert!(rt; text.starts_with("gpt EF00 c12a7328-f81f-11d2-ba4b-00a0c93ec93b esp\n"));
    assert!(rt; text.contains("\ngpt 0700 ebd0a0a2-b9e5-4433-87c0-68b6b72699c7 microsoft-basic\n"));
    assert!(rt; text.contains("\ngpt - 6523f8ae-3eb1-4e2a-a05a-18b695ae656f root-alpha\n"));
    assert!(rt; text.contains("\nmbr 0C fat32-lba\n"));
    assert!(rt; text.ends_with("\nmbr FD linux-raid\n"));
}
