//! The texts of words, as docs/commands.md tells them.

use pt_guid::Guid;
use pt_layout::Path;
use pt_words::{Code, Edit, EditError, End, parse_edit};
use std::alloc::Global;
use std::test::Fail;

/// 00010203-0405-4607-8809-0a0b0c0d0e0f, as it is stored.
const FRESH: Guid = Guid([3, 2, 1, 0, 5, 4, 7, 0x46, 0x88, 9, 10, 11, 12, 13, 14, 15]);

/// The number of a text's error; 0 where it is a word.
fn error_of(alloc: Global, text: &str) -> u8 {
    match parse_edit(alloc, text) {
        Ok(_) => 0,
        Err(error) => error.number(),
    }
}

/// Whether a text is this word.
fn is(alloc: Global, text: &str, wanted: Edit) -> bool {
    parse_edit(alloc, text) == Ok(wanted)
}

const SECOND_OF_TWO: Path = Path {
    number: 2,
    letter: Some(1),
};

/// The word of a new partition.
fn new(path: Path, start: u64, end: End, code: Option<Code>) -> Edit {
    Edit::New {
        path,
        start,
        end,
        code,
    }
}

#[test]
fn words_of_new_partitions(rt: HostRuntime) {
    let highest = "n:2.b:18446744073709551615:+18446744073709551615:a5";
    let length = End::Length(u64::MAX);
    let wanted = new(SECOND_OF_TWO, u64::MAX, length, Some(Code::Two(0xA5)));
    assert!(rt; is(rt.alloc(), highest, wanted));
}

#[test]
fn words_with_a_number(rt: HostRuntime) {
    assert!(rt; is(rt.alloc(), "a:65536", Edit::Align(65536)));
}

#[test]
fn words_of_the_table(rt: HostRuntime) {
    let unique = "u:1:00010203-0405-4607-8809-0A0b0C0d0E0f";
    assert!(rt; is(rt.alloc(), unique, Edit::SetUnique(1, FRESH)));
}

#[test]
fn names_are_the_rest(rt: HostRuntime) -> Result<(), Fail> {
    let name = String::from_str(rt.alloc(), "a:b::")?;
    assert!(rt; is(rt.alloc(), "c:1:a:b::", Edit::SetName(1, name)));
    Ok(())
}

#[test]
fn letters_that_are_not_known(rt: HostRuntime) {
    let unknown = ["", "x", "x:1", "aa:1", "a ", "N:1:0:0", ":1", "é:1"];
    for text in unknown {
        assert!(rt; error_of(rt.alloc(), text) == 1);
    }
}

#[test]
fn counts_of_parts(rt: HostRuntime) {
    let counts = [
        "a",
        "a:1:2",
        "n:0:0",
        "n:0:0:0:83:1",
        "d",
        "d:0:0",
        "t:0",
        "c",
        "c:0",
        "u:0",
        "U",
        "A:0:0",
        "e:",
        "g:1",
        "o::",
    ];
    for text in counts {
        assert!(rt; error_of(rt.alloc(), text) == 2);
    }
}

#[test]
fn alignments_that_are_none(rt: HostRuntime) {
    for text in [
        "a:0", "a:65537", "a:", "a:01", "a:+1", "a:-1", "a:1 ", "a:0x1",
    ] {
        assert!(rt; error_of(rt.alloc(), text) == 3);
    }
}

#[test]
fn numbers_of_new_partitions_that_are_none(rt: HostRuntime) {
    for text in [
        "n:0.a:0:0",
        "n:1.i:0:0",
        "n:1.A:0:0",
        "n:1.:0:0",
        "n::0:0",
        "n:00:0:0",
        "n:1::0",
        "n:1:0:",
        "n:1:0:+0",
        "n:1:0:+",
        "n:1:0:+01",
        "n:1:0:00",
        "n:1:18446744073709551616:0",
        "n:1:0:18446744073709551616",
        "n:x:x:x:x",
    ] {
        assert!(rt; error_of(rt.alloc(), text) == 3);
    }
}

#[test]
fn other_numbers_that_are_none(rt: HostRuntime) {
    for text in [
        "d:0",
        "d:1.a.a",
        "d:1a",
        "t:0:83",
        "c:0:x",
        "c:1.a:x",
        "u:0:00010203-0405-4607-8809-0a0b0c0d0e0f",
        "u:1.a:00010203-0405-4607-8809-0a0b0c0d0e0f",
        "A:0:2:1",
        "A:1.a:2:1",
        "A:1:64:1",
        "A:1:1:2",
    ] {
        assert!(rt; error_of(rt.alloc(), text) == 3);
    }
}

#[test]
fn guids_that_are_none(rt: HostRuntime) {
    let guids = [
        "u:1:",
        "u:1:00010203",
        "U:",
        "U:{00010203-0405-4607-8809-0a0b0c0d0e0f}",
    ];
    for text in guids {
        assert!(rt; error_of(rt.alloc(), text) == 4);
    }
}

#[test]
fn codes_that_are_none(rt: HostRuntime) {
    let codes = [
        "t:1:",
        "t:1:8",
        "t:1:830",
        "t:1:83000",
        "t:1:8g",
        "t:1:+8",
        "t:1:+830",
        "n:1:0:0:",
    ];
    for text in codes {
        assert!(rt; error_of(rt.alloc(), text) == 5);
    }
}

#[test]
fn refused_memory_has_a_number(rt: HostRuntime) {
    assert!(rt; EditError::Memory.number() == 6);
}
