//! When words are refused, as docs/commands.md tells it.

use pt_edit::{Edit, edit, parse_edit};
use pt_guid::Guid;
use std::alloc::Global;
use std::test::Fail;

/// Fresh GUIDs.
const FRESH: [Guid; 4] = [
    Guid([0x10; 16]),
    Guid([0x11; 16]),
    Guid([0x12; 16]),
    Guid([0x13; 16]),
];

/// The edits of a line of words; none where a text is no word.
fn edits_of(alloc: Global, line: &str) -> Result<Option<Vec<Edit>>, Fail> {
    let mut words = Vec::new(alloc);
    for text in line.split(' ') {
        match parse_edit(alloc, text) {
            Ok(word) => words.push(word)?,
            Err(_) => return Ok(None),
        }
    }
    Ok(Some(words))
}

/// The number of the refusal of a line of words on a disk without a table: 0 for none, 99 for no words.
fn refused(alloc: Global, line: &str) -> Result<u8, Fail> {
    match edits_of(alloc, line)? {
        Some(words) => match edit::<512>(alloc, None, 4096, &words, &FRESH) {
            Ok(_) => Ok(0),
            Err(refusal) => Ok(refusal.number()),
        },
        None => Ok(99),
    }
}

#[test]
fn refusals(rt: HostRuntime) -> Result<(), Fail> {
    for (line, number) in [
        ("o n:1:0:0 u:9:00010203-0405-4607-8809-0a0b0c0d0e0f", 1),
        ("d:1", 9),
        ("a:8", 9),
    ] {
        assert!(rt; refused(rt.alloc(), line)? == number);
    }
    Ok(())
}
