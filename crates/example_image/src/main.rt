//! Makes a disk image with an EFI and a root partition, and prints where they are.
//!
//! usage: example_image IMAGE
#![tactic(auto)]

use anyhow::{Context, Result, bail};
use jawefon::{Access, Edit, FileDisk, Guid, commit, fresh, members, parse_edit, recover};
use std::env;
use std::fs::{File, OpenFile};
use std::random::RandomSource;

/// The size of the image: 64 MiB.
const BYTES: u64 = 64 << 20;

/// An empty GPT; 16 MiB for the EFI system partition, the rest for the root. Sectors have 512 bytes.
static WORDS: [&str; 5] = [
    "o",
    "n:1:0:+32768:EF00",
    "c:1:EFI",
    "n:2:0:0:8300",
    "c:2:root",
];

/// How many GUIDs the words take: one for the disk and one for each partition.
const GUIDS: usize = 3;

fn read_words(rt: &HostRuntime) -> Result<Vec<Edit>> {
    let mut edits = Vec::new(rt.alloc());
    for word in WORDS.as_slice() {
        edits.push(parse_edit(rt.alloc(), word).context(format_args!("the word {word}"))?)?;
    }
    Ok(edits)
}

fn draw_guids(rt: &HostRuntime) -> Result<Vec<Guid>> {
    let mut guids = Vec::new(rt.alloc());
    for _ in 0..GUIDS {
        let mut drawn = [0; 16];
        rt.fill_bytes(&mut drawn)?;
        guids.push(fresh(drawn))?;
    }
    Ok(guids)
}

fn make_image(rt: &HostRuntime, path: &str) -> Result<()> {
    let edits = read_words(rt)?;
    let guids = draw_guids(rt)?;
    File::create_new(rt, path)
        .context("making the image")?
        .set_len(BYTES)?;
    let mut disk = FileDisk::<512>::open(rt, path, Access::Write)?;
    // Until this returns, a power cut leaves an empty disk or the whole table.
    commit(rt.alloc(), &mut disk, edits.as_slice(), guids.as_slice())?;
    let layout = recover(rt.alloc(), &mut disk)?;
    for part in &members::<512>(rt.alloc(), &layout)? {
        println!(rt;
            "partition {}: sectors {} to {}",
            part.path, part.first, part.last
        )?;
    }
    Ok(())
}

fn main(rt: HostRuntime) -> Result<()> {
    match env::args(&rt)?.nth(1) {
        Some(path) => make_image(&rt, path.as_str()),
        None => bail!("usage: example_image IMAGE"),
    }
}
