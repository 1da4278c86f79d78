//! Checks a plan of writes, which may come from anywhere, prints what it would make, and applies it to a disk image where that is
//! safe.
//!
//! usage: example_apply IMAGE PLAN
#![tactic(auto)]

ghost use Rattle.jawefon.specs.Sectors.{IsSectorSize};

use anyhow::{Context, Result, bail};
use jawefon::{
    Access, After, Answer, Disk, FileDisk, Layout, apply_checked, layout_after, members, read_plan,
    recover,
};
use std::{env, fs};

/// Of any disk, with sectors of 512 or 4096 bytes.
fn print_partitions<const B: usize, D: Disk<B>>(rt: &HostRuntime, disk: &mut D) -> Result<()>
    requires { IsSectorSize B }
{
    let layout = recover(rt.alloc(), disk)?;
    print_layout::<B>(rt, &layout)
}

fn print_layout<const B: usize>(rt: &HostRuntime, layout: &Layout) -> Result<()> {
    for part in &members::<B>(rt.alloc(), layout)? {
        println!(rt;
            "  partition {}: sectors {} to {}",
            part.path, part.first, part.last
        )?;
    }
    Ok(())
}

fn apply_plan(rt: &HostRuntime, image: &str, file: &str) -> Result<()> {
    let text = fs::read_to_string(rt, file).context("reading the plan")?;
    let plan = read_plan::<512>(rt.alloc(), text.as_str())?;
    let mut disk = FileDisk::<512>::open(rt, image, Access::Write)?;
    println!(rt; "before:")?;
    print_partitions(rt, &mut disk)?;
    // Looking writes nothing. After a yes a power cut within the plan leaves the old table or the new one.
    match layout_after(rt.alloc(), &mut disk, &plan)? {
        After::No(why) => bail!("not safe: {why}"),
        After::Layout(layout) => {
            println!(rt; "safe, and makes:")?;
            print_layout::<512>(rt, &layout)?;
        }
    }
    // This asks again, and then writes. Once it says yes, all is on the disk to stay.
    match apply_checked(rt.alloc(), &mut disk, &plan)? {
        Answer::No(why) => bail!("not safe any more: {why}"),
        Answer::Yes { .. } => println!(rt; "after:")?,
    }
    print_partitions(rt, &mut disk)
}

fn main(rt: HostRuntime) -> Result<()> {
    let mut words = env::args(&rt)?.skip(1);
    match (words.next(), words.next()) {
        (Some(image), Some(file)) => apply_plan(&rt, image.as_str(), file.as_str()),
        _ => bail!("usage: example_apply IMAGE PLAN"),
    }
}
