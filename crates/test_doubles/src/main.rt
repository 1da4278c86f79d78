//! The program `test_doubles`: `recover`, `verify`, the survey and `check` beside plain versions of them, which copy the
//! disk and look at one thing after the other. It is for tests; nothing of the product names it.
//!
//! Without words it draws images and prints what was found on them. With `SIZE IMAGE [PLAN..]`, sectors of 512 or 4096
//! bytes, it compares on an image file, and on it for each plan file. It ends with 0 where all answers are the same, with
//! 1 where two differ or a file can't be read, with 2 for other words, and with 3 for an image of more than 16,384 sectors.
#![tactic(auto)]

mod checker;
mod compared;
mod disks;
mod drawn;
mod files;
mod health;

use compared::compare_all;
use files::{Said, on_files};
use std::env;
use std::io::Write;
use std::process::ExitCode;
use std::test::Fail;

/// Prints which findings were met on drawn images.
fn print_seen(rt: &HostRuntime, size: usize, seen: &[bool; 16]) -> Result<(), Fail> {
    let mut out = rt.stdout();
    write!(out, "{size}:")?;
    for k in 0..16usize {
        if seen[k] {
            write!(out, " {k}")?;
        }
    }
    Ok(writeln!(out, "")?)
}

/// Compares on drawn images.
fn on_drawn(rt: &HostRuntime) -> Result<u8, Fail> {
    let Some(small) = compare_all::<512>(rt.alloc(), 1000)? else {
        return Ok(1);
    };
    print_seen(rt, 512, &small)?;
    let Some(large) = compare_all::<4096>(rt.alloc(), 400)? else {
        return Ok(1);
    };
    print_seen(rt, 4096, &large)?;
    Ok(0)
}

/// Says what a comparison on files says, and how the program ends.
fn print_said(rt: &HostRuntime, said: Said) -> Result<u8, Fail> {
    let mut out = rt.stdout();
    match said {
        Said::Same => writeln!(out, "same")?,
        Said::ImageDiffers => writeln!(out, "the image differs")?,
        Said::PlanDiffers(number) => writeln!(out, "plan {number} differs")?,
        Said::TooLarge => writeln!(out, "too large")?,
    }
    Ok(match said {
        Said::Same => 0,
        Said::ImageDiffers | Said::PlanDiffers(_) => 1,
        Said::TooLarge => 3,
    })
}

fn status_of(rt: &HostRuntime) -> Result<u8, Fail> {
    let words: Vec<String> = env::args(rt)?.skip(1).collect(rt.alloc())?;
    if words.is_empty() {
        return on_drawn(rt);
    }
    if words.len() < 2 {
        return Ok(2);
    }
    let plans = &words.as_slice()[2..];
    let image = words[1].as_str();
    match words[0].as_str() {
        "512" => print_said(rt, on_files::<512, HostRuntime>(rt, image, plans)?),
        "4096" => print_said(rt, on_files::<4096, HostRuntime>(rt, image, plans)?),
        _ => Ok(2),
    }
}

fn main(rt: HostRuntime) -> Result<ExitCode, Fail> {
    Ok(ExitCode::from(status_of(&rt)?))
}
