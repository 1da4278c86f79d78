//! The program `test_faults`: on a disk in memory that stops and fails, each call of a plan, a commit, a repair and a
//! session fails in turn, and the disk that is left must denote what it may. It is for tests; nothing of the product names
//! it.
//!
//! Without words it tries each call of four plans and of their whole commits. With `repair KIND FIRST LAST`, or `rename`,
//! it tries what follows a plan of which these calls failed: a repair, or another name; with `session FROM APART` every so
//! many calls of three names. KIND is `name`, `logical`, `label` or `conversion`. It prints how many stops were tried, and
//! ends with 1 at the first disk that isn't as it may be, with 2 for other words.
#![tactic(auto)]

mod case;
mod commits;
mod device;
mod plans;
mod seconds;
mod sessions;

use case::{Case, Kind, Size};
use commits::try_commit;
use plans::try_plan;
use seconds::try_seconds;
use sessions::try_session;
use std::env;
use std::io::Write;
use std::process::ExitCode;
use std::test::Fail;
use test_samples::words;

/// The kinds, by name, with the calls of their plans.
const KINDS: [(&str, Kind, usize); 4] = [
    ("name", Kind::Name, 71),
    ("logical", Kind::Logical, 5),
    ("label", Kind::Label, 2),
    ("conversion", Kind::Conversion, 69),
];

fn kind_of(word: &str) -> Option<Kind> {
    for (name, kind, _calls) in KINDS {
        if word == name {
            return Some(kind);
        }
    }
    None
}

fn print_tried(rt: &HostRuntime, what: &str, tried: u64) -> Result<(), Fail> {
    Ok(writeln!(rt.stdout(), "{what}: {tried} stops")?)
}

/// Each call of a plan of so many, and of its commit.
fn try_kind(rt: &HostRuntime, name: &str, kind: Kind, calls: usize) -> Result<(), Fail> {
    let alloc = rt.alloc();
    let case = Case::new(alloc, kind, Size::Large)?;
    print_tried(rt, name, try_plan(alloc, &case, calls)?)?;
    let _tried = try_commit(alloc, &case)?;
    Ok(())
}

/// Each call of the four plans, and of their commits.
fn try_all(rt: &HostRuntime) -> Result<(), Fail> {
    for (name, kind, calls) in KINDS {
        try_kind(rt, name, kind, calls)?;
    }
    Ok(())
}

/// What follows a fault: a repair, or another name.
fn try_second(
    rt: &HostRuntime,
    kind: Kind,
    is_repair: bool,
    calls: (u64, u64),
) -> Result<(), Fail> {
    let alloc = rt.alloc();
    let case = Case::new(alloc, kind, Size::Small)?;
    let other = words(alloc, &["c:1:other"])?;
    let edits = if is_repair {
        None
    } else {
        Some(other.as_slice())
    };
    let tried = try_seconds(alloc, &case, calls, edits)?;
    print_tried(rt, if is_repair { "repair" } else { "rename" }, tried)
}

/// Sessions of three names.
fn try_sessions(rt: &HostRuntime, from: u64, apart: u64) -> Result<(), Fail> {
    let case = Case::new(rt.alloc(), Kind::Name, Size::Small)?;
    let tried = try_session(rt.alloc(), &case, from, apart)?;
    print_tried(rt, "session", tried)
}

/// What the words ask for.
#[derive(Clone, Copy)]
enum Job {
    All,
    Session {
        from: u64,
        apart: u64,
    },
    Second {
        kind: Kind,
        is_repair: bool,
        calls: (u64, u64),
    },
}

fn number(word: &str) -> Option<u64> {
    word.parse::<u64>().ok()
}

fn session_of(words: &[String]) -> Option<Job> {
    if words.len() != 3 || words[0].as_str() != "session" {
        return None;
    }
    let from = number(words[1].as_str())?;
    let apart = number(words[2].as_str())?;
    Some(Job::Session { from, apart })
}

fn second_of(words: &[String]) -> Option<Job> {
    if words.len() != 4 {
        return None;
    }
    let is_repair = match words[0].as_str() {
        "repair" => true,
        "rename" => false,
        _ => return None,
    };
    let kind = kind_of(words[1].as_str())?;
    let calls = (number(words[2].as_str())?, number(words[3].as_str())?);
    Some(Job::Second {
        kind,
        is_repair,
        calls,
    })
}

fn job_of(words: &[String]) -> Option<Job> {
    if words.is_empty() {
        return Some(Job::All);
    }
    match session_of(words) {
        Some(session) => Some(session),
        None => second_of(words),
    }
}

fn try_job(rt: &HostRuntime, job: Job) -> Result<(), Fail> {
    match job {
        Job::All => try_all(rt),
        Job::Session { from, apart } => try_sessions(rt, from, apart),
        Job::Second {
            kind,
            is_repair,
            calls,
        } => try_second(rt, kind, is_repair, calls),
    }
}

fn on_words(rt: &HostRuntime, words: &[String]) -> Result<u8, Fail> {
    match job_of(words) {
        Some(job) => {
            try_job(rt, job)?;
            Ok(0)
        }
        None => Ok(2),
    }
}

fn main(rt: HostRuntime) -> Result<ExitCode, Fail> {
    let words: Vec<String> = env::args(&rt)?.skip(1).collect(rt.alloc())?;
    Ok(ExitCode::from(on_words(&rt, words.as_slice())?))
}
