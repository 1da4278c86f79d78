//! What is tried: a disk, words, and what the disk denotes before and after them.

use crate::device::{Stop, denoted, stopped};
use pt_apply::{Plan, apply};
use pt_disks::in_memory::{CrashDisk, MemDisk};
use pt_edit::Edit;
use pt_layout::{Layout, recover};
use pt_plan::{commit, plan_for};
use pt_sector::{Disk, Fault};
use std::alloc::Global;
use std::test::Fail;
use test_samples::{Image, crash_disk, gpt_disk, guids, image_of, made, words};

/// What words do.
#[derive(Clone, Copy)]
pub enum Kind {
    /// An entry of a GPT gets a name.
    Name,
    /// An MBR gets an extended partition, and a logical one in it.
    Logical,
    /// A slice gets a partition in its label.
    Label,
    /// An MBR becomes a GPT.
    Conversion,
}

/// How large the disk is.
#[derive(Clone, Copy)]
pub enum Size {
    /// 4,096 sectors or more.
    Large,
    /// 128 sectors, on which the same words make as many calls.
    Small,
}

/// The calls of a plan in which the disk turns from the old layout to the new one.
#[derive(Clone, Copy)]
pub struct Turn {
    first: u64,
    last: u64,
}

/// A disk, words for it and their plan, and what it denotes before and after them.
#[derive(Drop)]
pub struct Case {
    pub image: Image<512>,
    pub edits: Vec<Edit>,
    pub plan: Plan<512>,
    pub old: Layout,
    pub new: Layout,
    pub turn: Turn,
}

/// What a stopped disk denotes.
#[derive(Clone, Copy, Debug, PartialEq, Eq)]
pub enum Left {
    Old,
    New,
    Neither,
}

impl Turn {
    /// Whether a disk may denote this where this call of the plan failed.
    pub fn allows(self, call: u64, left: Left) -> bool {
        if call < self.first {
            left == Left::Old
        } else if call <= self.last {
            left != Left::Neither
        } else {
            left == Left::New
        }
    }
}

fn turn_of(kind: Kind) -> Turn {
    let (first, last) = match kind {
        Kind::Name => (35, 36),
        Kind::Logical => (4, 5),
        Kind::Label => (1, 2),
        Kind::Conversion => (68, 69),
    };
    Turn { first, last }
}

fn large_disk(alloc: Global, kind: Kind) -> Result<MemDisk<512>, Fail> {
    match kind {
        Kind::Name => gpt_disk(alloc),
        Kind::Logical => made(alloc, 16384, true, &[]),
        Kind::Label => made(alloc, 8192, true, &["n:1:2048:6143:A5"]),
        Kind::Conversion => made(alloc, 4096, true, &["n:1:2048:4062:83"]),
    }
}

fn small_disk(alloc: Global, kind: Kind) -> Result<MemDisk<512>, Fail> {
    match kind {
        Kind::Name => made(alloc, 128, false, &["o", "a:1", "n:1:0:0"]),
        Kind::Logical => made(alloc, 128, true, &[]),
        Kind::Label => made(alloc, 128, true, &["a:1", "n:1:40:120:A5"]),
        Kind::Conversion => made(alloc, 128, true, &["a:1", "n:1:34:94:83"]),
    }
}

fn edits_of(alloc: Global, kind: Kind, size: Size) -> Result<Vec<Edit>, Fail> {
    match (kind, size) {
        (Kind::Name, _) => words(alloc, &["c:1:data"]),
        (Kind::Conversion, _) => words(alloc, &["g"]),
        (Kind::Logical, Size::Large) => words(alloc, &["n:2:4096:12287:05", "n:5:0:+1000"]),
        (Kind::Logical, Size::Small) => words(alloc, &["a:1", "n:2:40:120:05", "n:5:64:+20"]),
        (Kind::Label, Size::Large) => words(alloc, &["a:1", "n:1.a:2064:4063"]),
        (Kind::Label, Size::Small) => words(alloc, &["a:1", "n:1.a:60:100"]),
    }
}

fn disk_of(alloc: Global, kind: Kind, size: Size) -> Result<MemDisk<512>, Fail> {
    match size {
        Size::Large => large_disk(alloc, kind),
        Size::Small => small_disk(alloc, kind),
    }
}

/// What a disk denotes after a commit.
fn committed_on(alloc: Global, disk: &mut MemDisk<512>, edits: &[Edit]) -> Result<Layout, Fail> {
    commit(alloc, disk, edits, &guids())?;
    Ok(recover(alloc, disk)?)
}

impl Case {
    /// The words of this kind on a disk of this size.
    pub fn new(alloc: Global, kind: Kind, size: Size) -> Result<Case, Fail> {
        let mut disk = disk_of(alloc, kind, size)?;
        let image = image_of(alloc, &mut disk)?;
        let old = recover(alloc, &mut disk)?;
        let edits = edits_of(alloc, kind, size)?;
        let plan = plan_for(alloc, &mut disk, &edits, &guids())?;
        let new = committed_on(alloc, &mut disk, &edits)?;
        Ok(Case {
            image,
            edits,
            plan,
            old,
            new,
            turn: turn_of(kind),
        })
    }

    /// Which of the case's layouts this one is.
    pub fn which(&self, layout: &Layout) -> Left {
        if layout.same(&self.new) {
            Left::New
        } else if layout.same(&self.old) {
            Left::Old
        } else {
            Left::Neither
        }
    }

    /// Which layout the disk denotes where it is stopped.
    pub fn left_by(&self, alloc: Global, disk: CrashDisk<512>, stop: Stop) -> Result<Left, Fail> {
        let mut disk = stopped(disk, stop);
        let layout = denoted(alloc, &mut disk)?;
        Ok(self.which(&layout))
    }

    /// The disk after the plan, of which a call failed, and what `apply` answered.
    pub fn applied(
        &self,
        alloc: Global,
        stop: Stop,
    ) -> Result<(CrashDisk<512>, Result<(), Fault>), Fail> {
        let mut disk = crash_disk(alloc, &self.image)?;
        let plan = plan_for(alloc, &mut disk, &self.edits, &guids())?;
        disk.flush()?;
        disk.fail_at(stop.call, stop.kept);
        let answer = apply(&mut disk, &plan);
        Ok((disk, answer))
    }

    /// The fault of each call of the plan, in order.
    pub fn faults(&self, alloc: Global) -> Result<Vec<Fault>, Fail> {
        let mut faults = Vec::new(alloc);
        for phase in &self.plan.phases {
            for write in phase {
                faults.push(Fault::Write(write.lba))?;
            }
            faults.push(Fault::Flush)?;
        }
        Ok(faults)
    }
}
