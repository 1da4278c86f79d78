//! Comparisons on an image file and plan files.

ghost use Rattle.pt_sector.specs.Sectors.{IsSectorSize};

use crate::compared::{agrees, compared};
use crate::disks::{MOST, copied};
use pt_apply::{Plan, read_plan};
use pt_disks::{Access, FileDisk, open_plain};
use pt_sector::Disk;
use std::fs::{File, Files};
use std::io::Read;
use std::test::Fail;

/// What a comparison on files says.
#[derive(Clone, Copy)]
pub enum Said {
    /// All answers are the same.
    Same,
    /// Those on the image differ.
    ImageDiffers,
    /// Those to this plan differ, the first one being 1.
    PlanDiffers(u64),
    /// The image has more sectors than are compared.
    TooLarge,
}

/// The plan in a plain file.
fn plan_in<const B: usize, R: Files<File = File> + AllocGlobal>(
    rt: &R,
    path: &str,
) -> Result<Plan<B>, Fail>
    requires { IsSectorSize B }
{
    let mut file = open_plain(rt, path, Access::Read)?;
    let mut bytes = Vec::new(rt.alloc());
    file.read_to_end(&mut bytes)?;
    match String::from_utf8(bytes) {
        Ok(text) => Ok(read_plan::<B>(rt.alloc(), text.as_str())?),
        Err(_) => Err(Fail::new("a plan that is not UTF-8")),
    }
}

/// Compares on the image, and on it for each of the plans.
pub fn on_files<const B: usize, R: Files<File = File> + AllocGlobal>(
    rt: &R,
    image: &str,
    plans: &[String],
) -> Result<Said, Fail>
    requires { IsSectorSize B }
{
    let alloc = rt.alloc();
    let mut file = FileDisk::<B>::open(rt, image, Access::Read)?;
    if file.sectors() > MOST {
        return Ok(Said::TooLarge);
    }
    let mut disk = copied(alloc, &mut file)?;
    if compared(alloc, &mut disk)?.is_none() {
        return Ok(Said::ImageDiffers);
    }
    let mut number: u64 = 0;
    for path in plans {
        number = number.saturating_add(1);
        let plan = plan_in::<B, R>(rt, path.as_str())?;
        if !agrees(alloc, &mut disk, &plan)? {
            return Ok(Said::PlanDiffers(number));
        }
    }
    Ok(Said::Same)
}
