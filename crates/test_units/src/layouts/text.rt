//! Texts by hand, and plans that come back from their texts.

ghost use Rattle.std.specs.Prelude.{◌<◌, All, length, IfOk};
ghost use Rattle.pt_sector.specs.Sectors.{IsSectorSize};

use pt_apply::{Plan, PlanTextError, Write, plan_text, read_plan};
use pt_sector::Lba;
use std::alloc::{AllocError, Global};
use std::test::Fail;

// A line or more: so many pairs of digits between two texts.
fn lines(
    alloc: Global,
    start: &str,
    pair: &str,
    count: u64,
    end: &str,
) -> Result<String, AllocError> {
    let mut text = String::new(alloc);
    text.push_str(start)?;
    for _ in 0..count {
        text.push_str(pair)?;
    }
    text.push_str(end)?;
    Ok(text)
}

fn fault(alloc: Global, text: &str) -> Option<PlanTextError> {
    match read_plan::<512>(alloc, text) {
        Ok(_plan) => None,
        Err(error) => Some(error),
    }
}

// What is reported of such a text.
fn fault_of(
    alloc: Global,
    start: &str,
    pair: &str,
    count: u64,
    end: &str,
) -> Result<Option<PlanTextError>, AllocError> {
    let text = lines(alloc, start, pair, count, end)?;
    Ok(fault(alloc, &text))
}

// Whether this is reported of a text with each of these ends.
fn ends_are(alloc: Global, ends: &[&str], want: Option<PlanTextError>) -> bool {
    for end in ends {
        if fault_of(alloc, "W 1 ", "00", 512, end) != Ok(want) {
            return false;
        }
    }
    true
}

// Whether ends that no text has are reported.
fn bad_ends_are_told(alloc: Global) -> bool {
    ends_are(
        alloc,
        &[" \nF\n", "\r\nF\n", ""],
        Some(PlanTextError::BadLine(1)),
    ) && ends_are(alloc, &["\n"], Some(PlanTextError::NoFinalFlush))
        && ends_are(
            alloc,
            &["\nF", "\nF\r\n", "\nf\n"],
            Some(PlanTextError::BadLine(2)),
        )
        && ends_are(
            alloc,
            &["\nF\nF\n", "\nF\n\n"],
            Some(PlanTextError::BadLine(3)),
        )
}

#[test]
fn lines_of_writes(rt: HostRuntime) {
    let bad = Ok(Some(PlanTextError::BadLine(1)));
    assert!(rt; bad_ends_are_told(rt.alloc()));
    assert!(rt; fault_of(rt.alloc(), "W 1 ", "0g", 512, "\nF\n") == bad);
}

fn two_phases<const B: usize>(alloc: Global) -> Result<Plan<B>, AllocError>
    requires { IsSectorSize B }
    ensures { IfOk result (λ plan. All (λ p. 0 < length p.items) plan.phases.items) }
{
    let mut first = Vec::new(alloc);
    first.push(Write {
        lba: Lba(34),
        bytes: [0xAB; B],
    })?;
    first.push(Write {
        lba: Lba(0),
        bytes: [0x01; B],
    })?;
    let mut second = Vec::new(alloc);
    second.push(Write {
        lba: Lba(u64::MAX),
        bytes: [0xF0; B],
    })?;
    let mut phases = Vec::new(alloc);
    phases.push(first)?;
    phases.push(second)?;
    Ok(Plan { phases })
}

// The text of the plan, and the text of the plan that is read from it.
fn there_and_back<const B: usize>(alloc: Global) -> Result<(String, String), Fail>
    requires { IsSectorSize B }
{
    let text = plan_text(alloc, &two_phases::<B>(alloc)?)?;
    match read_plan::<B>(alloc, &text) {
        Ok(plan) => {
            let again = plan_text(alloc, &plan)?;
            Ok((text, again))
        }
        Err(_) => Ok((text, String::new(alloc))),
    }
}

#[test]
fn plans_come_back(rt: HostRuntime) -> Result<(), Fail> {
    let (text, again) = there_and_back::<512>(rt.alloc())?;
    assert!(rt; text.len() == 3111);
    assert!(rt; text.starts_with("W 34 abab"));
    assert!(rt; text.ends_with("f0f0\nF\n"));
    assert!(rt; text.as_str() == again.as_str());
    let (text, again) = there_and_back::<4096>(rt.alloc())?;
    assert!(rt; text.as_str() == again.as_str());
    Ok(())
}

#[test]
fn numbers_of_errors(rt: HostRuntime) {
    assert!(rt; PlanTextError::BadLine(7).number() == 1);
    assert!(rt; PlanTextError::NoFinalFlush.number() == 2);
    assert!(rt; PlanTextError::Memory.number() == 3);
}
