//! Sizes in binary units.

ghost use Rattle.std.specs.Prelude.{◌≡◌, ◌<◌, ◌≤◌, ◌^◌, ◌++◌, ◌%◌, IfOk, OnOk, string_bytes};
ghost use Rattle.pt_human.specs.Sizes.{count_text, scaled, size_text, tenth};

use std::alloc::{AllocError, Global};

const KIB: u128 = 1 << 10;

const MIB: u128 = 1 << 20;

const GIB: u128 = 1 << 30;

const TIB: u128 = 1 << 40;

const PIB: u128 = 1 << 50;

const EIB: u128 = 1 << 60;

/// Beyond this no disk has a sector.
const BEYOND: u128 = 1 << 64;

// Adds what stands between a number and its unit: a digit behind the point where the number isn't whole, and a space.
fn push_tenth(text: &mut String, rest: u128, unit: u128) -> Result<(), AllocError>
    requires rest { rest < unit }
    requires small { unit ≤ 2 ^ 60 }
    ensures { OnOk result (string_bytes text.new ≡ string_bytes text.old ++ tenth rest unit) }
{
    if rest == 0 {
        return text.push_str(" ");
    }
    write!(text, ".{} ", rest * 10 / unit)
}

// A number of bytes in a unit.
fn scaled(alloc: Global, bytes: u128, unit: u128, name: &str) -> Result<String, AllocError>
    requires some { 0 < unit }
    requires small { unit ≤ 2 ^ 60 }
    ensures { IfOk result (λ text. string_bytes text ≡ scaled bytes unit name.now) }
{
    let mut text = format!(in alloc; "{}", bytes / unit)?;
    push_tenth(&mut text, bytes % unit, unit)?;
    text.push_str(name)?;
    Ok(text)
}

/// A number of bytes as a person reads it, rounded down to one digit behind the point.
pub(crate) fn size_text(alloc: Global, bytes: u128) -> Result<String, AllocError>
    ensures { IfOk result (λ text. string_bytes text ≡ size_text bytes) }
{
    if bytes < KIB {
        return scaled(alloc, bytes, 1, "B");
    }
    if bytes < MIB {
        return scaled(alloc, bytes, KIB, "KiB");
    }
    if bytes < GIB {
        return scaled(alloc, bytes, MIB, "MiB");
    }
    if bytes < TIB {
        return scaled(alloc, bytes, GIB, "GiB");
    }
    if bytes < PIB {
        return scaled(alloc, bytes, TIB, "TiB");
    }
    if bytes < EIB {
        return scaled(alloc, bytes, PIB, "PiB");
    }
    scaled(alloc, bytes, EIB, "EiB")
}

/// The size of the sectors from the first to the last of `B` bytes each, or a hyphen where no disk has them.
pub(crate) fn count_text(
    alloc: Global,
    sector_size: u128,
    first: u128,
    last: u128,
) -> Result<String, AllocError>
    requires { sector_size ≤ 4096 }
    ensures { IfOk result (λ text. string_bytes text ≡ count_text sector_size first last) }
{
    if first > last || last >= BEYOND {
        return String::from_str(alloc, "-");
    }
    size_text(alloc, (last - first + 1) * sector_size)
}
