//! The numbers of devices.

ghost use Rattle.std.specs.Prelude.{IfSome, IfNone, IsTrue, ◌↔◌, Contains, IsSomeAnd};
ghost use Rattle.pt_disks.specs.declared.numbers.DeviceNumber.{DeviceNumber};
ghost use Rattle.pt_disks.specs.inner.Devices.{IsDeviceNumber, IsPacked};

use pt_path::parse_number;

/// The number of a device, as Linux has it.
#[derive(Clone, Copy, Debug, PartialEq, Eq)]
pub(crate) struct DeviceNumber {
    pub(crate) major: u64,
    pub(crate) minor: u64,
}

impl DeviceNumber {
    /// The number that stat(2) gives in 64 bits.
    pub(crate) fn of(packed: u64) -> DeviceNumber
        ensures { IsPacked packed result }
    {
        DeviceNumber {
            major: packed / 0x100 % 0x1000 + packed / 0x1000_0000_0000 * 0x1000,
            minor: packed % 0x100 + packed / 0x10_0000 % 0x100_0000 * 0x100,
        }
    }

    /// The number that a text is, as `8:1`.
    pub(crate) fn read(text: &str) -> Option<DeviceNumber>
        ensures some { IfSome result (IsDeviceNumber text.now) }
        ensures none { IfNone result ((number : DeviceNumber) → ¬ IsDeviceNumber text.now number) }
    {
        let (major, minor) = text.split_once(':')?;
        let major = parse_number(major)?;
        let minor = parse_number(minor)?;
        Some(DeviceNumber { major, minor })
    }
}

/// Whether it is a number, and one of these.
pub(crate) fn is_one_of(numbers: &[DeviceNumber], it: Option<DeviceNumber>) -> bool
    ensures { IsTrue result ↔ IsSomeAnd it (Contains numbers.now) }
{
    match it {
        Some(it) => numbers.contains(&it),
        None => false,
    }
}
