//! The types of records of an MBR.

ghost use Rattle.std.specs.Prelude.{◌≡◌, map};
ghost use Rattle.pt_types.specs.Tables.{record_table};
ghost use Rattle.pt_types.specs.Types.{record_row};

/// A type of a record, by one of its names.
#[derive(Clone, Copy, Debug, PartialEq, Eq)]
pub struct RecordType {
    /// Its name.
    pub name: &'static str,
    /// Its number (OSType).
    pub kind: u8,
}

macro_rules! record_types {
    ($($kind:literal, $name:literal;)*) => {
        [$(RecordType { name: $name, kind: $kind }),*]
    };
}

const RECORDS: [RecordType; 56] = record_types! {
    0x01, "fat12";
    0x04, "fat16-small";
    0x05, "extended";
    0x06, "fat16";
    0x07, "ntfs";
    0x0B, "fat32";
    0x0C, "fat32-lba";
    0x0E, "fat16-lba";
    0x0F, "extended-lba";
    0x11, "hidden-fat12";
    0x12, "compaq-diagnostics";
    0x14, "hidden-fat16-small";
    0x16, "hidden-fat16";
    0x17, "hidden-ntfs";
    0x1B, "hidden-fat32";
    0x1C, "hidden-fat32-lba";
    0x1E, "hidden-fat16-lba";
    0x27, "windows-recovery";
    0x39, "plan9";
    0x41, "prep";
    0x4D, "qnx4";
    0x4E, "qnx4-second";
    0x4F, "qnx4-third";
    0x63, "hurd";
    0x80, "minix-old";
    0x81, "minix";
    0x82, "swap";
    0x83, "linux";
    0x84, "hibernation";
    0x85, "linux-extended";
    0x88, "linux-plaintext";
    0x8E, "lvm";
    0xA5, "freebsd";
    0xA6, "openbsd";
    0xA7, "nextstep";
    0xA8, "darwin-ufs";
    0xA9, "netbsd";
    0xAB, "darwin-boot";
    0xAF, "hfs";
    0xBE, "solaris-boot";
    0xBF, "solaris";
    0xDA, "non-fs";
    0xDE, "dell-utility";
    0xEA, "xbootldr";
    0xEB, "beos";
    0xEF, "esp";
    0xF8, "ebbr-protective";
    0xFB, "vmware-vmfs";
    0xFC, "vmware-vmkcore";
    0xFD, "raid";
    0x07, "exfat";
    0xEF, "efi";
    0xEF, "uefi";
    0x82, "linux-swap";
    0x8E, "linux-lvm";
    0xFD, "linux-raid";
};

/// All types of records, in the order in which they are printed. Of two with one number the first one has its printed name.
pub fn record_types() -> &'static [RecordType]
    ensures { map record_row result.now ≡ record_table }
{
    &RECORDS
}
