//! What the command says of itself. By `-h` each page stays within a screen of 24 lines of 80 characters. `--help` has besides each text
//! that the command prints of a fault, a refusal or a no, with its number and the sentence that says what it means. These rows are
//! what docs/texts.toml says, as in docs/commands.md and man/ptab.8: packaging/put_texts.py writes them.

/// The version that `--version` prints behind the program's name.
pub const VERSION: &str = "0.9.0";

/// What a page says: in its first line, at the end of what `-h` prints, and at the end of what `--help` prints.
#[derive(Clone, Copy)]
pub struct Texts {
    pub about: &'static str,
    pub short: &'static str,
    pub long: &'static str,
}

/// A text made of literals, and of those that stand in several pages and have a name here.
macro_rules! text {
    ([$($done:literal)*]) => { concat!($($done),*) };
    ([$($done:literal)*] $own:literal $($rest:tt)*) => { text!([$($done)* $own] $($rest)*) };
    ([$($done:literal)*] no_table $($rest:tt)*) => {
        text!([$($done)* "

No table, status 4, on standard error:
  no table: copies E F    no MBR, and neither copy of a GPT exists
  no table: chain 1 AT    the extended boot record at sector AT lacks 55 AA
  no table: chain 2 AT    the extended boot record at sector AT has a record
                          that it may not have
  no table: chain 3 AT    the link at sector AT leads to its own sector or to a
                          lower one
  no table: chain 4 AT    the chain leads to sector AT, outside the extended
                          partition or the disk
  no table: chain 5       the chain has more than 128 extended boot records
  no table: two extended  two records of type 05 or 0F
  no table: too small     no MBR, and fewer sectors than a GPT takes
E and F, what is wrong with the primary copy of a GPT and with the backup:"] copy_faults $($rest)*)
    };
    ([$($done:literal)*] copy_faults $($rest:tt)*) => {
        text!([$($done)* "
  1  the signature isn't EFI PART
  2  the revision isn't 1.0
  3  the header's size isn't from 92 to that of a sector
  4  the header's CRC is wrong
  5  the header names another sector as its own
  6  the array isn't beside the header
  7  there aren't 1 to 128 entries of 128 bytes
  8  the usable sectors aren't in order and clear of both copies
  9  the array's CRC is wrong"] $($rest)*)
    };
    ([$($done:literal)*] copies $($rest:tt)*) => {
        text!([$($done)* "

With --copy, status 4 and 2:
  no table: primary copy E
                          the primary copy of the GPT doesn't exist
  no table: backup copy E
                          the backup copy of the GPT doesn't exist
  bad copy                COPY is neither primary nor backup, or --after is
                          given too"] $($rest)*)
    };
    ([$($done:literal)*] unreadable $($rest:tt)*) => {
        text!([$($done)* "

Unreadable, status 2:
  bad word WORD           WORD isn't a word: another letter than a word's,
                          another number of fields, a number or a path that is
                          none, or out of range, not a GUID, a code that isn't
                          two or four hexadecimal digits"] bad_fresh $($rest)*)
    };
    ([$($done:literal)*] bad_fresh $($rest:tt)*) => {
        text!([$($done)* "
  bad fresh               HEX isn't groups of 32 hexadecimal digits"] $($rest)*)
    };
    ([$($done:literal)*] refused $($rest:tt)*) => {
        text!([$($done)* "

Refused, status 3; nothing was written:"] $($rest)*)
    };
    ([$($done:literal)*] edits $($rest:tt)*) => {
        text!([$($done)* "
  refused: edit 1         no such partition
  refused: edit 2         the number is taken
  refused: edit 3         no space
  refused: edit 4         outside the usable sectors
  refused: edit 5         it would share a sector with another
  refused: edit 6         not a type code there
  refused: edit 7         a name over 36 units
  refused: edit 8         not with a container
  refused: edit 9         the word isn't for this kind of table
  refused: edit 10        no fresh GUID is left
  refused: edit 11        another partition has this GUID
  refused: edit 12        the disk has no room for a GPT
  refused: edit 13        a letter in a slice without a label
  refused: edit 15        the offset doesn't fit a label that counts sectors of
                          the disk"] $($rest)*)
    };
    ([$($done:literal)*] plans $($rest:tt)*) => {
        text!([$($done)* "
  refused: plan 1         no order of writes has one moment of change
  refused: plan 2         a sector that a partition of the old layout owns would
                          be written
  refused: plan 3         only a label changes, and the GPT needs mending
  refused: plan 4         the new layout isn't sound"] $($rest)*)
    };
    ([$($done:literal)*] locked $($rest:tt)*) => {
        text!([$($done)* "
  refused: locked         the image's lock is held elsewhere"] $($rest)*)
    };
    ([$($done:literal)*] in_use $($rest:tt)*) => {
        text!([$($done)* "
  refused: in use: ..     the device is in use, as the text says"] $($rest)*)
    };
    ([$($done:literal)*] plan_text $($rest:tt)*) => {
        text!([$($done)* "
  refused: plan text N    PLANFILE holds no plan: line N is not a plan's, or the
                          text ends without the F of its last phase; N is 0
                          where it has more than 8 MiB or isn't UTF-8"] $($rest)*)
    };
    ([$($done:literal)*] reasons $($rest:tt)*) => {
        text!([$($done)* "

Answers of no, the first reason that holds, status 1; phases and writes count
from 1:
  no 1                    more than 4096 writes
  no 2 WRITE              write WRITE is of a sector past the last
  no 3 WRITE              write WRITE changes boot code, bytes 0 to 439 of
                          sector 0
  no 4 PHASE SECTOR       phase PHASE has several writes, and sector SECTOR is
                          one that decides the layout
  no 5 PHASE              after phase PHASE the layout is neither the old nor
                          the new one, or the old one again once the new one
                          was there
  no 6 SECTOR             sector SECTOR is written, and is in the tables of
                          neither layout
  no 7 SECTOR             sector SECTOR is written, and a partition of the old
                          or the new layout owns it
  no 8 FINDING            the finished disk isn't healthy: FINDING is the number
                          of `verify`'s first finding"] $($rest)*)
    };
    ([$($done:literal)*] devices $($rest:tt)*) => {
        text!([$($done)* "

Of a device, status 5 and 2:
  device: not a block device
                          with --device, something else is at that path
  bad sector size: the device has N
                          the sectors of the device have N bytes, and
                          --sector-size says otherwise, or N is neither 512 nor
                          4096"] $($rest)*)
    };
}

/// A page's texts: its first line, what both `-h` and `--help` say (or `-h` alone, or what `--help` says more there), the exit
/// statuses, and what `--help` alone says.
macro_rules! page {
    ($about:literal, $words:literal, $status:literal, $($more:tt)*) => {
        Texts {
            about: $about,
            short: concat!($words, $status),
            long: text!([$words $status] $($more)*),
        }
    };
    ($about:literal, only $words:literal, $status:literal, $($more:tt)*) => {
        Texts {
            about: $about,
            short: concat!($words, $status),
            long: text!([$status] $($more)*),
        }
    };
    ($about:literal, $words:literal, long $explained:literal, $status:literal, $($more:tt)*) => {
        Texts {
            about: $about,
            short: concat!($words, $status),
            long: text!([$words $explained $status] $($more)*),
        }
    };
}

pub const PTAB: Texts = Texts {
    about: "\
Edits GPT, MBR and BSD labels: a power cut leaves the old table or the new one.",
    short: "\
Exit status: 0 done, 1 no, 2 usage, 3 refused, 4 no table, 5 failed, 6 memory.",
    long: "\
Exit status:
  0  done, or yes
  1  the answer is no
  2  usage, or a word, a number, HEX, TABLE or FILE that can't be read
  3  refused: nothing was written
  4  the image denotes no table
  5  device: the image or PLANFILE can't be opened or read, the image can't be
     written or synced, its file system has no locks, or an output stream failed
  6  memory: there was not enough memory, and nothing was written
`ptab COMMAND --help` has what the command prints with them.",
};

pub const SHOW: Texts = page!(
    "Prints the image's partitions, a line each",
    "\
The first line is `gpt SECTORS FIRST LAST DISKGUID` (the usable sectors) or
`mbr SECTORS`. Then come the partitions by number, a slice before its letters:
  GPT    NUM FIRST LAST TYPE ATTRIBUTES UNIQUE [NAME]
  MBR    NUM FIRST LAST TYPE BOOT, and of labels NUM.LETTER FIRST LAST FSTYPE
Sectors are the disk's own; with --after the plan's, or `no ..` as `check` says.

",
    "\
Exit status: 0 shown, 1 no, 2 usage, 3 not a plan, 4 no table (standard error
says why), 5 the image or the plan can't be read, 6 no memory.",
    no_table copies refused plan_text devices
);

pub const VERIFY: Texts = page!(
    "Prints `yes` where the image is healthy, else what is wrong",
    only "\
Findings, the first that holds; E is a copy's fault, P, Q, A and B partitions:
  no 1 no table             no 5 alternate SIDE       no 9 on table P SECTOR
  no 2 primary copy E       no 6 protective record    no 10 same guid A B
  no 3 backup copy E        no 7 outside P            no 11 foreign label P
  no 4 copies differ        no 8 overlap P Q

",
    "\
Exit status: 0 healthy, 1 a finding, 2 usage, 5 the image can't be read,
6 no memory.",
    "

Findings, the first that holds; P, Q, A and B are partitions:
  no 1 no table           there is no table
  no 2 primary copy E     the primary copy of the GPT doesn't exist
  no 3 backup copy E      the backup copy of the GPT doesn't exist
  no 4 copies differ      the copies of the GPT have different tables
  no 5 alternate primary  the primary header doesn't name the backup's sector
  no 5 alternate backup   the backup header doesn't name the primary's sector
  no 6 protective record  sector 0 isn't a protective MBR
  no 7 outside P          P isn't inside what may hold it
  no 8 overlap P Q        P and Q share a sector
  no 9 on table P SECTOR  P covers sector SECTOR, where a table stands
  no 10 same guid A B     entries A and B have one unique GUID
  no 11 foreign label P   the second sector of slice P holds a foreign label
E, what is wrong with a copy:"
    copy_faults devices
);

pub const LOCATE: Texts = page!(
    "Prints where on the disk sector K of a partition is",
    "\
`none`: K is past the partition's end, or PATH holds no data of its own: a
slice, the extended partition, a label's entry c, no partition at all.

",
    "\
Exit status: 0 found, 1 none, 2 usage, a bad PATH or K, 4 no table, 5 the image
can't be read, 6 no memory.",
    "

Unreadable, status 2:
  bad path                PATH isn't a number from 1 without leading zeros,
                          alone or with a dot and a letter a to h
  bad number              K isn't a decimal number below 2^64 without leading
                          zeros"
    no_table devices
);

pub const FREE: Texts = page!(
    "Prints where a new partition may lie: blocks of free sectors",
    "\
Each line is `FIRST LAST`: free sectors with none before or after them, in
ascending order. Every sector is the disk's own number. On a GPT those are free
that are usable and in no entry; on an MBR those from 1 on, as far as the disk
and 32 bits reach, that are in no record. `FIRST LAST N`: free inside partition
N, the extended one or a slice with a label. `none`: no sector is free.

",
    "\
Exit status: 0 shown, 1 none, 2 usage, 4 no table, 5 the image can't be read,
6 no memory.",
    no_table devices
);

pub const TYPES: Texts = page!(
    "Prints the partition types that have names",
    "\
Each line is `gpt CODE GUID NAME` or `mbr TYPE NAME`. `ptab show --json` prints
NAME under `type_name`, and a text for `ptab set` may have it under `type`.

",
    "\
Exit status: 0 printed, 2 usage, 5 the output failed, 6 no memory.",
    "

CODE is sgdisk's code of four digits, `-` where there is none. GUID is the type
as an entry of a GPT has it; TYPE, two hexadecimal digits, as a record of an MBR
has it. The list is the program's own: no image is opened, and none is named."
);

pub const EDIT: Texts = page!(
    "Edits the table by words, as one change: all of them or none",
    "\
Words: n:NUM:START:END[:CODE] new (0: ptab chooses; END may be +SECTORS), d:PATH
delete, t:PATH:CODE type, c:NUM:NAME name, u:NUM:GUID its GUID, U:GUID the
disk's, A:NUM:BIT:V attribute, a:K alignment, e use a grown disk, o empty GPT, g
MBR to GPT. PATH is 3 or 2.a; CODE EF00 8300 8200 0700 A500 A503, or two digits.
  --fresh $(head -c 1024 /dev/urandom | od -An -v -tx1 | tr -d ' \\n')
",
    "\
Exit status: 0 done, 2 usage, 3 refused, 4 no table, 5 failed: the old or new
table is there, 6 no memory. A device: ptab-run --device DEV ptab edit @ WORD..",
    unreadable refused edits plans locked in_use no_table devices
);

pub const PLAN: Texts = page!(
    "Prints the plan of what `edit` would write, and writes nothing",
    "\
WORD and HEX are those of `edit`. Each write is a line `W SECTOR BYTES`, with
the bytes in hexadecimal; a line `F`, a flush, ends each phase. Nothing is
printed where there is nothing to do. A plan is for the image as it is now:
apply it before anything else is changed.

",
    "\
Exit status: 0 planned, 2 usage or a bad word, 3 refused, 4 no table, 5 the
image can't be read, 6 no memory.",
    unreadable refused edits plans no_table devices
);

pub const CHECK: Texts = page!(
    "Answers whether a plan may be applied to the image, and writes nothing",
    "\
`yes S`: before phase S a stop leaves the old layout, after it the new. Or `no`
with the number of the first reason that holds, from 1 to 8.

",
    "\
Exit status: 0 yes, 1 no, 2 usage, 3 not a plan, 5 can't be read, 6 no memory.",
    reasons refused plan_text devices
);

pub const APPLY: Texts = page!(
    "Applies a plan to the image, where `check` says yes",
    "\
The image is flushed and the plan is checked. After a yes each phase is written
and flushed, and `done` says that all is durable: a stop before that leaves the
old layout or the new one. Where `ptab check` says no, so does this, and nothing
is written.
For a device: ptab-run --device DEV ptab apply @ PLANFILE

",
    "\
Exit status: 0 done, 1 no, 2 usage, 3 not a plan, or locked, 5 a file can't be
opened, read or written, 6 no memory. After 1, 2, 3 and 6 nothing was written.",
    reasons refused plan_text locked in_use devices
);

pub const REPAIR: Texts = page!(
    "Makes the image healthy, and keeps its partitions as they are",
    "\
Writes both copies of a GPT and the protective record anew, and keeps all
partitions: it mends findings 2 to 6 of `verify`. A stop at any moment leaves
the same partitions. On a healthy image nothing is written. Findings 7 to 11 it
leaves to you: `verify` tells them once the copies agree, and `edit` mends them.
For a device: ptab-run --device DEV ptab repair @

",
    "\
Exit status: 0 done, 2 usage, 3 refused, 4 no table, 5 the image can't be
opened, read or written, 6 no memory. After 2, 3, 4 and 6 nothing was written.",
    refused
    "
  refused: repair 2       a repair leaves it to you: one of findings 7 to 11
                          holds"
    locked in_use no_table devices
);

pub const ADOPT: Texts = page!(
    "Gives the image the table of another one, as one change",
    "\
OTHER's table becomes the image's: a stop at any moment leaves the old table or
OTHER's. For a device: ptab-run --device DEV ptab adopt @ OTHER

",
    long "\
Both have as many sectors. Boot code, an MBR's disk signature and hybrid records
aren't taken, and of the data only what --data names: FILE has a line FIRST LAST
for each run of sectors, as `ptab free` prints blocks. These are copied from
OTHER, flushed and compared before the table's first write, so a partition comes
with its data or not at all. None of them may be in a partition of the image, or
in a table, the old one or OTHER's. FILE has 8 MiB at most; -: standard input.

",
    "\
Exit status: 0 done, 2 usage, 3 refused, 4 OTHER has no table, 5 failed: the old
table or OTHER's is there, 6 no memory. After 2, 3, 4 nothing was written.",
    refused
    "
  refused: other size     the other disk has another number of sectors
  refused: data outside SECTOR
                          data of sector SECTOR isn't carried: the disk ends
                          before it
  refused: data owned SECTOR
                          data of sector SECTOR isn't carried: a partition of
                          the disk owns it
  refused: data table SECTOR
                          data of sector SECTOR isn't carried: it is one of the
                          disk's tables
  refused: data new-table SECTOR
                          data of sector SECTOR isn't carried: it is one of the
                          other disk's tables
  refused: data read SECTOR
                          data of sector SECTOR isn't carried: the disk's table
                          is read from it"
    plans locked in_use
    "

Of OTHER, status 4, 5 and 6:
  other: no table: ..     the other disk: it has no table, for the reason that
                          `show` prints for it
  other: device           OTHER can't be opened or read, or isn't a plain file
  other: memory           there was not enough memory to read OTHER's table, and
                          nothing was written

Of FILE, status 2 and 5:
  bad data LINE           line LINE isn't a run's, FIRST LAST
  data: too long          FILE has more than 8 MiB
  data: not text          FILE isn't UTF-8
  data: device            FILE can't be opened or read"
    devices
);

pub const SET: Texts = page!(
    "Gives the image the table that a text in JSON says, as one change",
    "\
TABLE is what `ptab show --json` or `sfdisk --json` prints, edited. Partitions
that it doesn't have are removed; start, size, type and uuid may be left out.
For a device: ptab-run --device DEV ptab set @ TABLE

",
    long "\
A stop at any moment leaves the old table or the new one. docs/table.md has the
names in the text and what they mean. These may be left out of an object of
`partitions`:
  start  then it is placed as the word n of `edit` places it
  size   then it has the rest of that block; otherwise it is a number of
         sectors, or a text as \"512MiB\"
  type   otherwise it is a GUID, a code, or a name that `ptab types` prints
  uuid   then it is kept by number; where the image has none for that number,
         it is the next of --fresh

",
    "\
Exit status: 0 done, 2 usage, bad HEX or TABLE, 3 refused, 5 failed: the old
table or the new one is there, 6 no memory. After 2, 3, 6 nothing was written.",
    "

Unreadable, status 2:"
    bad_fresh refused
    "
  refused: table KEY      the text has a fault at KEY
  refused: table KEY N    object N of `partitions`, counted from 1, has a fault
                          at KEY
  refused: table uuid N   no fresh GUID is left for object N, or its `uuid` has
                          a fault"
    plans locked in_use
    "

Of TABLE, status 2 and 5:
  table: too long         TABLE has more than 8 MiB
  table: not text         TABLE isn't UTF-8
  table: device           TABLE can't be opened or read"
    devices
);
