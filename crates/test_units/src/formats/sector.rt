ghost use Rattle.std.specs.Prelude.{◌≡◌, ◌<◌, ◌*◌, ◌≤◌, ◌^◌, IfOk};
ghost use Rattle.pt_sector.specs.Sectors.{IsSectorSize};

use pt_disks::in_memory::{CrashDisk, MemDisk};
use pt_sector::{Disk, Extent, Fault, Lba, Overlay, ReadCache, Room};
use std::alloc::{AllocError, Global};

/// What a sector of equal bytes holds; none too where there is no such sector.
fn byte_at<const B: usize, D: Disk<B>>(disk: &mut D, lba: u64) -> Result<Option<u8>, Fault>
    requires { IsSectorSize B }
{
    if lba >= disk.sectors() {
        return Ok(None);
    }
    let mut sector = [0; B];
    disk.read(Lba(lba), &mut sector)?;
    let byte = sector[0];
    Ok(if sector == [byte; B] {
        Some(byte)
    } else {
        None
    })
}

/// Writes a sector of equal bytes; a fault of a flush where there is no such sector.
fn write<const B: usize, D: Disk<B>>(disk: &mut D, lba: u64, byte: u8) -> Result<(), Fault>
    requires { IsSectorSize B }
{
    if lba >= disk.sectors() {
        return Err(Fault::Flush);
    }
    disk.write(Lba(lba), &[byte; B])
}

/// What a read of a sector of equal bytes answers.
type Read = Result<Option<u8>, Fault>;

/// What sectors 1, 2 and 5 hold.
fn three_of<const B: usize, D: Disk<B>>(disk: &mut D) -> [Read; 3]
    requires { IsSectorSize B }
{
    [byte_at(disk, 1), byte_at(disk, 2), byte_at(disk, 5)]
}

/// Two writes of sector 2, and between them one of sector 5.
fn write_three<const B: usize, D: Disk<B>>(disk: &mut D) -> Result<(), Fault>
    requires { IsSectorSize B }
{
    write(disk, 2, 7)?;
    write(disk, 5, 8)?;
    write(disk, 2, 9)
}

/// What these writes and a flush answer, and what sectors 1, 2 and 5 then hold.
fn exercise<const B: usize, D: Disk<B>>(disk: &mut D) -> Exercise
    requires { IsSectorSize B }
{
    let written = write_three(disk);
    let flushed = disk.flush();
    (written, flushed, three_of(disk))
}

type Exercise = (Result<(), Fault>, Result<(), Fault>, [Read; 3]);

const DONE: Exercise = (Ok(()), Ok(()), [Ok(Some(0)), Ok(Some(9)), Ok(Some(8))]);

/// What an overlay over a disk in memory answers.
fn over<const B: usize>(alloc: Global, memory: &mut MemDisk<B>) -> Result<Exercise, AllocError>
    requires { IsSectorSize B }
{
    let room = Room::new(alloc, 2)?;
    let mut overlay = Overlay::new(memory, room);
    Ok(exercise(&mut overlay))
}

/// What an overlay answers, what the disk below it then holds, and what that disk answers.
fn each_in_memory<const B: usize>(
    alloc: Global,
) -> Result<(Result<Exercise, AllocError>, Read, Exercise), AllocError>
    requires { IsSectorSize B }
{
    let mut memory: MemDisk<B> = MemDisk::new(alloc, 8)?;
    let over = over(alloc, &mut memory);
    let below = byte_at(&mut memory, 2);
    Ok((over, below, exercise(&mut memory)))
}

/// What a disk with pending writes answers.
fn cached<const B: usize>(alloc: Global) -> Result<Exercise, AllocError>
    requires { IsSectorSize B }
{
    let mut crash: CrashDisk<B> = CrashDisk::new(alloc, 8, 3)?;
    Ok(exercise(&mut crash))
}

#[test]
fn sectors_of_512_bytes(rt: HostRuntime) {
    assert!(rt; each_in_memory::<512>(rt.alloc()) == Ok((Ok(DONE), Ok(Some(0)), DONE)));
    assert!(rt; cached::<512>(rt.alloc()) == Ok(DONE));
}

#[test]
fn sectors_of_4096_bytes(rt: HostRuntime) {
    assert!(rt; each_in_memory::<4096>(rt.alloc()) == Ok((Ok(DONE), Ok(Some(0)), DONE)));
    assert!(rt; cached::<4096>(rt.alloc()) == Ok(DONE));
}

/// What three writes of two sectors answer, and what these sectors then hold.
fn write_two<D: Disk<512>>(disk: &mut D) -> ([Result<(), Fault>; 3], [Read; 2]) {
    let answers = [write(disk, 3, 7), write(disk, 3, 9), write(disk, 4, 7)];
    (answers, [byte_at(disk, 3), byte_at(disk, 4)])
}

/// What an overlay with room for one sector answers to them.
fn in_room_for_one(
    alloc: Global,
    memory: &mut MemDisk<512>,
) -> Result<([Result<(), Fault>; 3], [Read; 2]), AllocError> {
    let room = Room::new(alloc, 1)?;
    let mut overlay = Overlay::new(memory, room);
    Ok(write_two(&mut overlay))
}

#[test]
fn an_overlay_keeps_its_room(rt: HostRuntime) {
    let mut memory = MemDisk::new(rt.alloc(), 8).expect(&rt, "memory");
    let answers = [Ok(()), Ok(()), Err(Fault::Write(Lba(4)))];
    let held = [Ok(Some(9)), Ok(Some(0))];
    assert!(rt; in_room_for_one(rt.alloc(), &mut memory) == Ok((answers, held)));
}

/// What sectors 1, 4, 6 and 5 hold.
fn four_of<D: Disk<512>>(disk: &mut D) -> [Read; 4] {
    [
        byte_at(disk, 1),
        byte_at(disk, 4),
        byte_at(disk, 6),
        byte_at(disk, 5),
    ]
}

/// What these hold in an overlay after 6, 1 and 4 were put in that order.
fn after_three_puts(alloc: Global, memory: &mut MemDisk<512>) -> Result<[Read; 4], AllocError> {
    let room = Room::new(alloc, 3)?;
    let mut overlay = Overlay::new(memory, room);
    overlay.put(Lba(6), &[6; 512]);
    overlay.put(Lba(1), &[1; 512]);
    overlay.put(Lba(4), &[4; 512]);
    Ok(four_of(&mut overlay))
}

#[test]
fn puts_in_any_order_are_found(rt: HostRuntime) {
    let mut memory = MemDisk::new(rt.alloc(), 8).expect(&rt, "memory");
    let held = [Ok(Some(1)), Ok(Some(4)), Ok(Some(6)), Ok(Some(0))];
    assert!(rt; after_three_puts(rt.alloc(), &mut memory) == Ok(held));
}

/// What the three writes of a disk that keeps them pending answer, and what a stop with these choices then leaves in
/// sectors 1, 2 and 5 of it: the pending values are 7, then 9 of sector 2, and 8 of sector 5.
fn left_by(alloc: Global, choices: &[usize]) -> Result<(Result<(), Fault>, [Read; 3]), AllocError> {
    let mut disk: CrashDisk<512> = CrashDisk::new(alloc, 8, 3)?;
    let written = write_three(&mut disk);
    Ok((written, three_of(&mut disk.stop(choices))))
}

#[test]
fn a_stop_takes_one_choice_for_each_sector(rt: HostRuntime) {
    let durable: &[usize] = &[];
    let rows: [(&[usize], u8, u8); 7] = [
        (durable, 0, 0),
        (&[0, 0], 0, 0),
        (&[1], 7, 0),
        (&[2, 1], 9, 8),
        (&[0, 1], 0, 8),
        (&[1, 1], 7, 8),
        (&[9, 9], 9, 8),
    ];
    for (choices, second, fifth) in rows {
        let held = [Ok(Some(0)), Ok(Some(second)), Ok(Some(fifth))];
        assert!(rt; left_by(rt.alloc(), choices) == Ok((Ok(()), held)));
    }
}

/// What three writes and a flush answer, of which the second write and the flush are set to fail and the third write has
/// no room; and what the sector holds after the first write and after the second.
fn answers_that_fail(disk: &mut CrashDisk<512>, kept: bool) -> ([Result<(), Fault>; 4], [Read; 2]) {
    disk.fail_at(1, kept);
    disk.fail_at(3, kept);
    let first = write(disk, 2, 7);
    let one = byte_at(disk, 2);
    let second = write(disk, 2, 9);
    let two = byte_at(disk, 2);
    let third = write(disk, 2, 1);
    disk.fail_at(1, kept);
    ([first, second, third, disk.flush()], [one, two])
}

/// The same, and what the sector holds after a stop.
fn calls_that_fail(
    alloc: Global,
    kept: bool,
) -> Result<([Result<(), Fault>; 4], [Read; 2], Read), AllocError> {
    let mut disk: CrashDisk<512> = CrashDisk::new(alloc, 8, 2)?;
    let (answers, held) = answers_that_fail(&mut disk, kept);
    Ok((answers, held, byte_at(&mut disk.stop(&[2]), 2)))
}

#[test]
fn the_call_that_is_set_fails(rt: HostRuntime) {
    let failed = Err(Fault::Write(Lba(2)));
    let answers = [Ok(()), failed, failed, Err(Fault::Flush)];
    for (kept, reads) in [(false, 7), (true, 9)] {
        let held = [Ok(Some(7)), Ok(Some(reads))];
        assert!(rt; calls_that_fail(rt.alloc(), kept) == Ok((answers, held, Ok(Some(9)))));
    }
}

/// What three reads of a sector answer, of which the second is set to fail, and then a flush.
fn read_thrice(disk: &mut CrashDisk<4096>) -> ([Read; 3], Result<(), Fault>) {
    disk.fail_at(2, false);
    let reads = [byte_at(disk, 3), byte_at(disk, 3), byte_at(disk, 3)];
    disk.fail_at(0, false);
    (reads, disk.flush())
}

#[test]
fn a_read_fails_where_it_is_set(rt: HostRuntime) {
    let mut disk = CrashDisk::new(rt.alloc(), 4, 1).expect(&rt, "memory");
    let reads = [Ok(Some(0)), Err(Fault::Read(Lba(3))), Ok(Some(0))];
    assert!(rt; read_thrice(&mut disk) == (reads, Ok(())));
}

/// What a cache answers over a disk whose third call is set to fail: sector 3 three times, then sector 4 twice.
fn read_through(disk: &mut CrashDisk<512>, room: Room<512>) -> [Read; 5] {
    disk.fail_at(3, false);
    let mut cache = ReadCache::new(disk, room);
    [
        byte_at(&mut cache, 3),
        byte_at(&mut cache, 3),
        byte_at(&mut cache, 3),
        byte_at(&mut cache, 4),
        byte_at(&mut cache, 4),
    ]
}

/// The same with room for so many sectors.
fn in_room_for(alloc: Global, sectors: usize) -> Result<[Read; 5], AllocError> {
    let room = Room::new(alloc, sectors)?;
    let mut disk: CrashDisk<512> = CrashDisk::new(alloc, 8, 2)?;
    Ok(read_through(&mut disk, room))
}

#[test]
fn a_cache_asks_once_while_it_has_room(rt: HostRuntime) {
    let held = Ok(Some(0));
    assert!(rt; in_room_for(rt.alloc(), 2) == Ok([held; 5]));
    let failed = Err(Fault::Read(Lba(4)));
    assert!(rt; in_room_for(rt.alloc(), 1) == Ok([held, held, held, held, failed]));
    let failed = Err(Fault::Read(Lba(3)));
    assert!(rt; in_room_for(rt.alloc(), 0) == Ok([held, held, failed, held, held]));
}

/// What the sectors then hold.
const HELD: [Read; 3] = [Ok(Some(0)), Ok(Some(9)), Ok(Some(8))];

/// What a cache of the usual room answers over each kind of disk, and what the disk in memory then holds.
fn through_a_cache<const B: usize>(
    alloc: Global,
) -> Result<(Exercise, Exercise, [Read; 3]), AllocError>
    requires { IsSectorSize B }
{
    let (room, again) = (Room::for_cache(alloc)?, Room::for_cache(alloc)?);
    let mut memory: MemDisk<B> = MemDisk::new(alloc, 8)?;
    let mut crash: CrashDisk<B> = CrashDisk::new(alloc, 8, 3)?;
    let first = exercise(&mut ReadCache::new(&mut memory, room));
    let second = exercise(&mut ReadCache::new(&mut crash, again));
    Ok((first, second, three_of(&mut memory)))
}

#[test]
fn a_cache_writes_through(rt: HostRuntime) {
    assert!(rt; through_a_cache::<512>(rt.alloc()) == Ok((DONE, DONE, HELD)));
    assert!(rt; through_a_cache::<4096>(rt.alloc()) == Ok((DONE, DONE, HELD)));
}

#[test]
fn extents_end_below_two_to_the_63(rt: HostRuntime) {
    let top = 9_223_372_036_854_775_807;
    let rows = [
        (5, 5, true),
        (6, 5, false),
        (0, top, true),
        (top, top, true),
        (0, top + 1, false),
    ];
    for (first, last, exists) in rows {
        assert!(rt; Extent::new(Lba(first), Lba(last)).is_some() == exists);
    }
}

/// Of an extent: its length, whether one from 10 to 20 meets it, whether it is inside that one, and whether its first
/// sector, its last and sector 31 are in it.
fn beside_ten_to_twenty(first: u64, last: u64) -> Option<(u64, bool, bool, [bool; 3])> {
    let one = Extent::new(Lba(10), Lba(20))?;
    let other = Extent::new(Lba(first), Lba(last))?;
    let contained = [
        other.contains(other.first()),
        other.contains(other.last()),
        other.contains(Lba(31)),
    ];
    Some((
        other.len(),
        one.meets(&other),
        other.inside(&one),
        contained,
    ))
}

#[test]
fn extents_are_sets_of_sectors(rt: HostRuntime) {
    // each from 10 to 20 and another: the other's length, whether they meet, and whether the other is inside
    let rows = [
        (10, 20, 11, true, true),
        (12, 12, 1, true, true),
        (9, 20, 12, true, false),
        (20, 30, 11, true, false),
        (0, 10, 11, true, false),
        (21, 30, 10, false, false),
        (0, 9, 10, false, false),
    ];
    for (first, last, len, meets, inside) in rows {
        let want = Some((len, meets, inside, [true, true, false]));
        assert!(rt; beside_ten_to_twenty(first, last) == want);
    }
}
