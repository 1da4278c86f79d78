//! Soundness, health and what recovery reads, straight from the definitions: every pair of siblings is compared, and
//! what is read is a list of single sectors.

ghost use Rattle.std.specs.Prelude.{◌≡◌, ◌≤◌, ◌<◌, ◌+◌, ◌*◌, IfSome};
ghost use Rattle.pt_sector.specs.Sectors.{IsSectorSize};
ghost use Rattle.pt_gpt.specs.Copies.{HasRoom};

use pt_bsd::{Label, bears_magic, decode_label};
use pt_gpt::{Side, Table, array_sectors, counted_sectors, read_copy, read_head};
use pt_layout::{Body, Finding, Kind, Layout, Member, Path, recover};
use pt_mbr::{
    Ebr, Mbr, Record, bears_protective, decode_ebr, decode_mbr, is_extended_kind, is_protective,
};
use pt_recover::is_slice_type;
use pt_sector::{Disk, Lba};
use std::alloc::Global;
use std::test::Fail;

/// A member, the number of what holds it (0 for the disk itself), and the usable sectors there.
#[derive(Clone, Copy)]
pub struct Plain {
    parent: u64,
    low: u128,
    high: u128,
    m: Member,
}

/// A member of a start and a size.
fn sized(number: u64, letter: Option<u8>, kind: Kind, first: u128, size: u32) -> Member {
    Member {
        path: Path { number, letter },
        kind,
        first,
        last: first.saturating_add(u128::from(size)).saturating_sub(1),
    }
}

fn record_kind<const B: usize>(kind: u8) -> Kind {
    if B == 512 && kind == 0xA5 {
        Kind::Slice
    } else if is_extended_kind(kind) {
        Kind::Extended
    } else {
        Kind::Leaf
    }
}

fn push_records<const B: usize>(
    members: &mut Vec<Plain>,
    sectors: u64,
    records: &[Option<Record>; 4],
) -> Result<(), Fail> {
    for k in 0..4usize {
        if let Some(r) = records[k] {
            members.push(Plain {
                parent: 0,
                low: 1,
                high: u128::from(sectors).saturating_sub(1),
                m: sized(
                    k as u64 + 1,
                    None,
                    record_kind::<B>(r.kind),
                    u128::from(r.start),
                    r.size,
                ),
            })?;
        }
    }
    Ok(())
}

/// The logical partitions, in the extended partition among these members.
fn push_logicals<const B: usize>(members: &mut Vec<Plain>, chain: &[Ebr]) -> Result<(), Fail> {
    let mut x = Member::default();
    for k in 0..members.len() {
        if members[k].m.kind == Kind::Extended {
            x = members[k].m;
        }
    }
    let mut number = 5u64;
    for k in 0..chain.len() {
        if let Some(r) = chain[k].logical {
            let first = u128::from(chain[k].at.0).saturating_add(u128::from(r.start));
            let m = sized(number, None, record_kind::<B>(r.kind), first, r.size);
            members.push(Plain {
                parent: x.path.number,
                low: x.first,
                high: x.last,
                m,
            })?;
            number = number.saturating_add(1);
        }
    }
    Ok(())
}

fn push_entries<const B: usize>(members: &mut Vec<Plain>, table: &Table) -> Result<(), Fail> {
    let entries = table.entries.as_slice();
    for k in 0..entries.len() {
        if let Some(e) = entries[k] {
            let slice = B == 512 && is_slice_type(&e.kind);
            let m = Member {
                path: Path {
                    number: (k as u64).saturating_add(1),
                    letter: None,
                },
                kind: if slice { Kind::Slice } else { Kind::Leaf },
                first: u128::from(e.first),
                last: u128::from(e.last),
            };
            members.push(Plain {
                parent: 0,
                low: u128::from(table.first),
                high: u128::from(table.last),
                m,
            })?;
        }
    }
    Ok(())
}

/// The partitions of a slice's label.
fn push_parts(members: &mut Vec<Plain>, slice: &Member, label: &Label) -> Result<(), Fail> {
    let mut from = slice.first;
    if let Some(c) = label.entries[2] {
        if c.offset != 0 {
            from = 0;
        }
    }
    for k in 0..8u8 {
        if let Some(e) = label.entries[usize::from(k)] {
            if k != 2 && e.size > 0 {
                let first = from.saturating_add(u128::from(e.offset));
                let m = sized(slice.path.number, Some(k), Kind::Leaf, first, e.size);
                members.push(Plain {
                    parent: slice.path.number,
                    low: slice.first.saturating_add(16),
                    high: slice.last,
                    m,
                })?;
            }
        }
    }
    Ok(())
}

/// All members of a layout.
fn members_of<const B: usize>(alloc: Global, layout: &Layout) -> Result<Vec<Plain>, Fail> {
    let mut members = Vec::new(alloc);
    match &layout.body {
        Body::Mbr { records, chain } => {
            push_records::<B>(&mut members, layout.sectors, records)?;
            push_logicals::<B>(&mut members, chain.as_slice())?;
        }
        Body::Gpt(table) => push_entries::<B>(&mut members, table)?,
    }
    let labels = layout.labels.as_slice();
    for j in 0..labels.len() {
        for k in 0..members.len() {
            let m = members[k].m;
            if m.path.number == labels[j].number && m.path.letter.is_none() {
                push_parts(&mut members, &m, &labels[j].label)?;
                break;
            }
        }
    }
    Ok(members)
}

fn exists(m: &Member) -> bool {
    m.first <= m.last && m.last < 1 << 63
}

fn holds(m: &Member, s: u128) -> bool {
    m.first <= s && s <= m.last
}

/// The first member in path order that doesn't exist, or isn't in what holds it.
fn outside(members: &[Plain]) -> Option<Path> {
    let mut found: Option<Path> = None;
    for k in 0..members.len() {
        let p = members[k];
        let inside = exists(&p.m) && p.low <= p.m.first && p.m.last <= p.high;
        if !inside && found.is_none_or(|q| p.m.path < q) {
            found = Some(p.m.path);
        }
    }
    found
}

/// Whether one member stands before another in the order of overlaps: by what holds it, its first sector, its path.
fn precedes(a: &Plain, b: &Plain) -> bool {
    (a.parent, a.m.first, a.m.path) < (b.parent, b.m.first, b.m.path)
}

/// The last sibling before a member, if some sibling before it shares a sector with it.
fn meets_before(members: &[Plain], p: &Plain) -> Option<Plain> {
    let mut last: Option<Plain> = None;
    let mut shared = false;
    for k in 0..members.len() {
        let q = members[k];
        if q.parent == p.parent && precedes(&q, p) {
            shared = shared || q.m.last >= p.m.first;
            if last.is_none_or(|r| precedes(&r, &q)) {
                last = Some(q);
            }
        }
    }
    if shared { last } else { None }
}

fn overlap(members: &[Plain]) -> Option<Finding> {
    let mut found: Option<(Plain, Plain)> = None;
    for k in 0..members.len() {
        let p = members[k];
        if let Some(q) = meets_before(members, &p) {
            if found.is_none_or(|f| precedes(&p, &f.1)) {
                found = Some((q, p));
            }
        }
    }
    match found {
        Some((q, p)) => Some(Finding::Overlap(q.m.path, p.m.path)),
        None => None,
    }
}

/// The label place of a slice on a disk of so many sectors.
fn place(m: &Member, sectors: u64) -> Option<u64>
    ensures { IfSome result (λ s. s < sectors) }
{
    if m.kind == Kind::Slice && exists(m) && m.first < m.last {
        let place = u64::try_from(m.first.saturating_add(1)).unwrap_or(sectors);
        if place < sectors {
            return Some(place);
        }
    }
    None
}

/// Every sector of a table.
fn tables<const B: usize>(
    alloc: Global,
    layout: &Layout,
    members: &[Plain],
) -> Result<Vec<u64>, Fail>
    requires { IsSectorSize B }
{
    let mut all = Vec::new(alloc);
    match &layout.body {
        Body::Mbr { chain, .. } => {
            all.push(0)?;
            let chain = chain.as_slice();
            for k in 0..chain.len() {
                all.push(chain[k].at.0)?;
            }
        }
        Body::Gpt(_) => {
            let size = array_sectors::<B>() + 1;
            for s in 0..layout.sectors {
                if s <= size || layout.sectors - s <= size {
                    all.push(s)?;
                }
            }
        }
    }
    for k in 0..members.len() {
        if let Some(s) = place(&members[k].m, layout.sectors) {
            all.push(s)?;
        }
    }
    Ok(all)
}

fn is_ebr(layout: &Layout, s: u64) -> bool {
    match &layout.body {
        Body::Mbr { chain, .. } => chain.as_slice().iter().any(|e| e.at.0 == s),
        Body::Gpt(_) => false,
    }
}

fn on_table(layout: &Layout, members: &[Plain], all: &[u64]) -> Option<Finding> {
    let mut found: Option<(Path, u64)> = None;
    for k in 0..members.len() {
        let m = members[k].m;
        for j in 0..all.len() {
            let s = all[j];
            let own = place(&m, layout.sectors) == Some(s) && !is_ebr(layout, s);
            let buried = m.kind != Kind::Extended && holds(&m, u128::from(s)) && !own;
            if buried && found.is_none_or(|f| (m.path, s) < f) {
                found = Some((m.path, s));
            }
        }
    }
    match found {
        Some((path, s)) => Some(Finding::OnTable(path, Lba(s))),
        None => None,
    }
}

fn same_guid(layout: &Layout) -> Option<Finding> {
    let entries = match &layout.body {
        Body::Mbr { .. } => return None,
        Body::Gpt(table) => table.entries.as_slice(),
    };
    for j in 0..entries.len() {
        for i in 0..j {
            if let (Some(a), Some(b)) = (entries[i], entries[j]) {
                if a.unique == b.unique {
                    return Some(Finding::SameGuid(
                        (i as u64).saturating_add(1),
                        (j as u64).saturating_add(1),
                    ));
                }
            }
        }
    }
    None
}

/// The first of findings 7 to 10.
pub fn plain_unsound<const B: usize>(
    alloc: Global,
    layout: &Layout,
) -> Result<Option<Finding>, Fail>
    requires { IsSectorSize B }
{
    let members = members_of::<B>(alloc, layout)?;
    if let Some(path) = outside(&members) {
        return Ok(Some(Finding::OutsideUsable(path)));
    }
    let all = tables::<B>(alloc, layout, &members)?;
    Ok(
        overlap(&members)
            .or(on_table(layout, &members, &all))
            .or(same_guid(layout)),
    )
}

/// The first finding on the copies of a GPT and on sector 0.
fn broken<const B: usize, D: Disk<B>>(alloc: Global, disk: &mut D) -> Option<Finding>
    requires size { IsSectorSize B }
    requires room { HasRoom B (D.count disk.old) }
{
    let sectors = disk.sectors();
    let primary = match read_copy(alloc, disk, Side::Primary) {
        Ok(table) => table,
        Err(e) => return Some(Finding::PrimaryCopy(e)),
    };
    let backup = match read_copy(alloc, disk, Side::Backup) {
        Ok(table) => table,
        Err(e) => return Some(Finding::BackupCopy(e)),
    };
    if !primary.same(&backup) {
        return Some(Finding::CopiesDiffer);
    }
    match read_head(disk, Side::Primary) {
        Ok(h) if h.alternate == sectors - 1 => {}
        _ => return Some(Finding::Alternate(Side::Primary)),
    }
    match read_head(disk, Side::Backup) {
        Ok(h) if h.alternate == 1 => {}
        _ => return Some(Finding::Alternate(Side::Backup)),
    }
    let mut sector = [0; B];
    let _ = disk.read(Lba(0), &mut sector);
    if is_protective(sectors, &sector) {
        None
    } else {
        Some(Finding::Protective)
    }
}

fn foreign<const B: usize, D: Disk<B>>(disk: &mut D, members: &[Plain]) -> Option<Finding>
    requires { IsSectorSize B }
{
    let mut found: Option<Path> = None;
    for k in 0..members.len() {
        let sectors = disk.sectors();
        let m = members[k].m;
        if let Some(s) = place(&m, sectors) {
            let mut sector = [0; B];
            let _ = disk.read(Lba(s), &mut sector);
            let len = m.last.saturating_sub(m.first).saturating_add(1);
            let len = u64::try_from(len).unwrap_or(0);
            let none = decode_label(&sector, s.saturating_sub(1), len).is_err();
            if bears_magic(&sector) && none && found.is_none_or(|q| m.path < q) {
                found = Some(m.path);
            }
        }
    }
    match found {
        Some(path) => Some(Finding::ForeignLabel(path)),
        None => None,
    }
}

/// What is wrong with a disk; none where it is healthy.
pub fn plain_verify<const B: usize, D: Disk<B>>(
    alloc: Global,
    disk: &mut D,
) -> Result<Option<Finding>, Fail>
    requires { IsSectorSize B }
{
    let layout = match recover(alloc, disk) {
        Ok(layout) => layout,
        Err(e) => return Ok(Some(Finding::NoTable(e))),
    };
    if let Body::Gpt(_) = layout.body {
        if disk.sectors() >= 2 * array_sectors::<B>() + 4 {
            if let Some(finding) = broken(alloc, disk) {
                return Ok(Some(finding));
            }
        }
    }
    if let Some(finding) = plain_unsound::<B>(alloc, &layout)? {
        return Ok(Some(finding));
    }
    let members = members_of::<B>(alloc, &layout)?;
    Ok(foreign(disk, &members))
}

/// The extended boot records that are read, from the first sector of a lone extended record on.
fn read_chain<const B: usize, D: Disk<B>>(
    disk: &mut D,
    mbr: &Mbr,
    read: &mut Vec<u64>,
) -> Result<(), Fail>
    requires { IsSectorSize B }
{
    let mut lone: Option<Record> = None;
    for k in 0..4usize {
        if let Some(r) = mbr.records[k] {
            if is_extended_kind(r.kind) {
                if lone.is_some() {
                    return Ok(());
                }
                lone = Some(r);
            }
        }
    }
    let Some(x) = lone else {
        return Ok(());
    };
    let first = u64::from(x.start);
    let end = first + u64::from(x.size);
    let mut at = first;
    for _ in 0..128u32 {
        if at < first || at >= end || at >= disk.sectors() {
            return Ok(());
        }
        read.push(at)?;
        let mut sector = [0; B];
        let _ = disk.read(Lba(at), &mut sector);
        match decode_ebr(&sector, Lba(first), Lba(at)) {
            Ok(ebr) => match ebr.next {
                Some(next) if next.0 > at => at = next.0,
                _ => return Ok(()),
            },
            Err(_) => return Ok(()),
        }
    }
    Ok(())
}

/// The sectors of a side that are read.
fn read_side<const B: usize, D: Disk<B>>(
    disk: &mut D,
    side: Side,
    read: &mut Vec<u64>,
) -> Result<(), Fail>
    requires size { IsSectorSize B }
    requires room { HasRoom B (D.count disk.old) }
    ensures { D.count disk.new ≡ D.count disk.old }
{
    let sectors = disk.sectors();
    read.push(match side {
        Side::Primary => 1,
        Side::Backup => sectors - 1,
    })?;
    if let Ok(h) = read_head(disk, side) {
        for k in 0..counted_sectors::<B>(h.count) {
            read.push(h.array.saturating_add(k))?;
        }
    }
    Ok(())
}

fn read_sides<const B: usize, D: Disk<B>>(
    alloc: Global,
    disk: &mut D,
    read: &mut Vec<u64>,
) -> Result<(), Fail>
    requires { IsSectorSize B }
{
    if disk.sectors() >= 2 * array_sectors::<B>() + 4 {
        read_side(disk, Side::Primary, read)?;
        if read_copy(alloc, disk, Side::Primary).is_err() {
            read_side(disk, Side::Backup, read)?;
        }
    }
    Ok(())
}

/// The label places of what a disk denotes.
pub fn plain_places<const B: usize, D: Disk<B>>(
    alloc: Global,
    disk: &mut D,
) -> Result<Vec<u64>, Fail>
    requires { IsSectorSize B }
{
    let mut places = Vec::new(alloc);
    if let Ok(layout) = recover(alloc, disk) {
        let members = members_of::<B>(alloc, &layout)?;
        for k in 0..members.len() {
            if let Some(s) = place(&members[k].m, layout.sectors) {
                places.push(s)?;
            }
        }
    }
    Ok(places)
}

/// The sectors that recovery reads, one by one.
pub fn plain_trace<const B: usize, D: Disk<B>>(
    alloc: Global,
    disk: &mut D,
) -> Result<Vec<u64>, Fail>
    requires { IsSectorSize B }
{
    let mut read = Vec::new(alloc);
    if disk.sectors() == 0 {
        return Ok(read);
    }
    read.push(0)?;
    let mut sector = [0; B];
    let _ = disk.read(Lba(0), &mut sector);
    match decode_mbr(&sector) {
        Some(mbr) if !bears_protective(&sector) => read_chain(disk, &mbr, &mut read)?,
        _ => read_sides(alloc, disk, &mut read)?,
    }
    for s in plain_places(alloc, disk)? {
        read.push(s)?;
    }
    Ok(read)
}
