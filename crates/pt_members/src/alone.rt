//! The sectors of tables that stand alone, listed in order.

ghost use Rattle.std.specs.Prelude.{◌≡◌, ◌<◌, ◌+◌, ◌^◌, ◌↔◌, All, Contains, IfOk, IsTrue, OnOk};
ghost use Rattle.std.specs.List.Sorted.{IsNonDecreasing};
ghost use Rattle.pt_sector.specs.Sectors.{IsSectorSize};
ghost use Rattle.pt_mbr.specs.Chain.{StandsAt};
ghost use Rattle.pt_members.specs.Tables.{Lists, AreAlone, NextSectorIs, IsEbr};
ghost use Rattle.pt_members.specs.inner.Tables.{Gains};
ghost use Rattle.pt_members.specs.Members.{IsPlace};

use crate::layout::{Body, Layout, Slice};
use crate::slices::label_places;
use pt_mbr::Ebr;
use std::alloc::{AllocError, Global};

/// The extended boot records and the label places of a layout, by their sectors: each list ascends. A layout's other tables are
/// where its kind and its number of sectors say.
#[derive(Drop)]
pub struct Alone {
    pub(crate) ebrs: Vec<u64>,
    pub(crate) places: Vec<u64>,
}

fn push_ebrs(sectors: &mut Vec<u64>, chain: &[Ebr]) -> Result<(), AllocError>
    ensures { OnOk result (Gains (λ s. StandsAt s chain.now) sectors.old.items sectors.new.items) }
{
    for k in 0..chain.len() {
        sectors.push(chain[k].at.0)?;
    }
    Ok(())
}

fn push_places(sectors: &mut Vec<u64>, slices: &[Slice]) -> Result<(), AllocError>
    requires { All (λ p. p.first + 1 < 2 ^ 64) slices.now }
    ensures { OnOk result (Gains (IsPlace slices.now) sectors.old.items sectors.new.items) }
{
    for k in 0..slices.len() {
        sectors.push(slices[k].first + 1)?;
    }
    Ok(())
}

fn push_chain(sectors: &mut Vec<u64>, body: &Body) -> Result<(), AllocError>
    ensures { OnOk result (Gains (IsEbr body.now) sectors.old.items sectors.new.items) }
{
    match body {
        Body::Mbr { chain, .. } => push_ebrs(sectors, chain.as_slice()),
        Body::Gpt(_) => Ok(()),
    }
}

fn ebrs_of(alloc: Global, body: &Body) -> Result<Vec<u64>, AllocError>
    ensures { IfOk result (λ v. Lists (IsEbr body.now) v.items) }
{
    let mut ebrs = Vec::new(alloc);
    push_chain(&mut ebrs, body)?;
    ebrs.sort_unstable();
    Ok(ebrs)
}

fn places_in(alloc: Global, slices: &[Slice]) -> Result<Vec<u64>, AllocError>
    requires { All (λ p. p.first + 1 < 2 ^ 64) slices.now }
    ensures { IfOk result (λ v. Lists (IsPlace slices.now) v.items) }
{
    let mut places = Vec::new(alloc);
    push_places(&mut places, slices)?;
    places.sort_unstable();
    Ok(places)
}

/// The extended boot records and the label places of a layout.
#[tactic(auto, using(crate::proofs::LabelPlaces::places_small))]
pub fn alone_sectors<const B: usize>(alloc: Global, layout: &Layout) -> Result<Alone, AllocError>
    requires { IsSectorSize B }
    ensures { IfOk result (AreAlone B layout.now) }
{
    let slices = label_places::<B>(alloc, layout.sectors, &layout.body)?;
    let places = places_in(alloc, &slices)?;
    let ebrs = ebrs_of(alloc, &layout.body)?;
    Ok(Alone { ebrs, places })
}

// The lowest of some sectors, which ascend, from one on.
pub(crate) fn next_among(sectors: &[u64], from: u64) -> Option<u64>
    requires { IsNonDecreasing sectors.now }
    ensures { NextSectorIs (Contains sectors.now) from result }
{
    let at = sectors.partition_point(|lba| *lba < from);
    match sectors.get(at) {
        Some(lba) => Some(*lba),
        None => None,
    }
}
