//! Where the sectors of a view stand, by their numbers.

ghost use Rattle.std.specs.Prelude.{◌≡◌, IfOk};
ghost use Rattle.pt_replay.specs.Wanted.{LeadsTo, Leads, place_from};

use std::alloc::{AllocError, Global};
use std::collections::BTreeMap;

/// The first place of each number. Where memory for it was refused it isn't whole, and a place is looked for from the front.
#[derive(Drop)]
pub struct Index {
    places: BTreeMap<u64, usize>,
    whole: bool,
}

// The first place of each number. They are put there from the last one on: of equal numbers the first stays.
fn places_of(alloc: Global, numbers: &[u64]) -> Result<BTreeMap<u64, usize>, AllocError>
    ensures { IfOk result (LeadsTo numbers.now) }
{
    let mut places = BTreeMap::new(alloc);
    let mut k = numbers.len();
    'places: while k > 0 {
        k -= 1;
        places.insert(numbers[k], k)?;
    }
    Ok(places)
}

// The first place of a number, from the front.
#[tactic(auto, using(crate::proofs::FirstPlaces::place_here, crate::proofs::FirstPlaces::place_on, crate::proofs::FirstPlaces::place_end))]
fn first_place(numbers: &[u64], number: u64) -> Option<usize>
    ensures { result ≡ place_from 0 numbers.now number }
{
    for k in 0..numbers.len() {
        if numbers[k] == number {
            return Some(k);
        }
    }
    None
}

impl Index {
    /// The index of these numbers.
    pub fn new(alloc: Global, numbers: &[u64]) -> Index
        ensures { Leads numbers.now result }
    {
        match places_of(alloc, numbers) {
            Ok(places) => Index {
                places,
                whole: true,
            },
            Err(_) => Index {
                places: BTreeMap::new(alloc),
                whole: false,
            },
        }
    }

    /// The first place of a number among those that the index is of.
    pub fn place(&self, numbers: &[u64], number: u64) -> Option<usize>
        requires { Leads numbers.now self.now }
        ensures { result ≡ place_from 0 numbers.now number }
    {
        if !self.whole {
            return first_place(numbers, number);
        }
        match self.places.get(&number) {
            Some(place) => Some(*place),
            None => None,
        }
    }
}
