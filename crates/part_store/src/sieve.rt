// A sieve of places, by which most that are not in a set are told in a few steps.
ghost use Rattle.std.specs.Prelude.{◌≡◌, ◌<◌, length, true, IfOk};
ghost use Rattle.std.specs.List.{list_all};
ghost use Rattle.ma_geom.specs.Coordinates.{place_cmp};
ghost use Rattle.ma_cells.specs.Ascending.{ascending_of, has};
ghost use Rattle.part_store.specs.steps.Sieves.{mixed, passes, raised, spot};

use ma_cells::Ascending;
use ma_geom::{Memory, Place};
use std::alloc::Global;
use std::marker::Model;

/// Flags, one of which each place has, alone or with others. The flags of some places are up, and
/// few other places have one of these.
#[derive(Debug, Drop)]
pub(crate) struct Sieve {
    flags: Vec<bool>,
}

impl Model for Sieve {
    ghost use Rattle.std.specs.Prelude.{◌<◌, Bool, List, length};

    ghost Value = { List Bool };

    ghost view = { λ s. s.flags.items };

    ghost invariant = { λ s. 0 < length s.flags.items };
}

/// How many flags a sieve of so many places has: a power of two, so that about one in ten is up.
fn flag_count(places: usize) -> usize
    ensures { 0 < result }
{
    (places.min(1 << 28) * 8).max(64).next_power_of_two()
}

/// A number of 64 bits that mixes the coordinates. Its upper half tells multiples of a power of two
/// apart as well as others.
fn mixed(place: Place) -> u64
    ensures { result ≡ mixed place }
{
    let x = u64::from(place.x().unsigned_abs()).wrapping_mul(11_400_714_819_323_198_485);
    let y = u64::from(place.y().unsigned_abs()).wrapping_mul(14_029_467_366_897_019_727);
    let z = u64::from(place.z().unsigned_abs()).wrapping_mul(1_609_587_929_392_839_161);
    x.wrapping_add(y).wrapping_add(z)
}

/// Where a place has its flag among so many.
fn spot(place: Place, count: usize) -> usize
    requires { 0 < count }
    ensures value { result ≡ spot place count }
    ensures below { result < count }
{
    (mixed(place) >> 32) as usize & (count - 1)
}

/// Puts the flags of these places up.
fn raise_all(flags: &mut [bool], places: &[Place])
    requires { 0 < length flags.old }
    ensures { flags.new ≡ raised places.now flags.old }
{
    for place in places {
        let at = spot(*place, flags.len());
        flags[at] = true;
    }
}

impl Sieve {
    /// A sieve that lets these places pass.
    pub(crate) fn of(alloc: Global, places: &[Place]) -> Result<Sieve, Memory>
        ensures { IfOk result (λ sieve. list_all (passes sieve) places.now ≡ true) }
    {
        let mut flags = vec![in alloc; false; flag_count(places.len())]?;
        raise_all(flags.as_mut_slice(), places);
        Ok(Sieve { flags })
    }

    /// Whether a place passes.
    pub(crate) fn may_have(&self, place: Place) -> bool
        ensures { result ≡ passes self.now place }
    {
        let flags = self.flags.as_slice();
        flags[spot(place, flags.len())]
    }
}

/// A set of places behind a sieve. What doesn't pass isn't looked up.
#[derive(Debug, Drop)]
pub(crate) struct SievedSet {
    places: Ascending<Place>,
    sieve: Sieve,
}

impl Model for SievedSet {
    ghost use Rattle.std.specs.Prelude.{◌≡◌, List, true};
    ghost use Rattle.std.specs.List.{list_all};
    ghost use Rattle.ma_geom.specs.Coordinates.{Coordinates};
    ghost use Rattle.part_store.specs.steps.Sieves.{passes};

    ghost Value = { List Coordinates };

    ghost view = { λ s. s.places };

    ghost invariant = { λ s. list_all (passes s.sieve) s.places ≡ true };
}

impl SievedSet {
    /// The set of these places, in n log n steps.
    pub(crate) fn gather(alloc: Global, places: Vec<Place>) -> Result<SievedSet, Memory>
        ensures { IfOk result (λ set. set ≡ ascending_of place_cmp places.items) }
    {
        let places = Ascending::gather(places);
        let sieve = Sieve::of(alloc, places.as_slice())?;
        Ok(SievedSet { places, sieve })
    }

    /// Whether a place is in the set.
    pub(crate) fn has(&self, place: Place) -> bool
        ensures { result ≡ has place_cmp place self.now }
    {
        self.sieve.may_have(place) && self.places.contains(&place)
    }
}
