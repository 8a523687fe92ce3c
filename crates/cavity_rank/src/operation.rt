// Operations, in order of rank.
ghost use Rattle.std.specs.Prelude.{◌≡◌, ◌↔◌, true};
ghost use Rattle.std.specs.Cmp.{IsTotalOrder};
ghost use Rattle.std.specs.List.{AllByRecursion};
ghost use Rattle.ma_geom.specs.Coordinates.{IsInRange, place_cmp};
ghost use Rattle.ma_cells.specs.Ascending.{are_ascending};
ghost use Rattle.cavity_rank.specs.Operations.{is_spot, operation_at, rank};

use arrayvec::ArrayVec;
use ma_geom::Place;
use std::cmp::{Ordering, Reverse};
use std::marker::Model;

/// A collapse or a swap: the vertex, the edge or the face that is taken away, by one to three
/// ascending places; the place from which the cavity is filled; and the least quality of what fills
/// it. Operations are ordered by rank, so that of two the one with the greater quality is the lesser
/// one.
#[derive(Clone, Debug, Drop, PartialEq, Eq, PartialOrd, Ord)]
pub struct Operation {
    worst: Reverse<u32>,
    at: ArrayVec<Place, 3>,
    apex: Place,
}

impl Model for Operation {
    ghost use Rattle.std.specs.Prelude.{◌≡◌, true};
    ghost use Rattle.std.specs.List.{AllByRecursion};
    ghost use Rattle.ma_geom.specs.Coordinates.{IsInRange};
    ghost use Rattle.cavity_rank.specs.Operations.{Operation, is_spot};

    ghost Value = { Operation };

    ghost view = { λ o. record { at = o.at.items; apex = o.apex; worst = o.worst.0 } };

    ghost invariant = { λ o. (is_spot o.at.items ≡ true) × AllByRecursion IsInRange o.at.items × IsInRange o.apex };

    ghost inverse = { λ o. record { worst = record { 0 = o.worst }; at = record { items = o.at }; apex = o.apex } };
}

/// Whether each place is below the next.
fn are_ascending(places: &[Place]) -> bool
    ensures { result ≡ are_ascending place_cmp places.now }
{
    match places {
        [first, rest @ ..] => match rest {
            [second, ..] => first < second && are_ascending(rest),
            [] => true,
        },
        [] => true,
    }
}

/// Whether these are one to three places, each below the next.
fn is_spot(places: &[Place]) -> bool
    ensures { result ≡ is_spot places.now }
{
    1 <= places.len() && places.len() <= 3 && are_ascending(places)
}

/// That each of the places is in range, as its coordinates tell. It does nothing.
fn see_range(places: &[Place])
    ensures { AllByRecursion IsInRange places.now }
{
    if let [first, rest @ ..] = places {
        let _ = (first.x(), first.y(), first.z());
        see_range(rest);
    }
}

impl Operation {
    /// None where these aren't one to three places, each below the next. Takes no memory.
    pub fn new(at: &[Place], apex: Place, worst: u32) -> Option<Operation>
        ensures { result ≡ operation_at at.now apex worst }
    {
        if !is_spot(at) {
            return None;
        }
        see_range(at);
        see_range(&[apex]);
        match ArrayVec::try_from(at) {
            Ok(at) => Some(Operation {
                worst: Reverse(worst),
                at,
                apex,
            }),
            Err(_) => None,
        }
    }

    /// The vertex, the edge or the face that is taken away.
    pub fn at(&self) -> &[Place]
        ensures value { result.now ≡ self.now.at }
        ensures spot { is_spot result.now ≡ true }
        ensures range { AllByRecursion IsInRange result.now }
    {
        self.at.as_slice()
    }

    /// The place from which the cavity is filled.
    pub fn apex(&self) -> Place
        ensures value { result ≡ self.now.apex }
        ensures range { IsInRange result }
    {
        self.apex
    }

    /// The least quality of what fills the cavity.
    pub fn worst(&self) -> u32
        ensures { result ≡ self.now.worst }
    {
        self.worst.0
    }
}

/// `Less` where the first ranks before the second: the one with the greater quality, then the one at
/// the lesser places, then the one with the lesser apex. Takes no memory.
pub fn compare(a: &Operation, b: &Operation) -> Ordering
    ensures value { result ≡ rank a.now b.now }
    ensures total { IsTotalOrder rank }
    // Only an operation ties with itself.
    ensures equal { (rank a.now b.now ≡ Ordering.Equal) ↔ (a.now ≡ b.now) }
{
    a.cmp(b)
}
