// Places that parts share.
ghost use Rattle.std.specs.Prelude.{◌≡◌, true, if◌then◌else◌};
ghost use Rattle.std.specs.List.Sorted.{IsStrictlySortedBy};
ghost use Rattle.std.specs.Ordering.{nat_cmp};
ghost use Rattle.ma_geom.specs.Coordinates.{IsInRange};
ghost use Rattle.letters.specs.Grammar.{are_behind};
ghost use Rattle.letters.specs.Sharing.{SharedPlace, are_sharers, shared_before, shared_place};

use ma_cells::{Ascending, Label};
use ma_geom::Place;
use std::marker::Model;

/// A place that is a corner for several parts, with these parts, two to 64.
#[derive(Debug, Drop)]
pub struct Shared {
    place: Place,
    parts: Ascending<Label>,
}

impl Model for Shared {
    ghost use Rattle.std.specs.Prelude.{◌≡◌, true};
    ghost use Rattle.letters.specs.Sharing.{SharedPlace, are_sharers};

    ghost Value = { SharedPlace };

    ghost view = { λ s. record { place = s.place; parts = s.parts } };

    ghost invariant = { λ s. are_sharers s.parts ≡ true };
}

impl Shared {
    /// None where the parts aren't two to 64. Takes no memory.
    pub fn new(place: Place, parts: Ascending<Label>) -> Option<Shared>
        ensures { result ≡ shared_place place parts }
    {
        if 2 <= parts.len() && parts.len() <= 64 {
            Some(Shared { place, parts })
        } else {
            None
        }
    }

    pub fn place(&self) -> Place
        ensures value { result ≡ self.now.place }
        ensures range { IsInRange result }
    {
        let _ = (self.place.x(), self.place.y(), self.place.z());
        self.place
    }

    /// The parts that share it.
    pub fn parts(&self) -> &[Label]
        ensures value { result.now ≡ self.now.parts }
        ensures sharers { are_sharers result.now ≡ true }
        ensures rises { IsStrictlySortedBy nat_cmp result.now }
    {
        self.parts.as_slice()
    }
}

/// Whether each stands at a lesser place than the next.
pub fn are_ascending(shared: &[Shared]) -> bool
    ensures { result ≡ are_behind shared_before None shared.now }
{
    match shared {
        [first, rest @ ..] => match rest {
            [second, ..] => first.place() < second.place() && are_ascending(rest),
            [] => true,
        },
        [] => true,
    }
}

/// A list of shared places that ascend.
#[derive(Debug, Drop)]
pub struct SharedPlaces {
    items: Vec<Shared>,
}

impl Model for SharedPlaces {
    ghost use Rattle.std.specs.Prelude.{◌≡◌, true, List, None};
    ghost use Rattle.letters.specs.Grammar.{are_behind};
    ghost use Rattle.letters.specs.Sharing.{SharedPlace, shared_before};

    ghost Value = { List SharedPlace };

    ghost view = { λ s. s.items.items };

    ghost invariant = { λ s. are_behind shared_before None s.items.items ≡ true };
}

impl SharedPlaces {
    /// Takes no memory.
    pub fn from_vec(items: Vec<Shared>) -> SharedPlaces
        requires { are_behind shared_before None items.items ≡ true }
        ensures { result ≡ items.items }
    {
        SharedPlaces { items }
    }

    /// The list. Takes no memory.
    pub fn into_vec(self) -> Vec<Shared>
        ensures { result.items ≡ self }
    {
        let SharedPlaces { items } = self;
        items
    }

    pub fn as_slice(&self) -> &[Shared]
        ensures items { result.now ≡ self.now }
        ensures rises { are_behind shared_before None self.now ≡ true }
    {
        self.items.as_slice()
    }
}
