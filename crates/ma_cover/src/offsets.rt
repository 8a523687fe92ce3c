// The side of a triangle on which a spot lies, by vectors from the triangle's first corner. Each
// type keeps how far from zero its components are, so that no sum or product can overflow.
ghost use Rattle.std.specs.Prelude.{◌≡◌};
ghost use Rattle.ma_geom.specs.Rational.{offset, side};
ghost use Rattle.ma_geom.specs.Volume.{cross, dot, minus};

use crate::exact::{length_from, offset_from, parallelogram, prism, sum_of_prisms};
use crate::spot::Spot;
use ma_geom::Place;
use std::marker::Model;

/// The vector from a place to another.
#[derive(Clone, Copy)]
struct Leg {
    x: i64,
    y: i64,
    z: i64,
}

impl Model for Leg {
    ghost use Rattle.std.specs.Prelude.{◌≤◌, ◌^◌, unsigned_abs};
    ghost use Rattle.ma_geom.specs.Coordinates.{Coordinates};

    ghost Value = { Coordinates };

    ghost view = { λ v. record { x = v.x; y = v.y; z = v.z } };

    ghost inverse = { λ v. record { x = v.x; y = v.y; z = v.z } };

    ghost invariant = { λ v. (unsigned_abs v.x ≤ 2 ^ 31) × (unsigned_abs v.y ≤ 2 ^ 31) × (unsigned_abs v.z ≤ 2 ^ 31) };
}

/// The vector from a place to a spot, times the spot's denominator.
#[derive(Clone, Copy)]
struct Offset {
    x: i64,
    y: i64,
    z: i64,
}

impl Model for Offset {
    ghost use Rattle.std.specs.Prelude.{◌≤◌, ◌^◌, unsigned_abs};
    ghost use Rattle.ma_geom.specs.Coordinates.{Coordinates};

    ghost Value = { Coordinates };

    ghost view = { λ v. record { x = v.x; y = v.y; z = v.z } };

    ghost inverse = { λ v. record { x = v.x; y = v.y; z = v.z } };

    ghost invariant = { λ v. (unsigned_abs v.x ≤ 2 ^ 51) × (unsigned_abs v.y ≤ 2 ^ 51) × (unsigned_abs v.z ≤ 2 ^ 51) };
}

fn leg_between(from: Place, to: Place) -> Leg
    ensures { result ≡ minus to from }
{
    Leg {
        x: length_from(from.x(), to.x()),
        y: length_from(from.y(), to.y()),
        z: length_from(from.z(), to.z()),
    }
}

fn offset_of(spot: &Spot, place: Place) -> Offset
    ensures { result ≡ offset spot.now place }
{
    Offset {
        x: offset_from(place.x(), spot.w(), spot.x()),
        y: offset_from(place.y(), spot.w(), spot.y()),
        z: offset_from(place.z(), spot.w(), spot.z()),
    }
}

/// The triple product of three vectors.
fn triple_product(u: &Leg, v: &Leg, o: &Offset) -> i128
    ensures { result ≡ dot (cross u.now v.now) o.now }
{
    sum_of_prisms(
        prism(parallelogram(u.y, u.z, v.y, v.z), o.x),
        prism(parallelogram(u.z, u.x, v.z, v.x), o.y),
        prism(parallelogram(u.x, u.y, v.x, v.y), o.z),
    )
}

/// The spot's side of the triangle `a`, `b`, `c`: zero in its plane.
#[tactic(auto, unfolding(ma_geom::specs::Rational::side))]
pub(crate) fn spot_side(a: Place, b: Place, c: Place, spot: &Spot) -> i128
    ensures { result ≡ side a b c spot.now }
{
    triple_product(&leg_between(a, b), &leg_between(a, c), &offset_of(spot, a))
}
