// Places, and the volume of a tetrahedron.
ghost use Rattle.std.specs.Prelude.{◌≡◌, ◌≤◌, ◌^◌, ◌↔◌, unsigned_abs, IsTrue, SomeIff};
ghost use Rattle.ma_geom.specs.Coordinates.{IsInRange, limit};
ghost use Rattle.ma_geom.specs.Volume.{vol6};

use crate::vectors::Vector;
use std::marker::Model;

/// A point with whole coordinates, each at most 2^30 in absolute value. Places are ordered by x,
/// then y, then z.
#[derive(Clone, Copy, Debug, PartialEq, Eq, PartialOrd, Ord, Hash)]
pub struct Place {
    x: i32,
    y: i32,
    z: i32,
}

impl Model for Place {
    ghost use Rattle.ma_geom.specs.Coordinates.{Coordinates, IsInRange};

    ghost Value = { Coordinates };

    ghost view = { λ p. record { x = p.x; y = p.y; z = p.z } };

    ghost invariant = { λ p. IsInRange (record { x = p.x; y = p.y; z = p.z }) };

    ghost inverse = { λ c. record { x = c.x; y = c.y; z = c.z } };
}

impl Default for Place {
    ghost use Rattle.std.specs.Prelude.{◌≡◌, pos};

    ghost is_default = { λ p. p ≡ record { x = pos 0; y = pos 0; z = pos 0 } };

    fn default() -> Place {
        Place { x: 0, y: 0, z: 0 }
    }
}

fn is_coordinate(c: i32) -> bool
    ensures { IsTrue result ↔ (unsigned_abs c ≤ limit) }
{
    c.unsigned_abs() <= 1 << 30
}

impl Place {
    /// The place with these coordinates, if they are in range.
    pub fn new(x: i32, y: i32, z: i32) -> Option<Place>
        ensures { SomeIff result (IsInRange (record { x = x; y = y; z = z })) (record { x = x; y = y; z = z }) }
    {
        if is_coordinate(x) && is_coordinate(y) && is_coordinate(z) {
            Some(Place { x, y, z })
        } else {
            None
        }
    }

    /// The place with these coordinates, which are in range.
    pub(crate) fn within(x: i32, y: i32, z: i32) -> Place
        requires x_in { unsigned_abs x ≤ limit }
        requires y_in { unsigned_abs y ≤ limit }
        requires z_in { unsigned_abs z ≤ limit }
        ensures { result ≡ record { x = x; y = y; z = z } }
    {
        Place { x, y, z }
    }

    pub fn x(&self) -> i32
        ensures value { result ≡ self.now.x }
        ensures range { unsigned_abs result ≤ limit }
    {
        self.x
    }

    pub fn y(&self) -> i32
        ensures value { result ≡ self.now.y }
        ensures range { unsigned_abs result ≤ limit }
    {
        self.y
    }

    pub fn z(&self) -> i32
        ensures value { result ≡ self.now.z }
        ensures range { unsigned_abs result ≤ limit }
    {
        self.z
    }
}

/// Six times the signed volume of the tetrahedron `a`, `b`, `c`, `d`.
#[tactic(auto, unfolding(crate::specs::Volume::vol6))]
pub fn vol6(a: Place, b: Place, c: Place, d: Place) -> i128
    ensures { result ≡ vol6 a b c d }
{
    let normal = Vector::from_to(a, b).cross(&Vector::from_to(a, c));
    normal.along(&Vector::from_to(a, d))
}
