//! Vectors between places, and their cross products. Each type keeps how far from zero its
//! components are, so that no sum or product of them can overflow.
ghost use Rattle.std.specs.Prelude.{◌≡◌, ◌≤◌, ◌*◌, ◌^◌, pos, unsigned_abs};
ghost use Rattle.ma_geom.specs.Lines.{is_zero};
ghost use Rattle.ma_geom.specs.Volume.{cross, dot, minus};

use crate::exact::{difference, minor, product, scaled, short_total, squared_difference, total};
use crate::place::Place;
use std::marker::Model;

/// The vector from a place to another. Its components are at most 2^31 in absolute value.
#[derive(Clone, Copy, Debug, PartialEq, Eq)]
pub struct Vector {
    x: i64,
    y: i64,
    z: i64,
}

impl Model for Vector {
    ghost use Rattle.std.specs.Prelude.{◌≤◌, ◌^◌, unsigned_abs};
    ghost use Rattle.ma_geom.specs.Coordinates.{Coordinates};

    ghost Value = { Coordinates };

    ghost view = { λ v. record { x = v.x; y = v.y; z = v.z } };

    ghost inverse = { λ v. record { x = v.x; y = v.y; z = v.z } };

    ghost invariant = { λ v. (unsigned_abs v.x ≤ 2 ^ 31) × (unsigned_abs v.y ≤ 2 ^ 31) × (unsigned_abs v.z ≤ 2 ^ 31) };
}

/// The cross product of two vectors, which is at right angles to both: a linear form over places
/// that is the same along each of the two. Its components are at most 2^63 in absolute value.
#[derive(Clone, Copy, Debug, PartialEq, Eq)]
pub struct Form {
    pub(crate) x: i128,
    pub(crate) y: i128,
    pub(crate) z: i128,
}

impl Model for Form {
    ghost use Rattle.std.specs.Prelude.{◌≤◌, ◌^◌, unsigned_abs};
    ghost use Rattle.ma_geom.specs.Coordinates.{Coordinates};

    ghost Value = { Coordinates };

    ghost view = { λ n. record { x = n.x; y = n.y; z = n.z } };

    ghost inverse = { λ n. record { x = n.x; y = n.y; z = n.z } };

    ghost invariant = { λ n. (unsigned_abs n.x ≤ 2 ^ 63) × (unsigned_abs n.y ≤ 2 ^ 63) × (unsigned_abs n.z ≤ 2 ^ 63) };
}

impl Vector {
    pub fn from_to(from: Place, to: Place) -> Vector
        ensures { result ≡ minus to from }
    {
        Vector {
            x: difference(to.x(), from.x()),
            y: difference(to.y(), from.y()),
            z: difference(to.z(), from.z()),
        }
    }

    /// The scalar product.
    pub fn dot(&self, other: &Vector) -> i128
        ensures value { result ≡ dot self.now other.now }
        ensures bound { unsigned_abs result ≤ 3 * 2 ^ 62 }
    {
        short_total(
            product(self.x, other.x),
            product(self.y, other.y),
            product(self.z, other.z),
        )
    }

    /// The square of its length.
    pub fn square(&self) -> u64
        ensures value { pos result ≡ dot self.now self.now }
        ensures bound { result ≤ 3 * 2 ^ 62 }
    {
        squared_difference(self.x) + squared_difference(self.y) + squared_difference(self.z)
    }

    pub fn cross(&self, other: &Vector) -> Form
        ensures { result ≡ cross self.now other.now }
    {
        Form {
            x: minor(self.y, self.z, other.y, other.z),
            y: minor(self.z, self.x, other.z, other.x),
            z: minor(self.x, self.y, other.x, other.y),
        }
    }
}

impl Form {
    pub fn is_zero(&self) -> bool
        ensures { result ≡ is_zero self.now }
    {
        self.x == 0 && self.y == 0 && self.z == 0
    }

    /// The value at a place.
    pub fn at(&self, place: Place) -> i128
        ensures { result ≡ dot self.now place }
    {
        total(
            scaled(self.x, i64::from(place.x())),
            scaled(self.y, i64::from(place.y())),
            scaled(self.z, i64::from(place.z())),
        )
    }

    /// How much the value rises along a vector.
    pub fn along(&self, vector: &Vector) -> i128
        ensures { result ≡ dot self.now vector.now }
    {
        total(
            scaled(self.x, vector.x),
            scaled(self.y, vector.y),
            scaled(self.z, vector.z),
        )
    }
}
