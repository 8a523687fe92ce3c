// Points between places.
ghost use Rattle.std.specs.Prelude.{◌≡◌, ◌≤◌, ◌^◌, ◌↔◌, pos, unsigned_abs, IsTrue, SomeIff};
ghost use Rattle.ma_cover.specs.Spots.{IsSpot};

use std::marker::Model;

/// The point `(x / w, y / w, z / w)`, where `w` is at least 1 and at most 2^20, and `x`, `y` and
/// `z` are at most 2^50 in absolute value. Two spots may stand for one point.
#[derive(Clone, Copy, Debug, PartialEq, Eq)]
pub struct Spot {
    x: i64,
    y: i64,
    z: i64,
    w: u32,
}

impl Model for Spot {
    ghost use Rattle.std.specs.Prelude.{pos, unsigned_abs};
    ghost use Rattle.ma_geom.specs.Rational.{Rational};
    ghost use Rattle.ma_cover.specs.Spots.{IsSpot};

    ghost Value = { Rational };

    ghost view = { λ s. record { x = s.x; y = s.y; z = s.z; w = pos s.w } };

    ghost invariant = { λ s. IsSpot (record { x = s.x; y = s.y; z = s.z; w = pos s.w }) };

    ghost inverse = { λ p. record { x = p.x; y = p.y; z = p.z; w = unsigned_abs p.w } };
}

fn is_numerator(c: i64) -> bool
    ensures { IsTrue result ↔ (unsigned_abs c ≤ 2 ^ 50) }
{
    c.unsigned_abs() <= 1 << 50
}

fn is_denominator(w: u32) -> bool
    ensures { IsTrue result ↔ ((1 ≤ w) × (w ≤ 2 ^ 20)) }
{
    1 <= w && w <= 1 << 20
}

impl Spot {
    /// The point with these coordinates over `w`, if they are in range.
    pub fn new(x: i64, y: i64, z: i64, w: u32) -> Option<Spot>
        ensures { SomeIff result (IsSpot (record { x = x; y = y; z = z; w = pos w })) (record { x = x; y = y; z = z; w = pos w }) }
    {
        if is_numerator(x) && is_numerator(y) && is_numerator(z) && is_denominator(w) {
            Some(Spot { x, y, z, w })
        } else {
            None
        }
    }

    pub fn x(&self) -> i64
        ensures value { result ≡ self.now.x }
        ensures range { unsigned_abs result ≤ 2 ^ 50 }
    {
        self.x
    }

    pub fn y(&self) -> i64
        ensures value { result ≡ self.now.y }
        ensures range { unsigned_abs result ≤ 2 ^ 50 }
    {
        self.y
    }

    pub fn z(&self) -> i64
        ensures value { result ≡ self.now.z }
        ensures range { unsigned_abs result ≤ 2 ^ 50 }
    {
        self.z
    }

    pub fn w(&self) -> u32
        ensures value { pos result ≡ self.now.w }
        ensures least { 1 ≤ result }
        ensures most { result ≤ 2 ^ 20 }
    {
        self.w
    }
}
