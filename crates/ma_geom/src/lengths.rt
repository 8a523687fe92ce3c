// Squared distances.
ghost use Rattle.std.specs.Prelude.{◌≡◌, ◌≤◌, ◌*◌, ◌^◌, pos, unsigned_abs};
ghost use Rattle.ma_geom.specs.Lengths.{len2};

use crate::place::Place;
use crate::vectors::Vector;

/// The squared distance of two places, which fits 64 bits without a sign.
#[tactic(auto, unfolding(crate::specs::Lengths::len2))]
pub fn squared_length(a: Place, b: Place) -> u64
    ensures value { pos result ≡ len2 a b }
    ensures bound { result ≤ 3 * 2 ^ 62 }
{
    Vector::from_to(a, b).square()
}

/// The squared distance of two places.
pub fn len2(a: Place, b: Place) -> i128
    ensures value { result ≡ len2 a b }
    ensures bound { unsigned_abs result ≤ 3 * 2 ^ 62 }
{
    i128::from(squared_length(a, b))
}
