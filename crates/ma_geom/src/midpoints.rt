// The place halfway between two places.
ghost use Rattle.std.specs.Prelude.{◌≡◌, ◌≤◌, ◌^◌, ◌+ℤ◌, unsigned_abs, IfSome};
ghost use Rattle.ma_geom.specs.Coordinates.{limit};
ghost use Rattle.ma_geom.specs.Midpoints.{halved, midpoint};

use crate::place::Place;

/// The sum of two coordinates.
fn sum(a: i32, b: i32) -> i64
    requires a_in { unsigned_abs a ≤ 2 ^ 30 }
    requires b_in { unsigned_abs b ≤ 2 ^ 30 }
    ensures value { result ≡ a +ℤ b }
    ensures bound { unsigned_abs result ≤ 2 ^ 31 }
{
    a as i64 + b as i64
}

/// The half of an even number.
#[tactic(auto, unfolding(crate::specs::Midpoints::halved))]
fn halved(n: i64) -> Option<i32>
    requires { unsigned_abs n ≤ 2 ^ 31 }
    ensures value { result ≡ halved n }
    ensures range { IfSome result (λ h. unsigned_abs h ≤ limit) }
{
    if n % 2 == 0 {
        Some((n / 2) as i32)
    } else {
        None
    }
}

/// The place halfway between two places. None where a sum of two coordinates is odd.
pub fn midpoint(a: Place, b: Place) -> Option<Place>
    ensures { result ≡ midpoint a b }
{
    let x = halved(sum(a.x(), b.x()))?;
    let y = halved(sum(a.y(), b.y()))?;
    let z = halved(sum(a.z(), b.z()))?;
    Some(Place::within(x, y, z))
}
