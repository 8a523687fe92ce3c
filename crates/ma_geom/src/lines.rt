// Which places lie in one plane or on one line.
ghost use Rattle.std.specs.Prelude.{◌≡◌};
ghost use Rattle.ma_geom.specs.Lines.{between, collinear, coplanar, normal};

use crate::place::{Place, vol6};
use crate::vectors::{Form, Vector};

/// The normal of the triangle `a`, `b`, `c`, by which `a`, `b` and `c` turn to the left.
#[tactic(auto, unfolding(crate::specs::Lines::normal))]
pub fn normal(a: Place, b: Place, c: Place) -> Form
    ensures { result ≡ normal a b c }
{
    Vector::from_to(a, b).cross(&Vector::from_to(a, c))
}

/// Whether the four places lie in one plane.
pub fn coplanar(a: Place, b: Place, c: Place, d: Place) -> bool
    ensures { result ≡ coplanar a b c d }
{
    vol6(a, b, c, d) == 0
}

/// Whether the three places lie on one line. Two equal places lie on one with any third.
pub fn collinear(a: Place, b: Place, c: Place) -> bool
    ensures { result ≡ collinear a b c }
{
    normal(a, b, c).is_zero()
}

/// Whether `a` lies strictly between `c` and `v` on one line.
pub fn between(c: Place, a: Place, v: Place) -> bool
    ensures { result ≡ between c a v }
{
    collinear(c, a, v) && Vector::from_to(a, c).dot(&Vector::from_to(a, v)) < 0
}
