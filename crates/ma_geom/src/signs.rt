// Signs, and the side of a triangle on which a place lies.
ghost use Rattle.std.specs.Prelude.{◌≡◌};
ghost use Rattle.ma_geom.specs.Signs.{same_sign, side_of, sign_of};
ghost use Rattle.ma_geom.specs.Volume.{vol6};

use crate::place::{Place, vol6};

/// The sign of a whole number.
#[derive(Clone, Copy, Debug, PartialEq, Eq)]
pub enum Sign {
    Minus,
    Zero,
    Plus,
}

pub(crate) fn sign_of(n: i128) -> Sign
    ensures { result ≡ sign_of n }
{
    if n < 0 {
        Sign::Minus
    } else if n == 0 {
        Sign::Zero
    } else {
        Sign::Plus
    }
}

pub(crate) fn same_sign(s: Sign, t: Sign) -> bool
    ensures { result ≡ same_sign s t }
{
    s == t
}

fn side_by_corners(a: Place, b: Place, c: Place, p: Place) -> Sign
    ensures { result ≡ sign_of (vol6 a b c p) }
{
    sign_of(vol6(a, b, c, p))
}

/// The side of the triangle `face` on which `p` lies: `Plus` where its corners turn to the left,
/// seen from `p`.
pub fn side(face: [Place; 3], p: Place) -> Sign
    ensures { result ≡ side_of face p }
{
    side_by_corners(face[0], face[1], face[2], p)
}
