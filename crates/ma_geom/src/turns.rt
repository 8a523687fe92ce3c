// The way in which three places turn.
ghost use Rattle.std.specs.Prelude.{◌≡◌};
ghost use Rattle.ma_geom.specs.Lines.{normal};
ghost use Rattle.ma_geom.specs.Signs.{sign_of};
ghost use Rattle.ma_geom.specs.Turns.{is_no_turn, same_turn, turn_of};

use crate::lines::normal;
use crate::place::Place;
use crate::signs::{Sign, same_sign, sign_of};

/// The signs of the components of a triangle's normal.
#[derive(Clone, Copy)]
struct Turn {
    x: Sign,
    y: Sign,
    z: Sign,
}

fn turn_by(a: Place, b: Place, c: Place) -> Turn
    ensures x { result.x ≡ sign_of (normal a b c).x }
    ensures y { result.y ≡ sign_of (normal a b c).y }
    ensures z { result.z ≡ sign_of (normal a b c).z }
{
    let normal = normal(a, b, c);
    Turn {
        x: sign_of(normal.x),
        y: sign_of(normal.y),
        z: sign_of(normal.z),
    }
}

fn turn_of(t: [Place; 3]) -> Turn
    ensures x { result.x ≡ (turn_of t).x }
    ensures y { result.y ≡ (turn_of t).y }
    ensures z { result.z ≡ (turn_of t).z }
{
    turn_by(t[0], t[1], t[2])
}

fn is_no_turn(turn: Turn) -> bool
    ensures { result ≡ is_no_turn (record { x = turn.x; y = turn.y; z = turn.z }) }
{
    same_sign(turn.x, Sign::Zero) && same_sign(turn.y, Sign::Zero) && same_sign(turn.z, Sign::Zero)
}

/// Whether two triangles turn the same way, seen along each axis. A triangle whose corners lie on
/// one line turns no way.
pub fn same_turn(t: [Place; 3], u: [Place; 3]) -> bool
    ensures { result ≡ same_turn t u }
{
    let (one, other) = (turn_of(t), turn_of(u));
    same_sign(one.x, other.x)
        && same_sign(one.y, other.y)
        && same_sign(one.z, other.z)
        && !is_no_turn(one)
}
