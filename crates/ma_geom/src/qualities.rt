// The quality of a tetrahedron.
ghost use Rattle.std.specs.Prelude.{◌≡◌, ◌≢◌, ◌+◌, ◌≤◌, ◌<◌, ◌*◌, ◌/◌, ◌^◌, pos, false, unsigned_abs};
ghost use Rattle.ma_geom.specs.Lines.{is_flat};
ghost use Rattle.ma_geom.specs.Quality.{longest2, quality, quality_of, root};
ghost use Rattle.ma_geom.specs.Volume.{vol6};

use crate::lengths::squared_length;
use crate::place::{Place, vol6};

/// The parts of the cube. A regular tetrahedron has the quality 2^30 / sqrt 2, but for the rounding
/// of its edge.
const WHOLE: u128 = 1 << 30;

#[tactic(auto, unfolding(crate::specs::Quality::longest2))]
fn longest2(a: Place, b: Place, c: Place, d: Place) -> u64
    ensures { result ≡ longest2 a b c d }
{
    squared_length(a, b)
        .max(squared_length(a, c))
        .max(squared_length(a, d))
        .max(squared_length(b, c))
        .max(squared_length(b, d))
        .max(squared_length(c, d))
}

#[tactic(auto, using(crate::proofs::Roots::one_root))]
fn root(n: u64) -> u64
    ensures value { result ≡ root n }
    ensures square { n < (result + 1) * (result + 1) }
    ensures bound { result < 2 ^ 32 }
{
    n.isqrt()
}

/// A volume in parts of the cube over an edge with this square and this root.
fn in_parts(volume: u128, square: u64, root: u64) -> u32
    requires solid { 0 < volume }
    requires bound { volume ≤ 3 * (square * root) }
    requires root_in { root < 2 ^ 32 }
    ensures { result ≡ (2 ^ 30 * volume) / (square * root) }
{
    let cube = square as u128 * root as u128;
    (WHOLE * volume / cube) as u32
}

#[tactic(auto, unfolding(crate::specs::Quality::quality_of))]
fn quality_of(a: Place, b: Place, c: Place, d: Place) -> u32
    requires { vol6 a b c d ≢ pos 0 }
    ensures { result ≡ quality_of a b c d }
{
    let longest = longest2(a, b, c, d);
    in_parts(vol6(a, b, c, d).unsigned_abs(), longest, root(longest))
}

/// How large the volume of a tetrahedron is for its longest edge: six times the volume over the
/// cube of that edge, in parts of 2^-30. The cube is taken as the square of the edge times its
/// length rounded down.
pub fn quality(t: [Place; 4]) -> u32
    requires { is_flat t ≡ false }
    ensures { result ≡ quality t }
{
    quality_of(t[0], t[1], t[2], t[3])
}
