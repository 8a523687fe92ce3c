// The homes of places.
ghost use Rattle.std.specs.Prelude.{◌≡◌, ◌<◌, ◌≤◌, ◌*◌, ◌^◌, ◌+ℤ◌, ◌*ℤ◌, int_div, pos, unsigned_abs};
ghost use Rattle.std.specs.Int.{int_rem_euclid};
ghost use Rattle.directory.specs.Homes.{home_of};

use ma_cells::Label;
use ma_geom::Place;

/// The sum of coordinates, of which the second counts three times and the third five times.
fn weighted_sum(x: i32, y: i32, z: i32) -> i64
    requires x_in { unsigned_abs x ≤ 2 ^ 30 }
    requires y_in { unsigned_abs y ≤ 2 ^ 30 }
    requires z_in { unsigned_abs z ≤ 2 ^ 30 }
    ensures value { result ≡ (x +ℤ pos 3 *ℤ y) +ℤ pos 5 *ℤ z }
    ensures bound { unsigned_abs result ≤ 9 * 2 ^ 30 }
{
    i64::from(x) + 3 * i64::from(y) + 5 * i64::from(z)
}

/// How often 2^`j` goes into a sum.
fn steps_of(sum: i64, j: u32) -> i64
    requires sum_in { unsigned_abs sum ≤ 9 * 2 ^ 30 }
    requires grid { j ≤ 30 }
    ensures value { result ≡ int_div sum (pos (2 ^ j)) }
    ensures bound { unsigned_abs result ≤ 9 * 2 ^ 30 }
{
    sum / (1 << j)
}

/// The part to which a number of steps leads, as parts follow each other in turn.
fn part_at(steps: i64, parts: u8) -> Label
    requires steps_in { unsigned_abs steps ≤ 9 * 2 ^ 30 }
    requires parts { 1 ≤ parts }
    ensures value { result ≡ unsigned_abs (int_rem_euclid steps (pos parts)) }
    ensures below { result < parts }
{
    steps.rem_euclid(i64::from(parts)) as u8
}

/// The home of a place, on the grid of 2^`j`. Takes no memory.
#[tactic(auto, unfolding(crate::specs::Homes::home_of))]
pub fn home(place: Place, j: u32, parts: u8) -> Label
    requires grid { j ≤ 30 }
    requires parts { 1 ≤ parts }
    ensures value { result ≡ home_of j parts place }
    ensures below { result < parts }
{
    let sum = weighted_sum(place.x(), place.y(), place.z());
    part_at(steps_of(sum, j), parts)
}
