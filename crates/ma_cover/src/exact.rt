// Whole numbers that can't overflow: each step states its value and how far from zero it can be.
// The difference of two coordinates is at most 2^31 in absolute value, and a minor of two rows of
// these at most 2^63. A place times the denominator of a spot is off the spot by at most 2^51, so
// the side of a spot is at most 3 * 2^114.
ghost use Rattle.std.specs.Prelude.{◌≡◌, ◌≤◌, ◌^◌, ◌+ℤ◌, ◌-ℤ◌, ◌*ℤ◌, pos, unsigned_abs};

/// How far a coordinate is from another.
pub(crate) fn length_from(a: i32, b: i32) -> i64
    requires a_in { unsigned_abs a ≤ 2 ^ 30 }
    requires b_in { unsigned_abs b ≤ 2 ^ 30 }
    ensures value { result ≡ b -ℤ a }
    ensures bound { unsigned_abs result ≤ 2 ^ 31 }
{
    b as i64 - a as i64
}

/// How far a numerator is from `w` times a coordinate.
pub(crate) fn offset_from(a: i32, w: u32, numerator: i64) -> i64
    requires a_in { unsigned_abs a ≤ 2 ^ 30 }
    requires w_in { w ≤ 2 ^ 20 }
    requires numerator_in { unsigned_abs numerator ≤ 2 ^ 50 }
    ensures value { result ≡ numerator -ℤ (pos w *ℤ a) }
    ensures bound { unsigned_abs result ≤ 2 ^ 51 }
{
    numerator - weighed(w, a)
}

fn weighed(w: u32, a: i32) -> i64
    requires a_in { unsigned_abs a ≤ 2 ^ 30 }
    requires w_in { w ≤ 2 ^ 20 }
    ensures value { result ≡ pos w *ℤ a }
    ensures bound { unsigned_abs result ≤ 2 ^ 50 }
{
    w as i64 * a as i64
}

fn rectangle(p: i64, q: i64) -> i64
    requires p_in { unsigned_abs p ≤ 2 ^ 31 }
    requires q_in { unsigned_abs q ≤ 2 ^ 31 }
    ensures value { result ≡ p *ℤ q }
    ensures bound { unsigned_abs result ≤ 2 ^ 62 }
{
    p * q
}

/// The determinant of two rows of differences, `p * s - q * r`.
pub(crate) fn parallelogram(p: i64, q: i64, r: i64, s: i64) -> i128
    requires p_in { unsigned_abs p ≤ 2 ^ 31 }
    requires q_in { unsigned_abs q ≤ 2 ^ 31 }
    requires r_in { unsigned_abs r ≤ 2 ^ 31 }
    requires s_in { unsigned_abs s ≤ 2 ^ 31 }
    ensures value { result ≡ (p *ℤ s) -ℤ (q *ℤ r) }
    ensures bound { unsigned_abs result ≤ 2 ^ 63 }
{
    rectangle(p, s) as i128 - rectangle(q, r) as i128
}

/// A minor times an offset.
pub(crate) fn prism(m: i128, u: i64) -> i128
    requires m_in { unsigned_abs m ≤ 2 ^ 63 }
    requires u_in { unsigned_abs u ≤ 2 ^ 51 }
    ensures value { result ≡ m *ℤ u }
    ensures bound { unsigned_abs result ≤ 2 ^ 114 }
{
    m * u as i128
}

/// The sum of three such products.
pub(crate) fn sum_of_prisms(a: i128, b: i128, c: i128) -> i128
    requires a_in { unsigned_abs a ≤ 2 ^ 114 }
    requires b_in { unsigned_abs b ≤ 2 ^ 114 }
    requires c_in { unsigned_abs c ≤ 2 ^ 114 }
    ensures { result ≡ (a +ℤ b) +ℤ c }
{
    a + b + c
}
