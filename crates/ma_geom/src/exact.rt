// Whole numbers that can't overflow: each step states its value and how far from zero it can be.
// A coordinate is at most 2^30 in absolute value, so a difference is at most 2^31, a product of two
// at most 2^62, a minor of two rows of differences at most 2^63, and six times a volume at most
// 3 * 2^94. Up to the products 64 bits do.
ghost use Rattle.std.specs.Prelude.{◌≡◌, ◌≤◌, ◌*◌, ◌^◌, ◌+ℤ◌, ◌-ℤ◌, ◌*ℤ◌, pos, unsigned_abs};

/// The difference of two coordinates.
pub(crate) fn difference(a: i32, b: i32) -> i64
    requires a_in { unsigned_abs a ≤ 2 ^ 30 }
    requires b_in { unsigned_abs b ≤ 2 ^ 30 }
    ensures value { result ≡ a -ℤ b }
    ensures bound { unsigned_abs result ≤ 2 ^ 31 }
{
    a as i64 - b as i64
}

/// The product of two differences.
pub(crate) fn product(p: i64, q: i64) -> i64
    requires p_in { unsigned_abs p ≤ 2 ^ 31 }
    requires q_in { unsigned_abs q ≤ 2 ^ 31 }
    ensures value { result ≡ p *ℤ q }
    ensures bound { unsigned_abs result ≤ 2 ^ 62 }
{
    p * q
}

/// The square of a difference.
pub(crate) fn squared_difference(d: i64) -> u64
    requires { unsigned_abs d ≤ 2 ^ 31 }
    ensures value { pos result ≡ d *ℤ d }
    ensures bound { result ≤ 2 ^ 62 }
{
    product(d, d).unsigned_abs()
}

/// The determinant of two rows of differences, `p * s - q * r`.
pub(crate) fn minor(p: i64, q: i64, r: i64, s: i64) -> i128
    requires p_in { unsigned_abs p ≤ 2 ^ 31 }
    requires q_in { unsigned_abs q ≤ 2 ^ 31 }
    requires r_in { unsigned_abs r ≤ 2 ^ 31 }
    requires s_in { unsigned_abs s ≤ 2 ^ 31 }
    ensures value { result ≡ (p *ℤ s) -ℤ (q *ℤ r) }
    ensures bound { unsigned_abs result ≤ 2 ^ 63 }
{
    product(p, s) as i128 - product(q, r) as i128
}

/// A minor times a difference.
pub(crate) fn scaled(m: i128, u: i64) -> i128
    requires m_in { unsigned_abs m ≤ 2 ^ 63 }
    requires u_in { unsigned_abs u ≤ 2 ^ 31 }
    ensures value { result ≡ m *ℤ u }
    ensures bound { unsigned_abs result ≤ 2 ^ 94 }
{
    m * u as i128
}

/// The sum of three such products.
pub(crate) fn total(a: i128, b: i128, c: i128) -> i128
    requires a_in { unsigned_abs a ≤ 2 ^ 94 }
    requires b_in { unsigned_abs b ≤ 2 ^ 94 }
    requires c_in { unsigned_abs c ≤ 2 ^ 94 }
    ensures { result ≡ (a +ℤ b) +ℤ c }
{
    a + b + c
}

/// The sum of three products of differences.
pub(crate) fn short_total(p: i64, q: i64, r: i64) -> i128
    requires p_in { unsigned_abs p ≤ 2 ^ 62 }
    requires q_in { unsigned_abs q ≤ 2 ^ 62 }
    requires r_in { unsigned_abs r ≤ 2 ^ 62 }
    ensures value { result ≡ (p +ℤ q) +ℤ r }
    ensures bound { unsigned_abs result ≤ 3 * 2 ^ 62 }
{
    p as i128 + q as i128 + r as i128
}
