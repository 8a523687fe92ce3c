// Whole numbers as words: an optional sign, then digits.
ghost use Rattle.std.specs.Prelude.{◌≡◌, false, true, Some, position, pos, neg_ℤ};
ghost use Rattle.std.specs.List.{list_all, before_first, after_first};
ghost use Rattle.ma_text.specs.Numbers.{digits_of, is_digit, is_point, is_zero, natural_answer, natural_of, signed, signed_answer, value_of, whole_of, with_digit, written};
ghost use Rattle.ma_text.specs.steps.Digits.{within_64_bits};

#[derive(Clone, Copy, Debug, PartialEq, Eq)]
pub enum NumberFault {
    /// The word is empty.
    Empty,
    /// The word is no such number.
    NotWhole,
    /// The number is out of range.
    TooBig,
}

/// The number with one more digit.
fn appended(value: u64, digit: u8) -> Option<u64>
    requires { is_digit digit ≡ true }
    ensures { result ≡ within_64_bits (with_digit value digit) }
{
    value.checked_mul(10)?.checked_add(u64::from(digit - b'0'))
}

/// The number that digits write, where it fits.
fn value_of(digits: &[u8]) -> Option<u64>
    requires { list_all is_digit digits.now ≡ true }
    ensures { result ≡ within_64_bits (value_of digits.now) }
{
    let mut value = 0;
    for digit in digits {
        value = appended(value, *digit)?;
    }
    Some(value)
}

fn all_digits(bytes: &[u8]) -> bool
    ensures { result ≡ list_all is_digit bytes.now }
{
    bytes.iter().all(|byte| byte.is_ascii_digit())
}

/// The number that digits write, without a sign. Never [`NumberFault::Empty`].
pub fn magnitude(digits: &[u8]) -> Result<u64, NumberFault>
    ensures { result ≡ natural_answer (signed false digits.now) }
{
    if digits.is_empty() || !all_digits(digits) {
        return Err(NumberFault::NotWhole);
    }
    value_of(digits).ok_or(NumberFault::TooBig)
}

fn positive(magnitude: u64) -> Result<i64, NumberFault>
    ensures { result ≡ signed_answer (Some (pos magnitude)) }
{
    i64::try_from(magnitude).ok().ok_or(NumberFault::TooBig)
}

fn negative(magnitude: u64) -> Result<i64, NumberFault>
    ensures { result ≡ signed_answer (Some (neg_ℤ (pos magnitude))) }
{
    0i64.checked_sub_unsigned(magnitude)
        .ok_or(NumberFault::TooBig)
}

/// The number that digits write behind a sign. Never [`NumberFault::Empty`].
fn signed(is_negative: bool, digits: &[u8]) -> Result<i64, NumberFault>
    ensures { result ≡ signed_answer (signed is_negative digits.now) }
{
    let magnitude = magnitude(digits)?;
    if is_negative {
        negative(magnitude)
    } else {
        positive(magnitude)
    }
}

/// The number that digits write behind a minus, which is none but zero.
fn zero(digits: &[u8]) -> Result<u64, NumberFault>
    ensures { result ≡ natural_answer (signed true digits.now) }
{
    match magnitude(digits) {
        Ok(0) => Ok(0),
        _ => Err(NumberFault::NotWhole),
    }
}

/// The number that an optional sign and digits write. Never [`NumberFault::Empty`].
#[tactic(auto, unfolding(crate::specs::Numbers::written))]
fn written(word: &[u8]) -> Result<i64, NumberFault>
    ensures { result ≡ signed_answer (written word.now) }
{
    match word {
        [b'+', digits @ ..] => signed(false, digits),
        [b'-', digits @ ..] => signed(true, digits),
        digits => signed(false, digits),
    }
}

/// The same without a sign. Never [`NumberFault::Empty`].
#[tactic(auto, unfolding(crate::specs::Numbers::written))]
fn written_natural(word: &[u8]) -> Result<u64, NumberFault>
    ensures { result ≡ natural_answer (written word.now) }
{
    match word {
        [b'+', digits @ ..] => magnitude(digits),
        [b'-', digits @ ..] => zero(digits),
        digits => magnitude(digits),
    }
}

fn point(word: &[u8]) -> Option<usize>
    ensures { result ≡ position is_point word.now }
{
    word.iter().position(|byte| *byte == b'.')
}

/// What stands in front of the first point, and what behind it.
fn cut_at_point(word: &[u8]) -> (&[u8], &[u8])
    ensures front { result.0.now ≡ before_first is_point word.now }
    ensures behind { result.1.now ≡ after_first is_point word.now }
{
    match point(word) {
        None => (word, &[]),
        Some(end) => (&word[..end], &word[end + 1..]),
    }
}

fn are_zeros(bytes: &[u8]) -> bool
    ensures { result ≡ list_all is_zero bytes.now }
{
    bytes.iter().all(|byte| *byte == b'0')
}

/// The number that a sign or none and digits write.
#[tactic(auto, unfolding(crate::specs::Numbers::digits_of))]
pub fn digits(word: &[u8]) -> Result<i64, NumberFault>
    ensures { result ≡ digits_of word.now }
{
    if word.is_empty() {
        return Err(NumberFault::Empty);
    }
    written(word)
}

/// The same, where a point may stand behind the digits, and zeros behind it, as in `12.000`.
#[tactic(auto, unfolding(crate::specs::Numbers::whole_of, crate::specs::Numbers::written_whole))]
pub fn whole(word: &[u8]) -> Result<i64, NumberFault>
    ensures { result ≡ whole_of word.now }
{
    if word.is_empty() {
        return Err(NumberFault::Empty);
    }
    let (front, behind) = cut_at_point(word);
    if !are_zeros(behind) {
        return Err(NumberFault::NotWhole);
    }
    written(front)
}

/// The number that a sign or none and digits write, where it isn't negative: a negative one is
/// [`NumberFault::NotWhole`].
#[tactic(auto, unfolding(crate::specs::Numbers::natural_of))]
pub fn natural(word: &[u8]) -> Result<u64, NumberFault>
    ensures { result ≡ natural_of word.now }
{
    if word.is_empty() {
        return Err(NumberFault::Empty);
    }
    written_natural(word)
}
