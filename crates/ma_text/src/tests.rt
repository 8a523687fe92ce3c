// Lines, words and numbers that were worked out by hand.
use super::*;
use std::test::Fail;

/// Whether these lines are taken, with these numbers, and the end has this number before and after.
fn has_lines(bytes: &[u8], lines: &[(u64, &[u8])], end: u64) -> bool {
    let mut taken = Lines::new(bytes);
    if taken.end_number() != end {
        return false;
    }
    for (number, line) in lines {
        let Some(next) = taken.next_line() else {
            return false;
        };
        if next.number != *number || next.bytes != *line {
            return false;
        }
    }
    taken.next_line().is_none() && taken.end_number() == end
}

#[test]
fn lines_come_with_their_numbers(rt: HostRuntime) {
    assert!(rt; has_lines(b"a\r\n\n b\n\tc", &[(1, b"a"), (3, b" b"), (4, b"\tc")], 5));
    assert!(rt;
        has_lines(
            b" \t\r\nx y\r\r\n\n \nz\n\r",
            &[(2, b"x y\r"), (5, b"z"), (6, b"\r")],
            7
        )
    );
    assert!(rt; has_lines(b"", &[], 1));
}

/// Whether these are the words.
fn has_words(line: &[u8], words: &[&[u8]]) -> bool {
    let mut rest = line;
    for word in words {
        if next_word(&mut rest) != Some(*word) {
            return false;
        }
    }
    next_word(&mut rest).is_none() && rest.is_empty()
}

#[test]
fn words_stand_between_spaces_and_tabs(rt: HostRuntime) {
    assert!(rt; has_words(b" \tone  2.0\t-3 ", &[b"one", b"2.0", b"-3"]));
    assert!(rt; has_words(b" \t ", &[]));
}

#[test]
fn digits_may_have_a_sign(rt: HostRuntime) {
    assert!(rt; digits(b"+5") == Ok(5));
    assert!(rt; digits(b"000000000000000000000000000012") == Ok(12));
    assert!(rt; digits(b"9223372036854775807") == Ok(i64::MAX));
    assert!(rt; digits(b"-9223372036854775808") == Ok(i64::MIN));
    assert!(rt; digits(b"9223372036854775808") == Err(NumberFault::TooBig));
    assert!(rt; digits(b"-9223372036854775809") == Err(NumberFault::TooBig));
    assert!(rt; digits(b"") == Err(NumberFault::Empty));
    for word in [b"+".as_slice(), b"1.0", b"+-1", b"1e3", b" 1", b"0x1"] {
        assert!(rt; digits(word) == Err(NumberFault::NotWhole));
    }
}

#[test]
fn whole_numbers_may_have_zeros_behind_a_point(rt: HostRuntime) {
    assert!(rt; whole(b"12.") == Ok(12));
    assert!(rt; whole(b"-12.000") == Ok(-12));
    assert!(rt; whole(b"9223372036854775808.0") == Err(NumberFault::TooBig));
    for word in [b"12.5".as_slice(), b"1.0e3", b".", b"-.0", b"1.0.0"] {
        assert!(rt; whole(word) == Err(NumberFault::NotWhole));
    }
}

#[test]
fn natural_numbers_are_not_negative(rt: HostRuntime) {
    assert!(rt; natural(b"-0") == Ok(0));
    assert!(rt; natural(b"18446744073709551615") == Ok(u64::MAX));
    assert!(rt; natural(b"18446744073709551616") == Err(NumberFault::TooBig));
    assert!(rt; natural(b"-18446744073709551616") == Err(NumberFault::NotWhole));
    assert!(rt; magnitude(b"120") == Ok(120));
    assert!(rt; magnitude(b"+120") == Err(NumberFault::NotWhole));
}

#[test]
fn numbers_are_written_at_the_end(rt: HostRuntime) -> Result<(), Fail> {
    let mut out = Vec::new(rt.alloc());
    put_number(&mut out, i64::MIN)?;
    put_number(&mut out, 120)?;
    assert!(rt; out.as_slice() == b"-9223372036854775808120".as_slice());
    Ok(())
}
