// Orders of letters that were worked out by hand.
use super::*;
use std::alloc::Global;
use std::test::Fail;

/// A queue whose posts and takes of these numbers fail.
fn queue(alloc: Global, posts: &[u64], takes: &[u64]) -> Result<QueueCarrier, Fail> {
    Ok(QueueCarrier::new(
        alloc,
        Vec::from_slice(alloc, posts)?,
        Vec::from_slice(alloc, takes)?,
    ))
}

/// Posts each of these bytes as a letter of two, and tells how many posts failed.
fn post_all<C: Carrier>(alloc: Global, carrier: &mut C, letters: &[u8]) -> Result<u8, Fail> {
    let mut failed: u8 = 0;
    for letter in letters {
        let mut bytes = Vec::from_slice(alloc, b".")?;
        bytes.push(*letter)?;
        match carrier.post(bytes) {
            Ok(()) => {}
            Err(_) => failed = failed.saturating_add(1),
        }
    }
    Ok(failed)
}

/// The letters that these picks take, one behind the other, with `-` where there is none and `!`
/// where the take fails.
fn taken<C: Carrier>(alloc: Global, carrier: &mut C, picks: &[u64]) -> Result<Vec<u8>, Fail> {
    let mut letters = Vec::new(alloc);
    for pick in picks {
        match carrier.take(*pick) {
            Ok(Some(bytes)) => letters.extend_from_slice(&bytes)?,
            Ok(None) => letters.push(b'-')?,
            Err(_) => letters.push(b'!')?,
        }
    }
    Ok(letters)
}

#[test]
fn picks_go_round_and_count_from_the_oldest(rt: HostRuntime) -> Result<(), Fail> {
    let mut carrier = queue(rt.alloc(), &[], &[])?;
    assert_eq!(rt; post_all(rt.alloc(), &mut carrier, b"abc")?, 0);
    assert_eq!(rt; carrier.waiting(), 3);
    let letters = taken(rt.alloc(), &mut carrier, &[4, u64::MAX, 0, 0])?;
    assert!(rt; letters.as_slice() == b".b.c.a-".as_slice());
    Ok(())
}

#[test]
fn calls_that_fail_change_no_letter(rt: HostRuntime) -> Result<(), Fail> {
    let mut carrier = queue(rt.alloc(), &[2], &[1, 3])?;
    assert_eq!(rt; post_all(rt.alloc(), &mut carrier, b"abc")?, 1);
    let letters = taken(rt.alloc(), &mut carrier, &[0, 1, 0, 0])?;
    assert!(rt; letters.as_slice() == b"!.c!.a".as_slice());
    Ok(())
}

/// What is handed out of three letters of which the second is altered.
fn altered(alloc: Global, change: Change) -> Result<Vec<u8>, Fail> {
    let mut carrier = TestCarrier::new(queue(alloc, &[], &[])?, 2, change);
    let _none_failed = post_all(alloc, &mut carrier, b"abc")?;
    taken(alloc, &mut carrier, &[0, 0, 0])
}

#[test]
fn one_letter_is_altered_and_no_other(rt: HostRuntime) -> Result<(), Fail> {
    let within = Change::Byte { place: 1, value: 7 };
    let past = Change::Byte { place: 2, value: 7 };
    assert!(rt; altered(rt.alloc(), Change::Lose)?.as_slice() == b".a.c-".as_slice());
    assert!(rt; altered(rt.alloc(), Change::Cut)?.as_slice() == b".a..c".as_slice());
    assert!(rt; altered(rt.alloc(), within)?.as_slice() == b".a.\x07.c".as_slice());
    assert!(rt; altered(rt.alloc(), past)?.as_slice() == b".a.b.c".as_slice());
    Ok(())
}

#[test]
fn a_schedule_gives_its_picks_and_then_zero(rt: HostRuntime) -> Result<(), Fail> {
    let mut schedule = Schedule::new(Vec::from_slice(rt.alloc(), &[5, 9])?);
    assert_eq!(rt; schedule.next_pick(), 5);
    assert_eq!(rt; schedule.next_pick(), 9);
    assert_eq!(rt; schedule.next_pick(), 0);
    assert_eq!(rt; schedule.next_pick(), 0);
    Ok(())
}
