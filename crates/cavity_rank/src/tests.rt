// Values that were worked out by hand.
use super::*;
use ma_geom::Place;
use std::cmp::Ordering;

/// The place (x, 0, 0).
fn along(x: u8) -> Place {
    match Place::new(i32::from(x), 0, 0) {
        Some(place) => place,
        None => Place::default(),
    }
}

/// How an operation compares with one that takes (4, 0, 0) away, from the origin, with quality 268435456.
fn order(at: &[Place], apex: Place, worst: u32) -> Option<Ordering> {
    let first = Operation::new(at, apex, worst)?;
    let second = Operation::new(&[along(4)], along(0), 268435456)?;
    Some(compare(&first, &second))
}

#[test]
fn the_greater_quality_ranks_first_then_the_lesser_places_then_the_lesser_apex(rt: HostRuntime) {
    assert!(rt; order(&[along(8)], along(12), 268435457) == Some(Ordering::Less));
    assert!(rt; order(&[along(8)], along(0), 268435456) == Some(Ordering::Greater));
    assert!(rt; order(&[along(4), along(8)], along(0), 268435456) == Some(Ordering::Greater));
    assert!(rt; order(&[along(4)], along(8), 268435456) == Some(Ordering::Greater));
    assert!(rt; order(&[along(4)], along(0), 268435456) == Some(Ordering::Equal));
}

#[test]
fn places_that_do_not_ascend_are_no_operation(rt: HostRuntime) {
    let (a, b) = (along(4), along(8));
    assert!(rt; Operation::new(&[], a, 1).is_none());
    assert!(rt; Operation::new(&[b, a], a, 1).is_none());
    assert!(rt; Operation::new(&[a, a], b, 1).is_none());
    assert!(rt; Operation::new(&[a, b, along(9), along(10)], b, 1).is_none());
}

/// Whether an operation has what it was made of.
fn keeps(at: &[Place], apex: Place, worst: u32) -> bool {
    match Operation::new(at, apex, worst) {
        Some(operation) => {
            operation.at() == at && operation.apex() == apex && operation.worst() == worst
        }
        None => false,
    }
}

#[test]
fn an_operation_has_what_it_was_made_of(rt: HostRuntime) {
    assert!(rt; keeps(&[along(4), along(8)], along(0), 7));
}

#[test]
fn a_verdict_is_the_quality_or_the_test_that_fails(rt: HostRuntime) {
    assert_eq!(rt; verdict_of(7, None), Verdict::Legal { worst: 7 });
    assert_eq!(rt; verdict_of(7, Some(3)), Verdict::Illegal(3));
    assert!(rt; Kind::Collapse != Kind::Swap);
}
