// Letters written out by hand.
use super::*;
use ma_cells::{Ascending, Label};
use ma_geom::Place;
use std::alloc::Global;

/// A `Post` in round 0, phase 0, from part 0 to part 1: one tetrahedron, three places, no marks.
const POST: [u8; 67] = [
    1, 0, 0, 0, 0, 0, 0, 0, 0, 0, 1, 0, 0, 0, 1, 0, 0, 0, 0, 0, 0, 0, 3, 0, 0, 0, 0, 0, 0, 0, 0, 0,
    0, 0, 8, 0, 0, 0, 0, 0, 0, 0, 8, 0, 0, 0, 0, 0, 0, 0, 8, 0, 0, 0, 0, 0, 0, 0, 0, 0, 0, 0, 0, 0,
    0, 0, 0,
];

/// A `Reply`: (0, 0, 8) shared by parts 0 and 1, (0, 8, 0) by 0, 1 and 63; a point with the tag (0, 5), a segment with (0, -5).
const REPLY: [u8; 112] = [
    2, 0, 0, 0, 0, 0, 0, 0, 1, 0, 1, 0, 0, 0, 0, 0, 0, 0, 2, 0, 0, 0, 0, 0, 0, 0, 0, 0, 0, 0, 8, 2,
    0, 1, 0, 0, 0, 0, 0, 0, 0, 8, 0, 0, 0, 0, 3, 0, 1, 63, 0, 0, 0, 0, 0, 0, 0, 2, 0, 0, 0, 0, 0,
    0, 0, 0, 0, 0, 0, 0, 0, 0, 0, 0, 0, 0, 0, 0, 5, 1, 0, 0, 0, 0, 0, 0, 0, 0, 0, 0, 0, 0, 0, 0, 0,
    8, 0, 0, 0, 0, 0, 0, 0, 0, 0, 0, 0, 0, 255, 255, 255, 251,
];

/// `Ghosts`: one tetrahedron with the region (0, 1), and a triangle with the tag (7, 1).
const GHOSTS: [u8; 128] = [
    3, 0, 0, 0, 0, 0, 0, 0, 2, 1, 0, 0, 0, 0, 0, 0, 0, 0, 1, 0, 0, 0, 0, 0, 0, 0, 0, 0, 0, 0, 0, 0,
    0, 0, 0, 0, 0, 0, 0, 0, 0, 0, 8, 0, 0, 0, 0, 0, 0, 0, 8, 0, 0, 0, 0, 0, 0, 0, 8, 0, 0, 0, 0, 0,
    0, 0, 0, 0, 0, 0, 0, 0, 0, 0, 1, 0, 0, 0, 0, 0, 0, 0, 1, 2, 0, 0, 0, 0, 0, 0, 0, 0, 0, 0, 0, 8,
    0, 0, 0, 0, 0, 0, 0, 8, 0, 0, 0, 0, 0, 0, 0, 8, 0, 0, 0, 0, 0, 0, 0, 0, 0, 0, 0, 7, 0, 0, 0, 1,
];

/// A `Propose` of the collapse of (4, 0, 0) to the origin.
const PROPOSE: [u8; 48] = [
    4, 0, 0, 0, 1, 0, 0, 0, 3, 2, 0, 0, 0, 0, 0, 0, 0, 0, 1, 1, 0, 0, 0, 4, 0, 0, 0, 0, 0, 0, 0, 0,
    0, 0, 0, 0, 0, 0, 0, 0, 0, 0, 0, 0, 23, 69, 209, 116,
];

/// A `Vote` for two operations, the one with the greater quality first.
const VOTE: [u8; 89] = [
    5, 0, 0, 0, 1, 0, 0, 0, 4, 0, 2, 0, 0, 0, 0, 0, 0, 0, 2, 2, 0, 0, 0, 0, 0, 0, 0, 0, 0, 0, 0, 0,
    0, 0, 0, 8, 0, 0, 0, 0, 0, 0, 0, 0, 0, 0, 0, 0, 0, 0, 0, 8, 0, 0, 0, 0, 24, 0, 0, 0, 1, 0, 0,
    0, 4, 0, 0, 0, 0, 0, 0, 0, 0, 0, 0, 0, 0, 0, 0, 0, 0, 0, 0, 0, 0, 23, 69, 209, 116,
];

/// An `Order` of a swap at a face.
const ORDER: [u8; 72] = [
    6, 0, 0, 0, 1, 0, 0, 0, 5, 0, 2, 0, 0, 0, 0, 0, 0, 0, 1, 3, 0, 0, 0, 0, 0, 0, 0, 0, 0, 0, 0, 0,
    0, 0, 0, 0, 0, 0, 0, 0, 0, 0, 0, 8, 0, 0, 0, 8, 0, 0, 0, 0, 0, 0, 0, 0, 0, 0, 0, 4, 0, 0, 0, 0,
    0, 0, 0, 0, 0, 0, 0, 1,
];

/// A `Deliver` of nothing.
const DELIVER: [u8; 27] = [
    7, 0, 0, 0, 1, 0, 0, 0, 6, 2, 0, 0, 0, 0, 0, 0, 0, 0, 0, 0, 0, 0, 0, 0, 0, 0, 0,
];

/// Whether the bytes are a letter that is spelled by them again.
fn is_spelled(alloc: Global, bytes: &[u8]) -> bool {
    match decode(alloc, bytes) {
        Ok(letter) => match encode(alloc, &letter) {
            Ok(spelled) => spelled.as_slice() == bytes,
            Err(_) => false,
        },
        Err(_) => false,
    }
}

/// Whether each front of the bytes is too short to be a letter.
fn are_fronts_short(alloc: Global, bytes: &[u8]) -> bool {
    (0..bytes.len()).all(|n| decode(alloc, &bytes[..n]).err() == Some(LetterFault::Short))
}

/// What is wrong with a letter that has other bytes from a place on.
fn fault_with(alloc: Global, bytes: &[u8], at: usize, other: &[u8]) -> Option<LetterFault> {
    let mut changed = Vec::from_slice(alloc, bytes.get(..at)?).ok()?;
    changed.extend_from_slice(other).ok()?;
    let rest = bytes.get(changed.len()..)?;
    changed.extend_from_slice(rest).ok()?;
    decode(alloc, &changed).err()
}

/// Whether the first wrong field stands where the other bytes do.
fn is_wrong(alloc: Global, bytes: &[u8], at: usize, other: &[u8]) -> bool {
    fault_with(alloc, bytes, at, other) == Some(LetterFault::BadField(at as u64))
}

/// What is wrong with a letter and a byte behind it.
fn fault_behind(alloc: Global, bytes: &[u8]) -> Option<LetterFault> {
    let mut longer = Vec::from_slice(alloc, bytes).ok()?;
    longer.push(0).ok()?;
    decode(alloc, &longer).err()
}

#[test]
fn a_letter_of_each_kind_is_read_and_spelled_again(rt: HostRuntime) {
    assert!(rt; is_spelled(rt.alloc(), &POST));
    assert!(rt; is_spelled(rt.alloc(), &REPLY));
    assert!(rt; is_spelled(rt.alloc(), &GHOSTS));
    assert!(rt; is_spelled(rt.alloc(), &PROPOSE));
    assert!(rt; is_spelled(rt.alloc(), &VOTE));
    assert!(rt; is_spelled(rt.alloc(), &ORDER));
    assert!(rt; is_spelled(rt.alloc(), &DELIVER));
}

/// Whether a letter is the `Post` of one tetrahedron at the corners off the origin.
fn is_post(alloc: Global, bytes: &[u8]) -> bool {
    match decode(alloc, bytes) {
        Ok(
            Letter {
                sender: 0,
                target: 1,
                body: Body::Post(post),
                ..
            },
        ) => post.count == 1 && post.places.len() == 3 && post.marks.is_empty(),
        _ => false,
    }
}

#[test]
fn the_fields_of_a_letter_are_told(rt: HostRuntime) {
    assert!(rt; is_post(rt.alloc(), &POST));
}

#[test]
fn a_front_is_too_short_and_a_byte_more_too_long(rt: HostRuntime) {
    assert!(rt; are_fronts_short(rt.alloc(), &POST));
    assert!(rt; are_fronts_short(rt.alloc(), &REPLY));
    assert!(rt; are_fronts_short(rt.alloc(), &GHOSTS));
    assert!(rt; are_fronts_short(rt.alloc(), &VOTE));
    assert!(rt; fault_behind(rt.alloc(), &POST) == Some(LetterFault::Long));
}

#[test]
fn the_first_wrong_field_is_told_by_its_place(rt: HostRuntime) {
    let alloc = rt.alloc();
    assert!(rt; is_wrong(alloc, &POST, 0, &[0]));
    assert!(rt; is_wrong(alloc, &POST, 0, &[8]));
    assert!(rt; is_wrong(alloc, &POST, 23, &[64, 0, 0, 1]));
    assert!(rt; is_wrong(alloc, &REPLY, 31, &[1]));
    assert!(rt; is_wrong(alloc, &REPLY, 31, &[65]));
    assert!(rt; is_wrong(alloc, &REPLY, 33, &[0]));
    assert!(rt; is_wrong(alloc, &REPLY, 34, &[0, 0, 0, 0, 0, 0, 0, 0, 0, 0, 0, 8]));
    assert!(rt; is_wrong(alloc, &REPLY, 58, &[3]));
    assert!(rt; is_wrong(alloc, &GHOSTS, 31, &[0; 12]));
    assert!(rt; is_wrong(alloc, &PROPOSE, 19, &[0]));
    assert!(rt; is_wrong(alloc, &PROPOSE, 19, &[4]));
}

#[test]
fn an_entry_that_is_wrong_as_a_whole_is_told_by_its_first_byte(rt: HostRuntime) {
    let alloc = rt.alloc();
    // The first two places are exchanged.
    let exchanged = [
        0, 0, 0, 0, 0, 0, 0, 8, 0, 0, 0, 0, 0, 0, 0, 0, 0, 0, 0, 0, 0, 0, 0, 8,
    ];
    assert!(rt; fault_with(alloc, &POST, 23, &exchanged) == Some(LetterFault::BadField(35)));
    // The fourth corner lies in the plane of the others.
    let flat = [0, 0, 0, 0, 0, 0, 0, 8, 0, 0, 0, 8];
    assert!(rt; fault_with(alloc, &GHOSTS, 55, &flat) == Some(LetterFault::BadField(19)));
    // The first operation has the lesser quality.
    assert!(rt; fault_with(alloc, &VOTE, 56, &[0; 4]) == Some(LetterFault::BadField(60)));
}

/// Whether a place with these parts is shared.
fn is_shared(alloc: Global, parts: &[Label]) -> bool {
    match Vec::from_slice(alloc, parts) {
        Ok(parts) => match Shared::new(Place::default(), Ascending::gather(parts)) {
            Some(shared) => {
                shared.place() == Place::default()
                    && shared.parts().len() >= 2
                    && are_ascending(&[shared])
            }
            None => false,
        },
        Err(_) => false,
    }
}

#[test]
fn a_place_is_shared_by_two_parts_and_not_by_one(rt: HostRuntime) {
    assert!(rt; is_shared(rt.alloc(), &[3, 1]));
    assert!(rt; !is_shared(rt.alloc(), &[3, 3]));
}
