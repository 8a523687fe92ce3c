// Values that were worked out by hand.
use super::*;
use cavity_rank::Verdict;
use ma_cells::{Cell, Mark, Tet};
use ma_geom::{Memory, Place};
use std::alloc::Global;
use std::test::Fail;

/// The place with these coordinates.
fn at([x, y, z]: [i16; 3]) -> Place {
    match Place::new(i32::from(x), i32::from(y), i32::from(z)) {
        Some(place) => place,
        None => Place::default(),
    }
}

/// The tetrahedron with these corners, or the default where they are flat.
fn tet([a, b, c, d]: [[i16; 3]; 4]) -> Tet {
    match Tet::new([at(a), at(b), at(c), at(d)], 0, 1) {
        Some(tet) => tet,
        None => Tet::default(),
    }
}

/// A mark on the triangle with these corners, or on the origin where they are no triangle.
fn face(a: [i16; 3], b: [i16; 3], c: [i16; 3]) -> Mark {
    match Cell::new(&[at(a), at(b), at(c)]) {
        Some(cell) => Mark::new(cell, 0, 5),
        None => Mark::new(Cell::Point(at(O)), 0, 5),
    }
}

const O: [i16; 3] = [0, 0, 0];

const T: [i16; 3] = [0, 8, 8];

const S: [i16; 3] = [8, 0, 8];

const R: [i16; 3] = [8, 8, 0];

const B: [i16; 3] = [8, 8, 8];

/// Three tetrahedra around the edge from O to B, of which one is listed twice.
fn around() -> [Tet; 4] {
    [
        tet([O, R, S, B]),
        tet([O, S, T, B]),
        tet([O, T, R, B]),
        tet([O, R, S, B]),
    ]
}

/// The verdict on a swap of the edge from O to B, if there is a ring around it.
fn verdict(star: &[Tet], v: [i16; 3], marks: &[Mark]) -> Option<Verdict> {
    match ring_around(star, at(B), at(O)) {
        Some(ring) => judge_ring(star, &ring, at(v), marks).ok(),
        None => None,
    }
}

/// Whether the ring around the edge from O to B has these corners.
fn has_ring(star: &[Tet], corners: &[Place]) -> bool {
    match ring_of(star, at(B), at(O)) {
        Ok(Some(ring)) => ring.ends() == [at(O), at(B)] && ring.corners() == corners,
        _ => false,
    }
}

#[test]
fn a_ring_goes_from_the_least_corner_to_its_lesser_neighbour(rt: HostRuntime) {
    assert!(rt; has_ring(&around(), &[at(T), at(S), at(R)]));
    let open = [tet([O, R, S, B]), tet([O, S, T, B])];
    assert!(rt; ring_around(&open, at(O), at(B)).is_none());
}

#[test]
fn an_edge_is_swapped_to_the_face_around_it_but_not_with_a_mark_inside(rt: HostRuntime) {
    let legal = Some(Verdict::Legal { worst: 390451572 });
    assert_eq!(rt; verdict(&around(), T, &[face(O, T, S)]), legal);
    assert_eq!(rt;
        verdict(&around(), T, &[face(O, T, B)]),
        Some(Verdict::Illegal(2))
    );
}

#[test]
fn a_face_is_not_swapped_past_a_side(rt: HostRuntime) {
    let pair = [tet([O, S, R, B]), tet([O, T, R, B])];
    assert_eq!(rt;
        judge_pair(&pair, at(S), &[]).ok(),
        Some(Verdict::Illegal(3))
    );
}

#[test]
fn the_known_quality_of_a_cavity_gives_the_same_verdict(rt: HostRuntime) {
    let cavity = [tet([O, S, T, B]), tet([O, R, T, B]), tet([O, R, S, B])];
    let (edge, t) = ([at(O), at(B)], at(T));
    let old = cavity_collapse::worst(&cavity);
    assert!(rt; old == 220254733);
    assert_eq!(rt;
        judge_with(&cavity, &[], &edge, t, old),
        Verdict::Legal { worst: 390451572 }
    );
    assert!(rt; may_be_taken(&cavity, &[], &edge, old));
    assert!(rt; !may_be_taken(&cavity, &[face(O, T, B)], &edge, old));
}

/// The quality of what fills the place of three tetrahedra from T and from the origin, by the faces that one of them alone has.
fn qualities_from(alloc: Global) -> Result<[Option<u32>; 2], Memory> {
    let cavity = [tet([O, S, T, B]), tet([O, R, T, B]), tet([O, R, S, B])];
    let mut outer = Vec::new(alloc);
    find_outer(&mut outer, &cavity)?;
    let faces = outer.as_slice();
    let old = cavity_collapse::worst(&cavity);
    Ok([
        quality_from(&cavity, faces, at(T), old),
        quality_from(&cavity, faces, at(O), old),
    ])
}

#[test]
fn from_a_corner_of_the_ring_the_place_is_filled_better(rt: HostRuntime) {
    assert!(rt; qualities_from(rt.alloc()) == Ok([Some(390451572), None]));
}

#[test]
fn two_tetrahedra_fill_the_place_of_three(rt: HostRuntime) -> Result<(), Fail> {
    let left = result(rt.alloc(), &around(), at(T))?;
    assert_eq!(rt;
        left.as_slice(),
        [tet([O, T, S, R]), tet([T, S, R, B])].as_slice()
    );
    Ok(())
}
