// Tetrahedra that were worked out by hand.
use super::*;
use ma_cells::Tet;
use ma_geom::{Memory, Place};
use std::alloc::Global;
use std::test::Fail;

/// The coordinates of four corners.
type Corners = [[i8; 3]; 4];

/// The origin and the places at 8 on the axes.
const BASE: Corners = [[0, 0, 0], [8, 0, 0], [0, 8, 0], [0, 0, 8]];

/// The base, moved by one along each axis.
const MOVED: Corners = [[1, 1, 1], [9, 1, 1], [1, 9, 1], [1, 1, 9]];

/// What shares a face with the base.
const ACROSS: Corners = [[8, 0, 0], [0, 8, 0], [0, 0, 8], [8, 8, 8]];

fn place(coordinates: [i8; 3]) -> Place {
    let [x, y, z] = coordinates;
    match Place::new(i32::from(x), i32::from(y), i32::from(z)) {
        Some(place) => place,
        None => unreachable!(),
    }
}

/// The tetrahedron with these corners, or the default one where they are flat.
fn tet(corners: Corners) -> Tet {
    let [a, b, c, d] = corners;
    Tet::new([place(a), place(b), place(c), place(d)], 0, 1).unwrap_or_default()
}

/// Whether they are separated, if the answer is the same either way round.
fn apart(a: Corners, b: Corners) -> Option<bool> {
    let (a, b) = (tet(a), tet(b));
    let answer = separated(&a, &b);
    if answer == separated(&b, &a) {
        Some(answer)
    } else {
        None
    }
}

fn first(alloc: Global, shapes: &[Corners]) -> Result<Option<(usize, usize)>, Memory> {
    let mut tets = Vec::new(alloc);
    for shape in shapes {
        tets.push(tet(*shape))?;
    }
    first_overlap(alloc, tets.as_slice())
}

#[test]
fn tetrahedra_that_share_inner_points_overlap(rt: HostRuntime) {
    assert_eq!(rt; apart(BASE, MOVED), Some(false));
    assert_eq!(rt; apart(BASE, BASE), Some(false));
    let large = [[0, 0, 0], [32, 0, 0], [0, 32, 0], [0, 0, 32]];
    let within = [[2, 2, 2], [6, 2, 2], [2, 6, 2], [2, 2, 6]];
    assert_eq!(rt; apart(large, within), Some(false));
    let along_x = [[-8, -1, 0], [-8, 1, 0], [8, 0, -1], [8, 0, 1]];
    let along_y = [[-1, -8, 0], [1, -8, 0], [0, 8, -1], [0, 8, 1]];
    assert_eq!(rt; apart(along_x, along_y), Some(false));
}

#[test]
fn tetrahedra_that_touch_are_separated(rt: HostRuntime) {
    assert_eq!(rt; apart(BASE, ACROSS), Some(true));
    let at_an_edge = [[0, 0, 0], [8, 0, 0], [0, -8, 0], [0, 0, -8]];
    assert_eq!(rt; apart(BASE, at_an_edge), Some(true));
    let at_a_corner = [[0, 0, 0], [-8, 0, 0], [0, -8, 0], [0, 0, -8]];
    assert_eq!(rt; apart(BASE, at_a_corner), Some(true));
}

#[test]
fn two_edges_alone_can_separate_tetrahedra(rt: HostRuntime) {
    let one = [[-2, -2, -2], [-1, 1, -2], [0, 0, 1], [0, 2, -2]];
    let other = [[-1, -1, 0], [1, -1, -2], [2, -1, -1], [2, 0, -2]];
    assert_eq!(rt; apart(one, other), Some(true));
}

#[test]
fn a_sliver_in_common_is_an_overlap(rt: HostRuntime) {
    let lower = [[0, 0, 0], [120, 0, 0], [0, 120, 0], [0, 0, -120]];
    let dipping = [[0, 0, 0], [120, 0, 0], [1, 118, -1], [0, 0, 120]];
    let level = [[0, 0, 0], [120, 0, 0], [1, 118, 0], [0, 0, 120]];
    assert_eq!(rt; apart(lower, dipping), Some(false));
    assert_eq!(rt; apart(lower, level), Some(true));
}

#[test]
fn the_least_pair_is_found(rt: HostRuntime) -> Result<(), Fail> {
    let far = [[20, 0, 0], [28, 0, 0], [20, 8, 0], [20, 0, 8]];
    let near_far = [[21, 1, 1], [29, 1, 1], [21, 9, 1], [21, 1, 9]];
    let two = first(rt.alloc(), &[BASE, MOVED])?;
    let both = first(rt.alloc(), &[far, ACROSS, BASE, near_far, MOVED])?;
    let late = first(rt.alloc(), &[BASE, ACROSS, far, near_far])?;
    assert_eq!(rt; two, Some((0, 1)));
    assert_eq!(rt; both, Some((0, 3)));
    assert_eq!(rt; late, Some((2, 3)));
    Ok(())
}

#[test]
fn a_mesh_with_a_crack_has_no_overlap(rt: HostRuntime) -> Result<(), Fail> {
    let left = [[0, 0, 0], [4, 0, 0], [0, 8, 0], [0, 0, -8]];
    let right = [[4, 0, 0], [8, 0, 0], [0, 8, 0], [0, 0, -8]];
    let crack = first(rt.alloc(), &[BASE, left, right])?;
    let face = first(rt.alloc(), &[BASE, ACROSS])?;
    let empty = first(rt.alloc(), &[])?;
    assert_eq!(rt; crack, None);
    assert_eq!(rt; face, None);
    assert_eq!(rt; empty, None);
    Ok(())
}
