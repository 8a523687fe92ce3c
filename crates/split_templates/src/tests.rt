// Values that were worked out by hand.
use super::*;
use arrayvec::ArrayVec;
use ma_cells::Tet;
use ma_geom::{Place, collinear};
use size_marks::SizeField;

/// The place with these coordinates.
fn at([x, y, z]: [i8; 3]) -> Place {
    match Place::new(i32::from(x), i32::from(y), i32::from(z)) {
        Some(place) => place,
        None => Place::default(),
    }
}

/// The tetrahedron with these corners, or the default where they are flat.
fn tet([a, b, c, d]: [[i8; 3]; 4]) -> Tet {
    match Tet::new([at(a), at(b), at(c), at(d)], 0, 1) {
        Some(tet) => tet,
        None => Tet::default(),
    }
}

/// The pieces of a segment whose ends are in order.
fn segments(a: Place, b: Place, mask: u8) -> ArrayVec<[Place; 2], 2> {
    if a < b {
        split_seg([a, b], mask)
    } else {
        ArrayVec::new()
    }
}

/// The pieces of a triangle whose corners aren't on one line.
fn triangles(a: Place, b: Place, c: Place, mask: u8) -> ArrayVec<[Place; 3], 4> {
    if collinear(a, b, c) {
        ArrayVec::new()
    } else {
        split_tri([a, b, c], mask)
    }
}

const O: [i8; 3] = [0, 0, 0];

const Z: [i8; 3] = [0, 0, 8];

const Y: [i8; 3] = [0, 8, 0];

const X: [i8; 3] = [8, 0, 0];

const OZ: [i8; 3] = [0, 0, 4];

const OY: [i8; 3] = [0, 4, 0];

const OX: [i8; 3] = [4, 0, 0];

const ZY: [i8; 3] = [0, 4, 4];

const ZX: [i8; 3] = [4, 0, 4];

const YX: [i8; 3] = [4, 4, 0];

#[test]
fn six_long_edges_give_eight_pieces(rt: HostRuntime) {
    let t = tet([O, Z, Y, X]);
    let mask = marked(&t, &SizeField::uniform(rt.alloc(), 4));
    assert_eq!(rt; mask, 63);
    let pieces = children(&t, mask);
    let wanted = [
        tet([O, OZ, ZX, ZY]),
        tet([O, OY, ZY, YX]),
        tet([O, ZY, OX, ZX]),
        tet([O, ZY, OX, YX]),
        tet([OZ, Z, ZX, ZY]),
        tet([OY, ZY, Y, YX]),
        tet([ZY, OX, ZX, X]),
        tet([ZY, OX, YX, X]),
    ];
    assert_eq!(rt; pieces.as_slice(), wanted.as_slice());
}

#[test]
fn one_marked_edge_gives_two_pieces(rt: HostRuntime) {
    let pieces = children(&tet([O, Z, Y, X]), 1);
    let wanted = [tet([O, OZ, Y, X]), tet([OZ, Z, Y, X])];
    assert_eq!(rt; pieces.as_slice(), wanted.as_slice());
}

#[test]
fn of_two_equal_edges_the_one_with_the_lesser_ends_is_cut_first(rt: HostRuntime) {
    let pieces = children(&tet([O, Z, Y, X]), 3);
    let wanted = [tet([O, OZ, OY, X]), tet([OZ, Z, Y, X]), tet([OZ, OY, Y, X])];
    assert_eq!(rt; pieces.as_slice(), wanted.as_slice());
}

#[test]
fn edges_without_a_whole_midpoint_stay(rt: HostRuntime) {
    let (z, y, x) = ([0, 0, 1], [0, 2, 0], [2, 0, 0]);
    let (oy, ox, yx) = ([0, 1, 0], [1, 0, 0], [1, 1, 0]);
    let pieces = children(&tet([O, z, y, x]), 63);
    let wanted = [
        tet([O, z, oy, yx]),
        tet([O, z, ox, yx]),
        tet([z, oy, y, yx]),
        tet([z, ox, yx, x]),
    ];
    assert_eq!(rt; pieces.as_slice(), wanted.as_slice());
}

#[test]
fn the_midpoint_of_the_lesser_pair_of_ends_is_joined_to_the_corner_across(rt: HostRuntime) {
    let (z, y, x) = (at(Z), at(Y), at(X));
    let (zy, zx, yx) = (at(ZY), at(ZX), at(YX));
    assert_eq!(rt;
        marked_tri([z, y, x], &SizeField::uniform(rt.alloc(), 4)),
        7
    );
    let pieces = triangles(z, y, x, 7);
    let wanted = [[z, zy, zx], [zy, y, yx], [zy, zx, x], [zy, yx, x]];
    assert_eq!(rt; pieces.as_slice(), wanted.as_slice());
}

#[test]
fn a_marked_segment_is_halved_where_its_midpoint_is_whole(rt: HostRuntime) {
    let (o, m, x) = (at(O), at(OX), at(X));
    assert_eq!(rt; marked_seg([o, x], &SizeField::uniform(rt.alloc(), 4)), 1);
    assert_eq!(rt; segments(o, x, 1).as_slice(), [[o, m], [m, x]].as_slice());
    assert_eq!(rt; segments(o, x, 0).as_slice(), [[o, x]].as_slice());
    assert_eq!(rt;
        segments(o, at([7, 0, 0]), 1).as_slice(),
        [[o, at([7, 0, 0])]].as_slice()
    );
}
