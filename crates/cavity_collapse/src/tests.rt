// Values that were worked out by hand.
use super::*;
use cavity_rank::Verdict;
use ma_cells::{Cell, Mark, Tet};
use ma_geom::Place;
use size_marks::SizeField;
use std::test::Fail;

/// The place with these coordinates.
fn at([x, y, z]: [i16; 3]) -> Place {
    match Place::new(i32::from(x), i32::from(y), i32::from(z)) {
        Some(place) => place,
        None => Place::default(),
    }
}

/// The tetrahedron with these corners, or the default where they are flat.
fn tet([a, b, c, d]: [[i16; 3]; 4]) -> Tet {
    match Tet::new([at(a), at(b), at(c), at(d)], 0, 1) {
        Some(tet) => tet,
        None => Tet::default(),
    }
}

/// A mark with the tag 0 5 on the cell with these corners, or on the origin where they are no cell.
fn mark(corners: &[Place]) -> Mark {
    match Cell::new(corners) {
        Some(cell) => Mark::new(cell, 0, 5),
        None => Mark::new(Cell::Point(at(O)), 0, 5),
    }
}

fn line(a: [i16; 3], b: [i16; 3]) -> Mark {
    mark(&[at(a), at(b)])
}

fn face(a: [i16; 3], b: [i16; 3], c: [i16; 3]) -> Mark {
    mark(&[at(a), at(b), at(c)])
}

/// The verdict on a collapse of `a` to `v`, if memory is found.
fn verdict(
    field: &SizeField,
    star: &[Tet],
    marks: &[Mark],
    a: [i16; 3],
    v: [i16; 3],
) -> Option<Verdict> {
    judge(star, marks, at(a), at(v), field).ok()
}

const O: [i16; 3] = [0, 0, 0];

const Z: [i16; 3] = [0, 0, 8];

const Y: [i16; 3] = [0, 8, 0];

const U: [i16; 3] = [4, 0, 0];

const X: [i16; 3] = [8, 0, 0];

/// The two tetrahedra at the middle U of the edge from O to X.
fn star() -> [Tet; 2] {
    [tet([O, Z, Y, U]), tet([Z, Y, U, X])]
}

#[test]
fn a_vertex_goes_along_its_line_and_stays_where_it_is_marked(rt: HostRuntime) {
    let (field, star) = (SizeField::uniform(rt.alloc(), 64), star());
    let lines = [line(O, U), line(U, X)];
    let legal = Some(Verdict::Legal { worst: 390451572 });
    assert_eq!(rt; verdict(&field, &star, &lines, U, O), legal);
    let marked = [mark(&[at(U)]), line(O, U), line(U, X)];
    assert_eq!(rt;
        verdict(&field, &star, &marked, U, O),
        Some(Verdict::Illegal(2))
    );
    assert_eq!(rt;
        verdict(&field, &star, &[line(O, U)], U, O),
        Some(Verdict::Illegal(3))
    );
    let small = SizeField::uniform(rt.alloc(), 4);
    assert_eq!(rt;
        verdict(&small, &star, &lines, U, O),
        Some(Verdict::Illegal(1))
    );
}

#[test]
fn a_vertex_goes_along_its_crease_and_not_across_it(rt: HostRuntime) {
    let (field, star) = (SizeField::uniform(rt.alloc(), 64), star());
    let bottom = [face(O, Z, U), face(Z, U, X)];
    let legal = Some(Verdict::Legal { worst: 390451572 });
    assert_eq!(rt; verdict(&field, &star, &bottom, U, X), legal);
    assert_eq!(rt;
        verdict(&field, &star, &bottom, U, Y),
        Some(Verdict::Illegal(4))
    );
    assert_eq!(rt;
        verdict(&field, &star, &[face(O, Z, U)], U, X),
        Some(Verdict::Illegal(5))
    );
}

#[test]
fn a_face_is_not_passed_and_no_edge_gets_long_and_no_needle_worse(rt: HostRuntime) {
    let (o, a, v, w) = ([0, 0, 8], [8, 0, 8], [16, 0, 8], [8, 8, 16]);
    let hidden = [
        tet([o, [0, 16, 16], X, a]),
        tet([o, [0, 16, 16], a, w]),
        tet([[0, 16, 16], X, a, w]),
        tet([X, a, w, v]),
    ];
    let field = SizeField::uniform(rt.alloc(), 32);
    assert_eq!(rt;
        verdict(&field, &hidden, &[], a, v),
        Some(Verdict::Illegal(7))
    );
    let stretched = [tet([O, U, Y, Z]), tet([U, [64, 0, 0], Y, Z])];
    let field = SizeField::uniform(rt.alloc(), 16);
    assert_eq!(rt;
        verdict(&field, &stretched, &[], U, O),
        Some(Verdict::Illegal(8))
    );
    let (m, p, q, end) = ([512, 0, 0], [512, 8, 0], [512, 0, 8], [1024, 0, 0]);
    let needles = [tet([O, m, p, q]), tet([m, end, p, q])];
    let field = SizeField::uniform(rt.alloc(), 10000);
    assert_eq!(rt;
        verdict(&field, &needles, &[], m, end),
        Some(Verdict::Illegal(9))
    );
}

#[test]
fn the_known_quality_of_a_star_gives_the_same_verdict(rt: HostRuntime) {
    let (field, star) = (SizeField::uniform(rt.alloc(), 64), star());
    let (u, x, y) = (at(U), at(X), at(Y));
    let old = worst(&star);
    assert_eq!(rt;
        judge_with(&star, &[], u, x, &field, old),
        Verdict::Legal { worst: 390451572 }
    );
    assert_eq!(rt; legal_with(&star, &[], u, x, &field, old), Some(390451572));
    assert!(rt; legal_with(&star, &[face(O, Z, U)], u, y, &field, old).is_none());
}

#[test]
fn what_holds_both_falls_away_and_what_lacks_the_vertex_stays(rt: HostRuntime) -> Result<(), Fail> {
    let marks = [line(O, Z), line(O, U), line(U, X)];
    let left = result(rt.alloc(), &star(), &marks, at(U), at(O))?;
    assert_eq!(rt; left.tets.as_slice(), [tet([O, Z, Y, X])].as_slice());
    assert_eq!(rt; left.marks.as_slice(), [line(O, Z), line(O, X)].as_slice());
    Ok(())
}
