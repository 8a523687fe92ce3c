// Values that were worked out by hand.
use super::*;
use ma_cells::{Cell, Mark, Tet};
use ma_geom::{Memory, Place};
use std::alloc::Global;

/// The place with these coordinates.
fn at([x, y, z]: [u16; 3]) -> Place {
    match Place::new(i32::from(x), i32::from(y), i32::from(z)) {
        Some(place) => place,
        None => Place::default(),
    }
}

/// The tetrahedron of an edge from (x, 0, 0) to (y, 0, 0) and one across from it.
fn tet(x: u16, y: u16) -> Tet {
    match Tet::new(
        [at([x, 0, 0]), at([y, 0, 0]), at([0, 12, 0]), at([0, 0, 12])],
        0,
        1,
    ) {
        Some(tet) => tet,
        None => Tet::default(),
    }
}

/// Three tetrahedra along a line, each with the same edge across.
fn three() -> [Tet; 3] {
    [tet(0, 4), tet(4, 8), tet(8, 12)]
}

fn seg(x: u16, y: u16) -> Mark {
    match Cell::new(&[at([x, 0, 0]), at([y, 0, 0])]) {
        Some(cell) => Mark::new(cell, 3, 0),
        None => Mark::new(Cell::Point(at([0, 0, 0])), 3, 0),
    }
}

/// Whether the tetrahedra around an inner place, and those around an edge with it, are told by their
/// positions and as they are.
fn tells_tetrahedra(alloc: Global) -> Result<bool, Memory> {
    let tets = three();
    let table = CornerTable::of(alloc, &tets)?;
    let mut positions = Vec::new(alloc);
    table.at(&tets, &[at([8, 0, 0])], &mut positions)?;
    let around = positions.as_slice() == [1, 2].as_slice();
    table.at(&tets, &[at([4, 0, 0]), at([8, 0, 0])], &mut positions)?;
    let along = positions.as_slice() == [1].as_slice();
    let mut star = Vec::new(alloc);
    table.star(&tets, &[at([4, 0, 0])], &mut star)?;
    Ok(around && along && star.as_slice() == [tet(0, 4), tet(4, 8)].as_slice())
}

#[test]
fn an_inner_place_has_the_tetrahedra_on_both_sides(rt: HostRuntime) {
    assert!(rt; tells_tetrahedra(rt.alloc()) == Ok(true));
}

fn tells_marks(alloc: Global) -> Result<bool, Memory> {
    let marks = [seg(0, 4), seg(4, 8), seg(8, 12)];
    let table = CornerTable::of_marks(alloc, &marks)?;
    let mut there = Vec::new(alloc);
    table.marks_at(&marks, &[at([8, 0, 0])], &mut there)?;
    Ok(there.as_slice() == [seg(4, 8), seg(8, 12)].as_slice())
}

#[test]
fn an_inner_place_has_the_marked_segments_on_both_sides(rt: HostRuntime) {
    assert!(rt; tells_marks(rt.alloc()) == Ok(true));
}
