// Values that were worked out by hand.
use super::*;
use cavity_rank::{Kind, Operation};
use corner_tables::CornerTable;
use ma_cells::{Ascending, Batch, Cell, Mark, Tet};
use ma_geom::{Memory, Place};
use size_marks::SizeField;
use std::alloc::Global;

/// The place with these coordinates.
fn at([x, y, z]: [u16; 3]) -> Place {
    match Place::new(i32::from(x), i32::from(y), i32::from(z)) {
        Some(place) => place,
        None => Place::default(),
    }
}

/// The tetrahedron of an edge from (x, 0, 0) to (y, 0, 0) and one across from it.
fn tet(x: u16, y: u16) -> Tet {
    match Tet::new(
        [at([x, 0, 0]), at([y, 0, 0]), at([0, 12, 0]), at([0, 0, 12])],
        0,
        1,
    ) {
        Some(tet) => tet,
        None => Tet::default(),
    }
}

/// Three tetrahedra along a line, each with the same edge across.
fn three() -> [Tet; 3] {
    [tet(0, 4), tet(4, 8), tet(8, 12)]
}

/// A face with the tag 0 0, or the origin where its corners are no cell.
fn face(a: [u16; 3], b: [u16; 3], c: [u16; 3]) -> Mark {
    match Cell::new(&[at(a), at(b), at(c)]) {
        Some(cell) => Mark::new(cell, 0, 0),
        None => Mark::new(Cell::Point(at([0, 0, 0])), 0, 0),
    }
}

const Y: [u16; 3] = [0, 12, 0];

const Z: [u16; 3] = [0, 0, 12];

/// The faces that one of the three tetrahedra alone has.
fn faces() -> [Mark; 8] {
    let (o, u, v, x) = ([0, 0, 0], [4, 0, 0], [8, 0, 0], [12, 0, 0]);
    [
        face(o, Z, Y),
        face(o, Z, u),
        face(o, Y, u),
        face(Z, u, v),
        face(Y, u, v),
        face(Z, v, x),
        face(Y, v, x),
        face(Z, Y, x),
    ]
}

/// The legal operations of the mesh of these tetrahedra and marks.
fn legal_of(
    alloc: Global,
    kind: Kind,
    tets: &[Tet],
    marks: &[Mark],
    field: &SizeField,
) -> Result<Ascending<Operation>, Memory> {
    let tets = Vec::from_slice(alloc, tets)?;
    let mesh = Batch::gather(tets, Vec::from_slice(alloc, marks)?)?;
    let table = CornerTable::of(alloc, mesh.tets.as_slice())?;
    legal(alloc, kind, &mesh, &table, field)
}

/// Whether an operation is the collapse of (a, 0, 0) to (v, 0, 0) to a quality of a quarter.
fn is_collapse(op: &Operation, a: u16, v: u16) -> bool {
    op.at() == [at([a, 0, 0])].as_slice() && op.apex() == at([v, 0, 0]) && op.worst() == 268435456
}

/// Whether the legal collapses of the three tetrahedra are those of the inner vertices, either way.
fn inner_vertices_may_go(alloc: Global) -> Result<bool, Memory> {
    let field = SizeField::uniform(alloc, 64);
    let ops = legal_of(alloc, Kind::Collapse, &three(), &faces(), &field)?;
    match ops.as_slice() {
        [p, q, r, s] => Ok(
            is_collapse(p, 4, 0)
                && is_collapse(q, 4, 8)
                && is_collapse(r, 8, 4)
                && is_collapse(s, 8, 12),
        ),
        _ => Ok(false),
    }
}

#[test]
fn an_inner_vertex_may_go_either_way_along_its_line(rt: HostRuntime) {
    assert!(rt; inner_vertices_may_go(rt.alloc()) == Ok(true));
}

const A: [u16; 3] = [0, 0, 0];

const B: [u16; 3] = [8, 8, 8];

const R: [u16; 3] = [8, 8, 0];

const S: [u16; 3] = [8, 0, 8];

const T: [u16; 3] = [0, 8, 8];

/// The tetrahedron of the edge from one corner of a cube to the other and two corners around it.
fn tet_between(p: [u16; 3], q: [u16; 3]) -> Tet {
    match Tet::new([at(A), at(B), at(p), at(q)], 0, 1) {
        Some(tet) => tet,
        None => Tet::default(),
    }
}

/// Three tetrahedra around that edge.
fn ring() -> [Tet; 3] {
    [tet_between(T, S), tet_between(T, R), tet_between(S, R)]
}

/// The faces that one tetrahedron of the ring alone has.
fn outer_faces() -> [Mark; 6] {
    [
        face(A, T, S),
        face(T, S, B),
        face(A, T, R),
        face(T, R, B),
        face(A, S, R),
        face(S, R, B),
    ]
}

/// Whether an operation is the swap of the edge to this corner, to the quality of its two halves.
fn is_swap(op: &Operation, v: [u16; 3]) -> bool {
    op.at() == [at(A), at(B)].as_slice() && op.apex() == at(v) && op.worst() == 390451572
}

/// Whether the legal swaps of the ring are those of its edge to each of its corners.
fn edge_may_go(alloc: Global) -> Result<bool, Memory> {
    let field = SizeField::uniform(alloc, 16);
    let ops = legal_of(alloc, Kind::Swap, &ring(), &outer_faces(), &field)?;
    match ops.as_slice() {
        [p, q, r] => Ok(is_swap(p, T) && is_swap(q, S) && is_swap(r, R)),
        _ => Ok(false),
    }
}

#[test]
fn the_edge_in_a_ring_may_be_swapped_to_each_corner_around_it(rt: HostRuntime) {
    assert!(rt; edge_may_go(rt.alloc()) == Ok(true));
}
