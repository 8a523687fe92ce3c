// Values that were worked out by hand.
use super::*;
use cavity_rank::{Kind, Operation};
use corner_tables::CornerTable;
use ma_cells::{Ascending, Batch, Cell, Mark, Tet};
use ma_geom::{Memory, Place};
use size_marks::SizeField;
use std::alloc::Global;

/// The place with these coordinates.
fn at([x, y, z]: [u16; 3]) -> Place {
    match Place::new(i32::from(x), i32::from(y), i32::from(z)) {
        Some(place) => place,
        None => Place::default(),
    }
}

/// The tetrahedron of an edge from (x, 0, 0) to (y, 0, 0) and one across from it.
fn tet(x: u16, y: u16) -> Tet {
    match Tet::new(
        [at([x, 0, 0]), at([y, 0, 0]), at([0, 12, 0]), at([0, 0, 12])],
        0,
        1,
    ) {
        Some(tet) => tet,
        None => Tet::default(),
    }
}

/// Three tetrahedra along a line, each with the same edge across.
fn three() -> [Tet; 3] {
    [tet(0, 4), tet(4, 8), tet(8, 12)]
}

/// Collapses of (a, 0, 0) to (v, 0, 0) with this least quality, each given by a, v and that.
fn collapses(alloc: Global, moves: &[[u16; 3]]) -> Result<Vec<Operation>, Memory> {
    let mut ops = Vec::new(alloc);
    for [a, v, worst] in moves {
        if let Some(op) = Operation::new(&[at([*a, 0, 0])], at([*v, 0, 0]), u32::from(*worst)) {
            ops.push(op)?;
        }
    }
    Ok(ops)
}

/// Whether those of the collapses win that are expected to.
fn win(alloc: Global, moves: &[[u16; 3]], expected: &[[u16; 3]]) -> Result<bool, Memory> {
    let ops = Ascending::gather(collapses(alloc, moves)?);
    let won = winners(alloc, &ops, &three())?;
    Ok(won.as_slice() == collapses(alloc, expected)?.as_slice())
}

#[test]
fn of_those_that_share_a_tetrahedron_the_first_in_rank_wins(rt: HostRuntime) {
    let moves = [[8, 12, 7], [8, 4, 7], [4, 8, 7], [4, 0, 7]];
    assert!(rt; win(rt.alloc(), &moves, &[[4, 0, 7]]) == Ok(true));
    assert!(rt; win(rt.alloc(), &[[4, 0, 7], [8, 12, 8]], &[[8, 12, 8]]) == Ok(true));
}

#[test]
fn one_that_does_not_win_is_in_the_way_of_others(rt: HostRuntime) {
    let moves = [[8, 4, 9], [4, 0, 8], [0, 4, 7]];
    assert!(rt; win(rt.alloc(), &moves, &[[8, 4, 9]]) == Ok(true));
    assert!(rt;
        win(
            rt.alloc(),
            &[[12, 8, 9], [0, 4, 7]],
            &[[12, 8, 9], [0, 4, 7]]
        ) == Ok(true)
    );
}

const Y: [u16; 3] = [0, 12, 0];

const Z: [u16; 3] = [0, 0, 12];

/// A mark with the tag 0 0, or one on the origin where the corners are no cell.
fn mark(corners: &[Place]) -> Mark {
    match Cell::new(corners) {
        Some(cell) => Mark::new(cell, 0, 0),
        None => Mark::new(Cell::Point(at([0, 0, 0])), 0, 0),
    }
}

fn face(a: [u16; 3], b: [u16; 3], c: [u16; 3]) -> Mark {
    mark(&[at(a), at(b), at(c)])
}

/// The faces that one of the three tetrahedra alone has.
fn faces_of_three() -> [Mark; 8] {
    let (o, u, v, x) = ([0, 0, 0], [4, 0, 0], [8, 0, 0], [12, 0, 0]);
    [
        face(o, Z, Y),
        face(o, Z, u),
        face(o, Y, u),
        face(Z, u, v),
        face(Y, u, v),
        face(Z, v, x),
        face(Y, v, x),
        face(Z, Y, x),
    ]
}

/// The same once (4, 0, 0) is collapsed to the origin.
fn faces_of_two() -> [Mark; 6] {
    let (o, v, x) = ([0, 0, 0], [8, 0, 0], [12, 0, 0]);
    [
        face(o, Z, Y),
        face(o, Z, v),
        face(o, Y, v),
        face(Z, v, x),
        face(Y, v, x),
        face(Z, Y, x),
    ]
}

fn mesh(alloc: Global, tets: &[Tet], marks: &[Mark]) -> Result<Batch, Memory> {
    let mut all_tets = Vec::new(alloc);
    all_tets.extend_from_slice(tets)?;
    let mut all_marks = Vec::new(alloc);
    all_marks.extend_from_slice(marks)?;
    Batch::gather(all_tets, all_marks)
}

fn are_same(one: &Batch, other: &Batch) -> bool {
    one.tets.as_slice() == other.tets.as_slice() && one.marks.as_slice() == other.marks.as_slice()
}

/// Whether operations make the one mesh of the other.
fn leave(alloc: Global, ops: &[Operation], old: &Batch, new: &Batch) -> Result<bool, Memory> {
    let table = CornerTable::of(alloc, old.tets.as_slice())?;
    let left = applied(alloc, old, &table, ops)?;
    Ok(are_same(&left, new))
}

/// The three tetrahedra along a line, with their faces marked.
fn along(alloc: Global) -> Result<Batch, Memory> {
    mesh(alloc, &three(), &faces_of_three())
}

/// The two that are there once (4, 0, 0) is collapsed to the origin.
fn collapsed(alloc: Global) -> Result<Batch, Memory> {
    mesh(alloc, &[tet(0, 8), tet(8, 12)], &faces_of_two())
}

fn a_collapse_leaves_two(alloc: Global) -> Result<bool, Memory> {
    let ops = collapses(alloc, &[[4, 0, 7]])?;
    leave(alloc, ops.as_slice(), &along(alloc)?, &collapsed(alloc)?)
}

#[test]
fn a_collapse_leaves_what_its_vertex_had_at_the_other(rt: HostRuntime) {
    assert!(rt; a_collapse_leaves_two(rt.alloc()) == Ok(true));
}

fn segment(x: u16, y: u16) -> Mark {
    mark(&[at([x, 0, 0]), at([y, 0, 0])])
}

/// Whether collapses change the segment from (4, 0, 0) to (8, 0, 0) to that from (x, 0, 0) to
/// (y, 0, 0).
fn change(alloc: Global, moves: &[[u16; 3]], x: u16, y: u16) -> Result<bool, Memory> {
    let old = mesh(alloc, &[], &[segment(4, 8)])?;
    let new = mesh(alloc, &[], &[segment(x, y)])?;
    leave(alloc, collapses(alloc, moves)?.as_slice(), &old, &new)
}

#[test]
fn the_first_that_collapses_a_corner_changes_a_mark(rt: HostRuntime) {
    assert!(rt; change(rt.alloc(), &[[0, 4, 9], [8, 12, 8], [4, 0, 7]], 4, 12) == Ok(true));
    assert!(rt; change(rt.alloc(), &[[4, 0, 8], [8, 12, 7]], 0, 8) == Ok(true));
}

const A: [u16; 3] = [0, 0, 0];

const B: [u16; 3] = [8, 8, 8];

const R: [u16; 3] = [8, 8, 0];

const S: [u16; 3] = [8, 0, 8];

const T: [u16; 3] = [0, 8, 8];

fn spanned(a: [u16; 3], b: [u16; 3], c: [u16; 3], d: [u16; 3]) -> Tet {
    match Tet::new([at(a), at(b), at(c), at(d)], 0, 1) {
        Some(tet) => tet,
        None => Tet::default(),
    }
}

/// The faces without the edge from corner to corner of a cube.
fn faces_around() -> [Mark; 6] {
    [
        face(A, T, S),
        face(A, T, R),
        face(A, S, R),
        face(T, S, B),
        face(T, R, B),
        face(S, R, B),
    ]
}

/// The three tetrahedra around that edge.
fn around(alloc: Global) -> Result<Batch, Memory> {
    let tets = [
        spanned(A, T, S, B),
        spanned(A, T, R, B),
        spanned(A, S, R, B),
    ];
    mesh(alloc, &tets, &faces_around())
}

/// The two tetrahedra that a swap of the edge leaves.
fn swapped(alloc: Global) -> Result<Batch, Memory> {
    mesh(
        alloc,
        &[spanned(A, T, S, R), spanned(T, S, R, B)],
        &faces_around(),
    )
}

fn a_swap_leaves_two(alloc: Global) -> Result<bool, Memory> {
    match Operation::new(&[at(A), at(B)], at(T), 390451572) {
        Some(op) => leave(alloc, &[op], &around(alloc)?, &swapped(alloc)?),
        None => Ok(false),
    }
}

#[test]
fn a_swap_fills_the_place_of_its_edge_and_leaves_marks(rt: HostRuntime) {
    assert!(rt; a_swap_leaves_two(rt.alloc()) == Ok(true));
}

/// Whether a pass makes the one mesh of the other, by a single operation.
fn makes_one(
    alloc: Global,
    kind: Kind,
    field: &SizeField,
    old: &Batch,
    new: &Batch,
) -> Result<bool, Memory> {
    let made = pass(alloc, kind, old, field)?;
    Ok(made.count == 1 && are_same(&made.mesh, new))
}

fn a_pass_collapses_one(alloc: Global) -> Result<bool, Memory> {
    let field = SizeField::uniform(alloc, 64);
    makes_one(
        alloc,
        Kind::Collapse,
        &field,
        &along(alloc)?,
        &collapsed(alloc)?,
    )
}

fn a_pass_swaps_one(alloc: Global) -> Result<bool, Memory> {
    let field = SizeField::uniform(alloc, 16);
    makes_one(alloc, Kind::Swap, &field, &around(alloc)?, &swapped(alloc)?)
}

#[test]
fn of_four_legal_collapses_of_one_cavity_a_pass_makes_the_first(rt: HostRuntime) {
    assert!(rt; a_pass_collapses_one(rt.alloc()) == Ok(true));
}

#[test]
fn of_three_legal_swaps_of_one_edge_a_pass_makes_the_first(rt: HostRuntime) {
    assert!(rt; a_pass_swaps_one(rt.alloc()) == Ok(true));
}
