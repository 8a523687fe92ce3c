// Values that were worked out by hand, on two tetrahedra at the middle of a marked line and on three around an edge, over two parts.
use super::*;
use cavity_rank::Operation;
use ma_cells::{Batch, Cell, Mark, Tet};
use ma_geom::{Memory, Place};
use part_store::Store;
use std::alloc::Global;

fn at(x: u8, y: u8, z: u8) -> Place {
    match Place::new(i32::from(x), i32::from(y), i32::from(z)) {
        Some(place) => place,
        None => Place::default(),
    }
}

fn tet(corners: [Place; 4]) -> Tet {
    match Tet::new(corners, 0, 1) {
        Some(tet) => tet,
        None => Tet::default(),
    }
}

fn mark(corners: &[Place], elem: i32) -> Mark {
    match Cell::new(corners) {
        Some(cell) => Mark::new(cell, 0, elem),
        None => Mark::new(Cell::Point(at(0, 0, 0)), 0, 0),
    }
}

/// A store of a part with these tetrahedra and the marks on their cells.
fn store(alloc: Global, tets: &[Tet], marks: &[Mark]) -> Result<Store, Memory> {
    Store::start(alloc, 0, tets, marks)
}

fn mesh(alloc: Global, tets: &[Tet], marks: &[Mark]) -> Result<Batch, Memory> {
    let tets = Vec::from_slice(alloc, tets)?;
    Batch::gather(tets, Vec::from_slice(alloc, marks)?)
}

/// What a part has of a mesh.
fn held(alloc: Global, store: &Store) -> Result<Batch, Memory> {
    Ok(Batch {
        tets: store.own_tets(alloc)?,
        marks: store.own_marks(alloc)?,
    })
}

/// Whether a mesh has just these tetrahedra and marks.
fn is(alloc: Global, found: &Batch, tets: &[Tet], marks: &[Mark]) -> Result<bool, Memory> {
    let wanted = mesh(alloc, tets, marks)?;
    Ok(
        found.tets.as_slice() == wanted.tets.as_slice()
            && found.marks.as_slice() == wanted.marks.as_slice(),
    )
}

/// The operation that takes these places away and fills the cavity from the apex.
fn operation(alloc: Global, places: &[Place], apex: Place) -> Result<Vec<Operation>, Memory> {
    let mut ops = Vec::new(alloc);
    if let Some(op) = Operation::new(places, apex, 390451572) {
        ops.push(op)?;
    }
    Ok(ops)
}

/// The ends of the line, its middle, and the places across.
fn line() -> [Place; 5] {
    [
        at(0, 0, 0),
        at(4, 0, 0),
        at(8, 0, 0),
        at(0, 8, 0),
        at(0, 0, 8),
    ]
}

/// The tetrahedron at the first end, which part 1 has, and that at the last, which part 0 has.
fn halves() -> [Tet; 2] {
    let [o, u, x, y, z] = line();
    [tet([o, u, y, z]), tet([u, x, y, z])]
}

/// The half of the line and the outer faces that are on the first tetrahedron.
fn first_marks() -> [Mark; 4] {
    let [o, u, _, y, z] = line();
    [
        mark(&[o, u], 5),
        mark(&[o, y, z], 0),
        mark(&[o, u, y], 0),
        mark(&[o, u, z], 0),
    ]
}

fn last_marks() -> [Mark; 4] {
    let [_, u, x, y, z] = line();
    [
        mark(&[u, x], 5),
        mark(&[u, x, y], 0),
        mark(&[u, x, z], 0),
        mark(&[x, y, z], 0),
    ]
}

/// What is there once the middle is at the first end.
fn whole_marks() -> [Mark; 5] {
    let [o, _, x, y, z] = line();
    [
        mark(&[o, x], 5),
        mark(&[o, y, z], 0),
        mark(&[o, x, y], 0),
        mark(&[o, x, z], 0),
        mark(&[x, y, z], 0),
    ]
}

/// The collapse of the middle to the first end.
fn collapse(alloc: Global) -> Result<Vec<Operation>, Memory> {
    let [o, u, _, _, _] = line();
    operation(alloc, &[u], o)
}

fn first_store(alloc: Global) -> Result<Store, Memory> {
    store(alloc, &[halves()[0]], &first_marks())
}

fn first_delivered(alloc: Global) -> Result<Batch, Memory> {
    let store = first_store(alloc)?;
    deliveries(alloc, &store, collapse(alloc)?.as_slice())
}

fn a_half_is_delivered(alloc: Global) -> Result<bool, Memory> {
    let delivered = first_delivered(alloc)?;
    is(alloc, &delivered, &[halves()[0]], &first_marks())
}

#[test]
fn what_a_part_has_of_a_cavity_is_delivered_with_its_marks(rt: HostRuntime) {
    assert!(rt; a_half_is_delivered(rt.alloc()) == Ok(true));
}

/// The store of part 0 once it has made the collapse over its own tetrahedron and what came.
fn collapsed(alloc: Global) -> Result<Store, Memory> {
    let mut store = store(alloc, &[halves()[1]], &last_marks())?;
    let got = [first_delivered(alloc)?];
    let won = collapse(alloc)?;
    apply(alloc, &mut store, won.as_slice(), &got, &[])?;
    Ok(store)
}

fn a_collapse_leaves_one(alloc: Global) -> Result<bool, Memory> {
    let [o, _, x, y, z] = line();
    let left = held(alloc, &collapsed(alloc)?)?;
    is(alloc, &left, &[tet([o, x, y, z])], &whole_marks())
}

#[test]
fn a_collapse_fills_its_cavity_over_two_parts_and_moves_the_marks_of_both(rt: HostRuntime) {
    assert!(rt; a_collapse_leaves_one(rt.alloc()) == Ok(true));
}

/// The store of part 1 once it has given its tetrahedron away.
fn given_away(alloc: Global) -> Result<Store, Memory> {
    let mut store = first_store(alloc)?;
    apply(alloc, &mut store, &[], &[], &[halves()[0]])?;
    Ok(store)
}

fn nothing_is_kept(alloc: Global) -> Result<bool, Memory> {
    let left = held(alloc, &given_away(alloc)?)?;
    is(alloc, &left, &[], &[])
}

#[test]
fn a_tetrahedron_that_is_given_away_is_gone_with_its_marks(rt: HostRuntime) {
    assert!(rt; nothing_is_kept(rt.alloc()) == Ok(true));
}

/// The store of part 1 once it has made a collapse of a place where it has no tetrahedron.
fn collapsed_elsewhere(alloc: Global) -> Result<Store, Memory> {
    let [o, _, x, _, _] = line();
    let mut store = first_store(alloc)?;
    let won = operation(alloc, &[x], o)?;
    apply(alloc, &mut store, won.as_slice(), &[], &[])?;
    Ok(store)
}

fn all_is_kept(alloc: Global) -> Result<bool, Memory> {
    let left = held(alloc, &collapsed_elsewhere(alloc)?)?;
    is(alloc, &left, &[halves()[0]], &first_marks())
}

#[test]
fn an_operation_without_a_cavity_changes_nothing(rt: HostRuntime) {
    assert!(rt; all_is_kept(rt.alloc()) == Ok(true));
}

/// The ends of an edge, and the places around it.
fn ring() -> [Place; 5] {
    [
        at(0, 0, 0),
        at(8, 8, 8),
        at(0, 8, 8),
        at(8, 0, 8),
        at(8, 8, 0),
    ]
}

/// The tetrahedron around the edge that part 0 has, and those that part 1 has.
fn around() -> [Tet; 3] {
    let [a, b, t, s, r] = ring();
    [tet([a, b, s, t]), tet([a, b, r, s]), tet([a, b, t, r])]
}

/// The outer faces. A swap of the edge leaves them.
fn around_marks() -> [Mark; 6] {
    let [a, b, t, s, r] = ring();
    [
        mark(&[a, r, s], 0),
        mark(&[a, s, t], 0),
        mark(&[a, t, r], 0),
        mark(&[b, r, s], 0),
        mark(&[b, s, t], 0),
        mark(&[b, t, r], 0),
    ]
}

/// The swap of the edge from the first place of the ring.
fn swap(alloc: Global) -> Result<Vec<Operation>, Memory> {
    let [a, b, t, _, _] = ring();
    operation(alloc, &[a, b], t)
}

fn two_delivered(alloc: Global) -> Result<Batch, Memory> {
    let [_, second, third] = around();
    let store = store(alloc, &[second, third], &around_marks())?;
    deliveries(alloc, &store, swap(alloc)?.as_slice())
}

/// The store of part 0 once it has made the swap over its own tetrahedron and the two that came.
fn swapped(alloc: Global) -> Result<Store, Memory> {
    let mut store = store(alloc, &[around()[0]], &around_marks())?;
    let got = [two_delivered(alloc)?];
    let won = swap(alloc)?;
    apply(alloc, &mut store, won.as_slice(), &got, &[])?;
    Ok(store)
}

fn a_swap_leaves_two(alloc: Global) -> Result<bool, Memory> {
    let [a, b, t, s, r] = ring();
    let left = held(alloc, &swapped(alloc)?)?;
    let two = [tet([a, t, s, r]), tet([b, t, s, r])];
    is(alloc, &left, &two, &around_marks())
}

#[test]
fn a_swap_over_two_parts_leaves_two_of_three_and_the_marks_of_both(rt: HostRuntime) {
    assert!(rt; a_swap_leaves_two(rt.alloc()) == Ok(true));
}
