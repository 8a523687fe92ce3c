// Values that were worked out by hand, on two tetrahedra with a common face: part 0 has the one, part 1 the other.
ghost use Rattle.std.specs.Prelude.{◌≡◌, IfOk};

use super::*;
use letters::Shared;
use ma_cells::{Ascending, Batch, Cell, Label, Mark, Tet};
use ma_geom::{Memory, Place};
use std::alloc::Global;

fn at(x: u8, y: u8, z: u8) -> Place {
    match Place::new(i32::from(x), i32::from(y), i32::from(z)) {
        Some(place) => place,
        None => Place::default(),
    }
}

/// The tetrahedron of the face that both have, and a place.
fn tet(apex: Place) -> Tet {
    match Tet::new([apex, at(8, 0, 0), at(0, 8, 0), at(0, 0, 8)], 0, 1) {
        Some(tet) => tet,
        None => Tet::default(),
    }
}

fn low() -> Tet {
    tet(at(0, 0, 0))
}

fn high() -> Tet {
    tet(at(8, 8, 8))
}

fn face() -> Cell {
    Cell::Tri([at(0, 0, 8), at(0, 8, 0), at(8, 0, 0)])
}

fn mark(corners: &[Place], phys: i32) -> Mark {
    match Cell::new(corners) {
        Some(cell) => Mark::new(cell, phys, 0),
        None => Mark::new(Cell::Point(at(0, 0, 0)), 0, 0),
    }
}

/// On the origin, on the far corner, on the common face, and on a segment of neither.
fn marks() -> [Mark; 4] {
    [
        mark(&[at(0, 0, 0)], 1),
        mark(&[at(8, 8, 8)], 2),
        mark(&[at(8, 0, 0), at(0, 8, 0), at(0, 0, 8)], 3),
        mark(&[at(0, 0, 0), at(8, 8, 8)], 4),
    ]
}

/// The store of part 0 as it starts, from a list that has its tetrahedron twice.
fn started(alloc: Global) -> Result<Store, Memory>
    ensures { IfOk result (λ store. store.part ≡ 0) }
{
    Store::start(alloc, 0, &[low(), low()], &marks())
}

/// The tetrahedron of part 1, with all marks.
fn batch(alloc: Global) -> Result<Batch, Memory> {
    let tets = Vec::from_slice(alloc, &[high()])?;
    let marks = Vec::from_slice(alloc, &marks())?;
    Batch::gather(tets, marks)
}

/// The store of part 0 with the tetrahedron of part 1 as a ghost.
fn with_ghost(alloc: Global) -> Result<Store, Memory> {
    let mut store = started(alloc)?;
    let got = [(1, batch(alloc)?)];
    store.set_ghosts(alloc, &got)?;
    Ok(store)
}

fn starts(alloc: Global) -> Result<bool, Memory> {
    let view = started(alloc)?.view(alloc)?;
    let [origin, _, face, _] = marks();
    Ok(
        view.part == 0
            && view.own.as_slice() == [low()].as_slice()
            && view.ghosts.is_empty()
            && view.marks.as_slice() == [origin, face].as_slice(),
    )
}

#[test]
fn a_store_starts_with_each_tetrahedron_once_and_the_marks_on_them(rt: HostRuntime) {
    assert!(rt; starts(rt.alloc()) == Ok(true));
}

fn counts(alloc: Global) -> Result<bool, Memory> {
    let store = started(alloc)?;
    Ok(store.part() == 0 && store.own_count() == 1 && store.shared().is_empty())
}

#[test]
fn one_tetrahedron_is_counted(rt: HostRuntime) {
    assert!(rt; counts(rt.alloc()) == Ok(true));
}

fn lists_own(alloc: Global) -> Result<bool, Memory> {
    let store = with_ghost(alloc)?;
    let tets = store.own_tets(alloc)?;
    let corners = store.own_corners(alloc)?;
    let marks_on_high = store.marks_on(alloc, &[high()])?;
    let [_, far, face, _] = marks();
    Ok(
        tets.as_slice() == [low()].as_slice()
            && corners.as_slice() == [at(0, 0, 0), at(0, 0, 8), at(0, 8, 0), at(8, 0, 0)].as_slice()
            && marks_on_high.as_slice() == [far, face].as_slice(),
    )
}

#[test]
fn own_tetrahedra_their_corners_and_marks_on_others_are_listed(rt: HostRuntime) {
    assert!(rt; lists_own(rt.alloc()) == Ok(true));
}

fn sees_ghosts(alloc: Global) -> Result<bool, Memory> {
    let view = with_ghost(alloc)?.view(alloc)?;
    let [origin, far, face, _] = marks();
    Ok(
        view.own.as_slice() == [low()].as_slice()
            && view.ghosts.as_slice() == [(high(), 1)].as_slice()
            && view.marks.as_slice() == [origin, far, face].as_slice(),
    )
}

#[test]
fn ghosts_come_with_the_marks_on_both(rt: HostRuntime) {
    assert!(rt; sees_ghosts(rt.alloc()) == Ok(true));
}

/// Whether the store lists these around an edge of the face.
fn has_around(alloc: Global, store: &Store, due: &[(Tet, Label)]) -> Result<bool, Memory> {
    let edge = store.star(alloc, &[at(8, 0, 0), at(0, 8, 0)])?;
    Ok(edge.as_slice() == due)
}

fn is_around(alloc: Global) -> Result<bool, Memory> {
    let store = with_ghost(alloc)?;
    has_around(alloc, &store, &[(low(), 0), (high(), 1)])
}

#[test]
fn an_edge_of_the_face_has_both_around_it(rt: HostRuntime) {
    assert!(rt; is_around(rt.alloc()) == Ok(true));
}

/// Whether these are the residents of a cell.
fn has_residents(alloc: Global, store: &Store, cell: &Cell, due: &[Label]) -> Result<bool, Memory> {
    let labels = store.residents(alloc, cell)?;
    Ok(labels.as_slice() == due)
}

fn tells_residents(alloc: Global) -> Result<bool, Memory> {
    let store = with_ghost(alloc)?;
    let both = has_residents(alloc, &store, &face(), &[0, 1])?;
    let far = has_residents(alloc, &store, &Cell::Point(at(8, 8, 8)), &[1])?;
    Ok(both && far)
}

#[test]
fn both_parts_reside_on_the_face(rt: HostRuntime) {
    assert!(rt; tells_residents(rt.alloc()) == Ok(true));
}

fn tells_owners(alloc: Global) -> Result<bool, Memory> {
    let store = with_ghost(alloc)?;
    Ok(
        store.owner_of(&face()) == Some(0)
            && store.owner_of(&Cell::Point(at(8, 8, 8))) == Some(1)
            && store.owner_of(&Cell::Point(at(4, 4, 4))) == None,
    )
}

#[test]
fn the_least_resident_owns(rt: HostRuntime) {
    assert!(rt; tells_owners(rt.alloc()) == Ok(true));
}

/// Whether the store is of one tetrahedron and of one mark.
fn has_one(alloc: Global, store: &Store, tet: Tet, mark: Mark) -> Result<bool, Memory> {
    let view = store.view(alloc)?;
    Ok(
        view.own.as_slice() == [tet].as_slice()
            && view.ghosts.is_empty()
            && view.marks.as_slice() == [mark].as_slice(),
    )
}

/// The tetrahedron of part 1, without marks.
fn bare(alloc: Global) -> Result<Batch, Memory> {
    Batch::gather(Vec::from_slice(alloc, &[high()])?, Vec::new(alloc))
}

fn replaces(alloc: Global) -> Result<bool, Memory> {
    let mut store = with_ghost(alloc)?;
    store.replace(alloc, &[low()], &bare(alloc)?)?;
    has_one(alloc, &store, high(), marks()[2])
}

#[test]
fn a_mark_that_stood_on_a_ghost_alone_is_gone_where_the_ghost_becomes_own(rt: HostRuntime) {
    assert!(rt; replaces(rt.alloc()) == Ok(true));
}

fn adds_marks(alloc: Global) -> Result<bool, Memory> {
    let mut store = started(alloc)?;
    let edge = mark(&[at(0, 0, 0), at(8, 0, 0)], 5);
    store.add_marks(alloc, &[edge, marks()[1]])?;
    let there = store.marks_at(alloc, at(8, 0, 0))?;
    Ok(there.as_slice() == [edge, marks()[2]].as_slice())
}

#[test]
fn marks_on_own_cells_are_added(rt: HostRuntime) {
    assert!(rt; adds_marks(rt.alloc()) == Ok(true));
}

/// The list of one place that both parts have.
fn shared(alloc: Global) -> Result<Vec<Shared>, Memory> {
    let mut shared = Vec::new(alloc);
    let parts = Ascending::gather(Vec::from_slice(alloc, &[0, 1])?);
    if let Some(place) = Shared::new(at(8, 0, 0), parts) {
        shared.push(place)?;
    }
    Ok(shared)
}

fn shares(alloc: Global) -> Result<bool, Memory> {
    let mut store = started(alloc)?;
    store.set_shared(shared(alloc)?)?;
    Ok(match store.shared() {
        [place] => place.place() == at(8, 0, 0) && place.parts() == [0, 1].as_slice(),
        _ => false,
    })
}

#[test]
fn shared_places_are_kept(rt: HostRuntime) {
    assert!(rt; shares(rt.alloc()) == Ok(true));
}
