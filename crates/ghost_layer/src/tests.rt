// Values that were worked out by hand, on two tetrahedra with a common face: part 0 has the one, part 1 the other.
ghost use Rattle.std.specs.Prelude.{◌≡◌, IfOk};

use super::*;
use letters::Shared;
use ma_cells::{Ascending, Batch, Cell, Mark, Tet};
use ma_geom::{Memory, Place};
use part_store::Store;
use std::alloc::Global;

fn at(x: u8, y: u8, z: u8) -> Place {
    match Place::new(i32::from(x), i32::from(y), i32::from(z)) {
        Some(place) => place,
        None => Place::default(),
    }
}

/// A tetrahedron at a corner of a cube, whose side is 8.
fn tet(corners: [Place; 4]) -> Tet {
    match Tet::new(corners, 0, 1) {
        Some(tet) => tet,
        None => Tet::default(),
    }
}

fn low() -> Tet {
    tet([at(0, 0, 0), at(8, 0, 0), at(0, 8, 0), at(0, 0, 8)])
}

fn high() -> Tet {
    tet([at(8, 8, 8), at(8, 0, 0), at(0, 8, 0), at(0, 0, 8)])
}

/// It has a corner of the upper one, and none of the lower one.
fn far() -> Tet {
    tet([at(8, 8, 8), at(16, 8, 8), at(8, 16, 8), at(8, 8, 16)])
}

/// It has no corner of the others.
fn away() -> Tet {
    tet([at(32, 0, 0), at(40, 0, 0), at(32, 8, 0), at(32, 0, 8)])
}

fn mark(corners: &[Place], phys: i32) -> Mark {
    match Cell::new(corners) {
        Some(cell) => Mark::new(cell, phys, 0),
        None => Mark::new(Cell::Point(at(0, 0, 0)), 0, 0),
    }
}

/// On the origin, on the common face, on the upper corner, and on a corner of each of those beside.
fn marks() -> [Mark; 5] {
    [
        mark(&[at(0, 0, 0)], 1),
        mark(&[at(8, 0, 0), at(0, 8, 0), at(0, 0, 8)], 2),
        mark(&[at(8, 8, 8)], 3),
        mark(&[at(16, 8, 8)], 4),
        mark(&[at(40, 0, 0)], 5),
    ]
}

/// The corners of the common face, which parts 0 and 1 share.
fn shared(alloc: Global) -> Result<Vec<Shared>, Memory> {
    let mut shared = Vec::new(alloc);
    for place in &[at(0, 0, 8), at(0, 8, 0), at(8, 0, 0)] {
        let parts = Ascending::gather(Vec::from_slice(alloc, &[0, 1])?);
        if let Some(entry) = Shared::new(*place, parts) {
            shared.push(entry)?;
        }
    }
    Ok(shared)
}

/// The store of part 0, with what it shares.
fn started(alloc: Global) -> Result<Store, Memory>
    ensures { IfOk result (λ store. store.part ≡ 0) }
{
    let mut store = Store::start(alloc, 0, &[low(), away()], &marks())?;
    store.set_shared(shared(alloc)?)?;
    Ok(store)
}

/// Whether a batch has just these.
fn has(batch: &Batch, tets: &[Tet], marks: &[Mark]) -> bool {
    batch.tets.as_slice() == tets && batch.marks.as_slice() == marks
}

fn shows(alloc: Global) -> Result<bool, Memory> {
    let batch = ghosts_for(alloc, &started(alloc)?, 1)?;
    let [origin, face, ..] = marks();
    Ok(has(&batch, &[low()], &[origin, face]))
}

#[test]
fn what_has_a_shared_corner_is_shown_with_the_marks_on_it(rt: HostRuntime) {
    assert!(rt; shows(rt.alloc()) == Ok(true));
}

fn shows_nothing(alloc: Global) -> Result<bool, Memory> {
    let store = started(alloc)?;
    let own = store.own_tets(alloc)?;
    let batch = ghosts_among(alloc, &store, &own, 2)?;
    Ok(has(&batch, &[], &[]))
}

#[test]
fn nothing_is_shown_to_a_part_that_shares_no_place(rt: HostRuntime) {
    assert!(rt; shows_nothing(rt.alloc()) == Ok(true));
}

/// What part 1 shows where it shows too much.
fn shown(alloc: Global) -> Result<Batch, Memory> {
    let tets = Vec::from_slice(alloc, &[high(), far()])?;
    Batch::gather(tets, Vec::from_slice(alloc, &marks())?)
}

fn rebuilds(alloc: Global) -> Result<bool, Memory> {
    let mut store = started(alloc)?;
    let got = [(1, shown(alloc)?)];
    rebuild(alloc, &mut store, &got)?;
    let view = store.view(alloc)?;
    let [origin, face, upper, _, beside] = marks();
    Ok(
        view.ghosts.as_slice() == [(high(), 1)].as_slice()
            && view.marks.as_slice() == [origin, upper, beside, face].as_slice(),
    )
}

#[test]
fn a_tetrahedron_that_shares_no_corner_becomes_no_ghost(rt: HostRuntime) {
    assert!(rt; rebuilds(rt.alloc()) == Ok(true));
}
