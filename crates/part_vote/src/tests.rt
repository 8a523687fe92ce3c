// Values that were worked out by hand, on two tetrahedra at the middle of a marked line: part 1 has the one at its first end, part 0 the other.
ghost use Rattle.std.specs.Prelude.{◌≢◌};

mod three;

use super::*;
use cavity_rank::{Kind, Operation};
use ma_cells::{Ascending, Batch, Cell, Label, Mark, Tet};
use ma_geom::{Memory, Place};
use part_store::Store;
use size_marks::SizeField;
use std::alloc::Global;

fn at(x: u8, y: u8, z: u8) -> Place {
    match Place::new(i32::from(x), i32::from(y), i32::from(z)) {
        Some(place) => place,
        None => Place::default(),
    }
}

/// The middle of the line.
fn middle() -> Place {
    at(4, 0, 0)
}

/// The tetrahedron of the middle, an end of the line, and the edge across.
fn tet(end: Place) -> Tet {
    match Tet::new([end, middle(), at(0, 8, 0), at(0, 0, 8)], 0, 1) {
        Some(tet) => tet,
        None => Tet::default(),
    }
}

fn first_end() -> Place {
    at(0, 0, 0)
}

fn last_end() -> Place {
    at(8, 0, 0)
}

fn mark(corners: &[Place], elem: i32) -> Mark {
    match Cell::new(corners) {
        Some(cell) => Mark::new(cell, 0, elem),
        None => Mark::new(Cell::Point(at(0, 0, 0)), 0, 0),
    }
}

/// Both halves of the line, and the faces that one of the tetrahedra alone has.
fn marks() -> [Mark; 8] {
    let (o, u, x, y, z) = (first_end(), middle(), last_end(), at(0, 8, 0), at(0, 0, 8));
    [
        mark(&[o, u], 5),
        mark(&[u, x], 5),
        mark(&[o, y, z], 0),
        mark(&[o, u, y], 0),
        mark(&[o, u, z], 0),
        mark(&[u, x, y], 0),
        mark(&[u, x, z], 0),
        mark(&[x, y, z], 0),
    ]
}

/// The store of a part with one of the tetrahedra, and the other as a ghost.
fn store(
    alloc: Global,
    part: Label,
    own: Place,
    other_part: Label,
    other: Place,
) -> Result<Store, Memory>
    requires { other_part ≢ part }
{
    let mut store = Store::start(alloc, part, &[tet(own)], &marks())?;
    let tets = Vec::from_slice(alloc, &[tet(other)])?;
    let marks = Vec::from_slice(alloc, &marks())?;
    store.set_ghosts(alloc, &[(other_part, Batch::gather(tets, marks)?)])?;
    Ok(store)
}

fn store_0(alloc: Global) -> Result<Store, Memory> {
    store(alloc, 0, last_end(), 1, first_end())
}

fn store_1(alloc: Global) -> Result<Store, Memory> {
    store(alloc, 1, first_end(), 0, last_end())
}

/// The collapses of the middle to these places, all with one quality.
fn collapses(alloc: Global, places: &[Place]) -> Result<Ascending<Operation>, Memory> {
    let mut ops = Vec::new(alloc);
    for place in places {
        if let Some(op) = Operation::new(&[middle()], *place, 390451572) {
            ops.push(op)?;
        }
    }
    Ok(Ascending::gather(ops))
}

fn both(alloc: Global) -> Result<Ascending<Operation>, Memory> {
    collapses(alloc, &[first_end(), last_end()])
}

/// Whether a part proposes the collapses to these places.
fn proposes(alloc: Global, store: &Store, places: &[Place]) -> Result<bool, Memory> {
    let field = SizeField::uniform(alloc, 64);
    let proposed = proposals(alloc, store, &field, Kind::Collapse)?;
    Ok(proposed.as_slice() == collapses(alloc, places)?.as_slice())
}

fn the_lesser_label_proposes(alloc: Global) -> Result<bool, Memory> {
    let of_0 = proposes(alloc, &store_0(alloc)?, &[first_end(), last_end()])?;
    let of_1 = proposes(alloc, &store_1(alloc)?, &[])?;
    Ok(of_0 && of_1)
}

#[test]
fn the_part_with_the_lesser_label_proposes(rt: HostRuntime) {
    assert!(rt; the_lesser_label_proposes(rt.alloc()) == Ok(true));
}

/// Whether a part votes, of both collapses, for that to the first end alone.
fn votes_for_the_first(alloc: Global, store: &Store) -> Result<bool, Memory> {
    let voted = ballots(alloc, store, &both(alloc)?)?;
    Ok(voted.as_slice() == collapses(alloc, &[first_end()])?.as_slice())
}

fn both_vote(alloc: Global) -> Result<bool, Memory> {
    let by_0 = votes_for_the_first(alloc, &store_0(alloc)?)?;
    let by_1 = votes_for_the_first(alloc, &store_1(alloc)?)?;
    Ok(by_0 && by_1)
}

#[test]
fn each_part_votes_for_the_first_of_all_on_its_tetrahedron(rt: HostRuntime) {
    assert!(rt; both_vote(rt.alloc()) == Ok(true));
}

/// A store of part 0 without its tetrahedra has no vote.
fn votes_without_tetrahedra(alloc: Global) -> Result<bool, Memory> {
    let empty = Store::start(alloc, 0, &[], &[])?;
    let voted = ballots(alloc, &empty, &both(alloc)?)?;
    Ok(!voted.is_empty())
}

#[test]
fn without_a_tetrahedron_in_the_cavity_there_is_no_vote(rt: HostRuntime) {
    assert!(rt; votes_without_tetrahedra(rt.alloc()) == Ok(false));
}

/// Whether part 0 wins the collapses to some places, where it votes for that to the first end, and
/// this part for those to others.
fn wins(alloc: Global, voter: Label, voted: &[Place], places: &[Place]) -> Result<bool, Memory> {
    let led = both(alloc)?;
    let mine = collapses(alloc, &[first_end()])?;
    let votes = [(voter, collapses(alloc, voted)?)];
    let won = won(alloc, &store_0(alloc)?, &led, &mine, &votes)?;
    Ok(won.as_slice() == collapses(alloc, places)?.as_slice())
}

#[test]
fn what_all_parts_of_the_cavity_vote_for_is_won(rt: HostRuntime) {
    assert!(rt; wins(rt.alloc(), 1, &[first_end()], &[first_end()]) == Ok(true));
}

#[test]
fn what_another_part_of_the_cavity_does_not_vote_for_is_not_won(rt: HostRuntime) {
    assert!(rt; wins(rt.alloc(), 1, &[last_end()], &[]) == Ok(true));
    assert!(rt; wins(rt.alloc(), 2, &[first_end()], &[]) == Ok(true));
}

/// Whether the cavities of both collapses have tetrahedra of both parts.
fn both_reach_both(alloc: Global) -> Result<bool, Memory> {
    let ops = both(alloc)?;
    let labels = cavity_labels(alloc, &store_0(alloc)?, ops.as_slice())?;
    match labels.as_slice() {
        [one, other] => Ok(
            one.as_slice() == [0, 1].as_slice() && other.as_slice() == [0, 1].as_slice(),
        ),
        _ => Ok(false),
    }
}

#[test]
fn a_cavity_with_tetrahedra_of_two_parts_has_both_labels(rt: HostRuntime) {
    assert!(rt; both_reach_both(rt.alloc()) == Ok(true));
}
