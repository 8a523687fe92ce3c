// Values that were worked out by hand, on three tetrahedra along a line, each of one of three parts.
ghost use Rattle.std.specs.Prelude.{◌≢◌};

use super::*;
use cavity_rank::{Kind, Operation};
use ma_cells::{Ascending, Batch, Cell, Label, Mark, Tet};
use ma_geom::{Memory, Place};
use part_store::Store;
use size_marks::SizeField;
use std::alloc::Global;

fn at(x: u8, y: u8, z: u8) -> Place {
    match Place::new(i32::from(x), i32::from(y), i32::from(z)) {
        Some(place) => place,
        None => Place::default(),
    }
}

/// The places along the line.
fn line() -> [Place; 4] {
    [at(0, 0, 0), at(4, 0, 0), at(8, 0, 0), at(12, 0, 0)]
}

/// The tetrahedron of two places of the line and the edge across.
fn along(from: Place, to: Place) -> Tet {
    match Tet::new([from, to, at(0, 12, 0), at(0, 0, 12)], 0, 1) {
        Some(tet) => tet,
        None => Tet::default(),
    }
}

fn all_along() -> [Tet; 3] {
    let [p, q, r, s] = line();
    [along(p, q), along(q, r), along(r, s)]
}

/// The mark of an outer face.
fn face(corners: [Place; 3]) -> Mark {
    match Cell::new(&corners) {
        Some(cell) => Mark::new(cell, 0, 0),
        None => Mark::new(Cell::Point(at(0, 0, 0)), 0, 0),
    }
}

/// The marks of the two outer faces between two places of the line.
fn sides(from: Place, to: Place) -> [Mark; 2] {
    [
        face([from, to, at(0, 12, 0)]),
        face([from, to, at(0, 0, 12)]),
    ]
}

fn along_marks() -> [Mark; 8] {
    let ([p, q, r, s], y, z) = (line(), at(0, 12, 0), at(0, 0, 12));
    let ([a, b], [c, d], [e, f]) = (sides(p, q), sides(q, r), sides(r, s));
    [face([p, y, z]), a, b, c, d, e, f, face([s, y, z])]
}

fn mesh(alloc: Global, tets: &[Tet], marks: &[Mark]) -> Result<Batch, Memory> {
    let tets = Vec::from_slice(alloc, tets)?;
    Batch::gather(tets, Vec::from_slice(alloc, marks)?)
}

/// What a part holds of the line that has one of the tetrahedra, and two others as ghosts.
fn line_store(
    alloc: Global,
    part: Label,
    own: Tet,
    first: (Label, Tet),
    second: (Label, Tet),
) -> Result<Store, Memory>
    requires first { first.0 ≢ part }
    requires second { second.0 ≢ part }
{
    let mut store = Store::start(alloc, part, &[own], &along_marks())?;
    let by_first = mesh(alloc, &[first.1], &along_marks())?;
    let by_second = mesh(alloc, &[second.1], &along_marks())?;
    store.set_ghosts(alloc, &[(first.0, by_first), (second.0, by_second)])?;
    Ok(store)
}

fn store_0(alloc: Global) -> Result<Store, Memory> {
    let [own, second, third] = all_along();
    line_store(alloc, 0, own, (1, second), (2, third))
}

fn store_1(alloc: Global) -> Result<Store, Memory> {
    let [first, own, third] = all_along();
    line_store(alloc, 1, own, (0, first), (2, third))
}

fn store_2(alloc: Global) -> Result<Store, Memory> {
    let [first, second, own] = all_along();
    line_store(alloc, 2, own, (0, first), (1, second))
}

/// The collapses of a place of the line to others, all with one quality.
fn collapses(
    alloc: Global,
    place: Place,
    apexes: &[Place],
) -> Result<Ascending<Operation>, Memory> {
    let mut ops = Vec::new(alloc);
    for apex in apexes {
        if let Some(op) = Operation::new(&[place], *apex, 268435456) {
            ops.push(op)?;
        }
    }
    Ok(Ascending::gather(ops))
}

/// The collapses of the second place of the line, which part 0 proposes.
fn of_second(alloc: Global) -> Result<Ascending<Operation>, Memory> {
    let [first, second, third, _] = line();
    collapses(alloc, second, &[first, third])
}

/// The collapses of the third place, which part 1 proposes.
fn of_third(alloc: Global) -> Result<Ascending<Operation>, Memory> {
    let [_, second, third, last] = line();
    collapses(alloc, third, &[second, last])
}

/// That of the second place to the first, for which parts 0 and 1 vote.
fn to_first(alloc: Global) -> Result<Ascending<Operation>, Memory> {
    let [first, second, _, _] = line();
    collapses(alloc, second, &[first])
}

/// That of the third place to the second, for which part 2 votes.
fn to_second(alloc: Global) -> Result<Ascending<Operation>, Memory> {
    let [_, second, third, _] = line();
    collapses(alloc, third, &[second])
}

fn same(ops: &Ascending<Operation>, wanted: &Ascending<Operation>) -> bool {
    ops.as_slice() == wanted.as_slice()
}

/// Whether part 1 gets just these, and part 2 nothing.
fn goes_to_1(
    alloc: Global,
    letters: &Addressed,
    ops: &Ascending<Operation>,
) -> Result<bool, Memory> {
    let to_1 = letters.to(alloc, 1)?;
    let to_2 = letters.to(alloc, 2)?;
    Ok(same(&to_1, ops) && to_2.is_empty())
}

fn first_proposes(alloc: Global) -> Result<bool, Memory> {
    let sizes = SizeField::uniform(alloc, 64);
    let letters = proposed(alloc, &store_0(alloc)?, &sizes, Kind::Collapse)?;
    goes_to_1(alloc, &letters, &of_second(alloc)?)
}

#[test]
fn proposals_go_to_the_parts_of_their_cavities_alone(rt: HostRuntime) {
    assert!(rt; first_proposes(rt.alloc()) == Ok(true));
}

fn first_orders(alloc: Global) -> Result<bool, Memory> {
    let mine = to_first(alloc)?;
    let votes = [(1, to_first(alloc)?)];
    let store = store_0(alloc)?;
    let letters = ordered(alloc, &store, &of_second(alloc)?, &mine, &votes)?;
    goes_to_1(alloc, &letters, &mine)
}

#[test]
fn what_is_won_is_ordered_of_the_parts_of_its_cavity_alone(rt: HostRuntime) {
    assert!(rt; first_orders(rt.alloc()) == Ok(true));
}

/// What all parts proposed.
fn all_proposed(alloc: Global) -> Result<Vec<(Label, Ascending<Operation>)>, Memory> {
    let mut lists = Vec::new(alloc);
    lists.push((0, of_second(alloc)?))?;
    lists.push((1, of_third(alloc)?))?;
    Ok(lists)
}

fn second_votes(alloc: Global) -> Result<bool, Memory> {
    let votes = voted(alloc, &store_1(alloc)?, all_proposed(alloc)?)?;
    let to_0 = votes.to(alloc, 0)?;
    let to_1 = votes.to(alloc, 1)?;
    Ok(same(&to_0, &to_first(alloc)?) && to_1.is_empty())
}

fn last_votes(alloc: Global) -> Result<bool, Memory> {
    let votes = voted(alloc, &store_2(alloc)?, all_proposed(alloc)?)?;
    let to_0 = votes.to(alloc, 0)?;
    let to_1 = votes.to(alloc, 1)?;
    Ok(to_0.is_empty() && same(&to_1, &to_second(alloc)?))
}

#[test]
fn a_vote_goes_to_the_part_that_proposed(rt: HostRuntime) {
    assert!(rt; second_votes(rt.alloc()) == Ok(true));
    assert!(rt; last_votes(rt.alloc()) == Ok(true));
}

/// Whether a mesh has just these tetrahedra and marks.
fn is(alloc: Global, found: &Batch, tets: &[Tet], marks: &[Mark]) -> Result<bool, Memory> {
    let wanted = mesh(alloc, tets, marks)?;
    Ok(
        found.tets.as_slice() == wanted.tets.as_slice()
            && found.marks.as_slice() == wanted.marks.as_slice(),
    )
}

/// What part 1 delivers to a part, where a part ordered the collapse of the second place.
fn delivered(alloc: Global, by: Label, to: Label) -> Result<Batch, Memory> {
    let orders = [(by, to_first(alloc)?)];
    delivered_to(alloc, &store_1(alloc)?, &orders, to)
}

fn is_delivered(alloc: Global) -> Result<bool, Memory> {
    let [_, q, r, _] = line();
    is(
        alloc,
        &delivered(alloc, 0, 0)?,
        &[along(q, r)],
        &sides(q, r),
    )
}

fn nothing_is_delivered(alloc: Global, by: Label, to: Label) -> Result<bool, Memory> {
    is(alloc, &delivered(alloc, by, to)?, &[], &[])
}

#[test]
fn a_part_delivers_to_those_that_ordered_and_not_to_itself(rt: HostRuntime) {
    assert!(rt; is_delivered(rt.alloc()) == Ok(true));
    assert!(rt; nothing_is_delivered(rt.alloc(), 0, 2) == Ok(true));
    assert!(rt; nothing_is_delivered(rt.alloc(), 1, 1) == Ok(true));
}

/// Whether a part has just these tetrahedra and marks once it took deliveries, where part 0 ordered
/// the collapse of the second place of the line, and part 1 delivered.
fn leaves(alloc: Global, mut store: Store, tets: &[Tet], marks: &[Mark]) -> Result<bool, Memory> {
    let orders = [(0, to_first(alloc)?)];
    let mut batches = Vec::new(alloc);
    batches.push((1, delivered(alloc, 0, 0)?))?;
    take_deliveries(alloc, &mut store, &orders, batches)?;
    let left = Batch {
        tets: store.own_tets(alloc)?,
        marks: store.own_marks(alloc)?,
    };
    is(alloc, &left, tets, marks)
}

fn first_fills(alloc: Global) -> Result<bool, Memory> {
    let ([p, _, r, _], y, z) = (line(), at(0, 12, 0), at(0, 0, 12));
    let [a, b] = sides(p, r);
    leaves(
        alloc,
        store_0(alloc)?,
        &[along(p, r)],
        &[face([p, y, z]), a, b],
    )
}

fn second_gives(alloc: Global) -> Result<bool, Memory> {
    leaves(alloc, store_1(alloc)?, &[], &[])
}

#[test]
fn the_part_that_ordered_fills_the_cavity_and_the_other_gives_its_tetrahedron_away(
    rt: HostRuntime,
) {
    assert!(rt; first_fills(rt.alloc()) == Ok(true));
    assert!(rt; second_gives(rt.alloc()) == Ok(true));
}
