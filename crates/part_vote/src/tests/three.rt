// Values that were worked out by hand, on three tetrahedra around an edge over two parts, and on three along a line over three.
ghost use Rattle.std.specs.Prelude.{◌≢◌};

use super::at;
use crate::{ballots, proposals, won};
use cavity_rank::{Kind, Operation};
use ma_cells::{Ascending, Batch, Cell, Label, Mark, Tet};
use ma_geom::{Memory, Place};
use part_store::Store;
use size_marks::SizeField;
use std::alloc::Global;

fn tet(corners: [Place; 4]) -> Tet {
    Tet::new(corners, 0, 1).unwrap_or_default()
}

/// The mark of an outer face.
fn face(corners: [Place; 3]) -> Mark {
    match Cell::new(&corners) {
        Some(cell) => Mark::new(cell, 0, 0),
        None => Mark::new(Cell::Point(at(0, 0, 0)), 0, 0),
    }
}

/// What another part shows.
fn shown(alloc: Global, tets: &[Tet], marks: &[Mark]) -> Result<Batch, Memory> {
    let tets = Vec::from_slice(alloc, tets)?;
    Batch::gather(tets, Vec::from_slice(alloc, marks)?)
}

/// The operations that take these places away from one apex after the other, with one quality.
fn operations(
    alloc: Global,
    places: &[Place],
    apexes: &[Place],
    quality: u32,
) -> Result<Ascending<Operation>, Memory> {
    let mut ops = Vec::new(alloc);
    for apex in apexes {
        if let Some(op) = Operation::new(places, *apex, quality) {
            ops.push(op)?;
        }
    }
    Ok(Ascending::gather(ops))
}

/// The three places around the edge, in the order of rank.
fn ring() -> [Place; 3] {
    [at(0, 8, 8), at(8, 0, 8), at(8, 8, 0)]
}

/// Those of the tetrahedra around the edge that have the last place of the ring, and the one that lacks it.
fn around() -> ([Tet; 2], Tet) {
    let (a, b, [t, s, r]) = (at(0, 0, 0), at(8, 8, 8), ring());
    ([tet([a, b, r, s]), tet([a, b, t, r])], tet([a, b, s, t]))
}

fn around_marks() -> [Mark; 6] {
    let (a, b, [t, s, r]) = (at(0, 0, 0), at(8, 8, 8), ring());
    [
        face([a, r, s]),
        face([a, s, t]),
        face([a, t, r]),
        face([b, r, s]),
        face([b, s, t]),
        face([b, t, r]),
    ]
}

fn swaps(alloc: Global, apexes: &[Place]) -> Result<Ascending<Operation>, Memory> {
    operations(alloc, &[at(0, 0, 0), at(8, 8, 8)], apexes, 390451572)
}

/// Part 0 has the tetrahedron that lacks the last place, part 1 the others.
fn ring_store_0(alloc: Global) -> Result<Store, Memory> {
    let (others, own) = around();
    let mut store = Store::start(alloc, 0, &[own], &around_marks())?;
    store.set_ghosts(alloc, &[(1, shown(alloc, &others, &around_marks())?)])?;
    Ok(store)
}

fn ring_store_1(alloc: Global) -> Result<Store, Memory> {
    let (own, other) = around();
    let mut store = Store::start(alloc, 1, &own, &around_marks())?;
    store.set_ghosts(alloc, &[(0, shown(alloc, &[other], &around_marks())?)])?;
    Ok(store)
}

/// Whether a part proposes the swaps from these places.
fn swaps_are(alloc: Global, store: &Store, apexes: &[Place]) -> Result<bool, Memory> {
    let proposed = proposals(alloc, store, &SizeField::uniform(alloc, 16), Kind::Swap)?;
    Ok(proposed.as_slice() == swaps(alloc, apexes)?.as_slice())
}

fn the_first_part_proposes_swaps(alloc: Global) -> Result<bool, Memory> {
    let by_0 = swaps_are(alloc, &ring_store_0(alloc)?, &ring())?;
    let by_1 = swaps_are(alloc, &ring_store_1(alloc)?, &[])?;
    Ok(by_0 && by_1)
}

#[test]
fn of_two_parts_around_an_edge_the_first_proposes_its_swaps(rt: HostRuntime) {
    assert!(rt; the_first_part_proposes_swaps(rt.alloc()) == Ok(true));
}

/// Whether a part votes for the swap from the first place of the ring alone.
fn swap_has_vote(alloc: Global, store: &Store) -> Result<bool, Memory> {
    let [first, ..] = ring();
    let voted = ballots(alloc, store, &swaps(alloc, &ring())?)?;
    Ok(voted.as_slice() == swaps(alloc, &[first])?.as_slice())
}

fn first_swap_has_both_votes(alloc: Global) -> Result<bool, Memory> {
    let by_0 = swap_has_vote(alloc, &ring_store_0(alloc)?)?;
    let by_1 = swap_has_vote(alloc, &ring_store_1(alloc)?)?;
    Ok(by_0 && by_1)
}

fn first_swap_is_won(alloc: Global) -> Result<bool, Memory> {
    let [first, ..] = ring();
    let mine = swaps(alloc, &[first])?;
    let votes = [(1, swaps(alloc, &[first])?)];
    let store = ring_store_0(alloc)?;
    let won = won(alloc, &store, &swaps(alloc, &ring())?, &mine, &votes)?;
    Ok(won.as_slice() == mine.as_slice())
}

#[test]
fn both_parts_vote_for_the_swap_from_the_least_place_and_it_is_won(rt: HostRuntime) {
    assert!(rt; first_swap_has_both_votes(rt.alloc()) == Ok(true));
    assert!(rt; first_swap_is_won(rt.alloc()) == Ok(true));
}

/// The places along the line.
fn line() -> [Place; 4] {
    [at(0, 0, 0), at(4, 0, 0), at(8, 0, 0), at(12, 0, 0)]
}

fn along(from: Place, to: Place) -> Tet {
    tet([from, to, at(0, 12, 0), at(0, 0, 12)])
}

fn all_along() -> [Tet; 3] {
    let [p, q, r, s] = line();
    [along(p, q), along(q, r), along(r, s)]
}

fn along_marks() -> [Mark; 8] {
    let ([p, q, r, s], y, z) = (line(), at(0, 12, 0), at(0, 0, 12));
    [
        face([p, y, z]),
        face([p, q, y]),
        face([p, q, z]),
        face([q, r, y]),
        face([q, r, z]),
        face([r, s, y]),
        face([r, s, z]),
        face([s, y, z]),
    ]
}

/// What a part holds of the line that has one of the tetrahedra, and two others as ghosts.
fn line_store(
    alloc: Global,
    part: Label,
    own: Tet,
    first: (Label, Tet),
    second: (Label, Tet),
) -> Result<Store, Memory>
    requires first { first.0 ≢ part }
    requires second { second.0 ≢ part }
{
    let mut store = Store::start(alloc, part, &[own], &along_marks())?;
    let by_first = shown(alloc, &[first.1], &along_marks())?;
    let by_second = shown(alloc, &[second.1], &along_marks())?;
    store.set_ghosts(alloc, &[(first.0, by_first), (second.0, by_second)])?;
    Ok(store)
}

fn line_store_0(alloc: Global) -> Result<Store, Memory> {
    let [own, second, third] = all_along();
    line_store(alloc, 0, own, (1, second), (2, third))
}

fn line_store_1(alloc: Global) -> Result<Store, Memory> {
    let [first, own, third] = all_along();
    line_store(alloc, 1, own, (0, first), (2, third))
}

fn line_store_2(alloc: Global) -> Result<Store, Memory> {
    let [first, second, own] = all_along();
    line_store(alloc, 2, own, (0, first), (1, second))
}

fn collapses(
    alloc: Global,
    place: Place,
    apexes: &[Place],
) -> Result<Ascending<Operation>, Memory> {
    operations(alloc, &[place], apexes, 268435456)
}

/// The collapses of the second place of the line, and of the third, each to both sides.
fn of_second(alloc: Global) -> Result<Ascending<Operation>, Memory> {
    let [first, second, third, _] = line();
    collapses(alloc, second, &[first, third])
}

fn of_third(alloc: Global) -> Result<Ascending<Operation>, Memory> {
    let [_, second, third, last] = line();
    collapses(alloc, third, &[second, last])
}

/// Whether a part proposes just these collapses.
fn proposes(
    alloc: Global,
    store: &Store,
    collapses: &Ascending<Operation>,
) -> Result<bool, Memory> {
    let sizes = SizeField::uniform(alloc, 64);
    let proposed = proposals(alloc, store, &sizes, Kind::Collapse)?;
    Ok(proposed.as_slice() == collapses.as_slice())
}

fn first_proposes(alloc: Global) -> Result<bool, Memory> {
    proposes(alloc, &line_store_0(alloc)?, &of_second(alloc)?)
}

fn second_proposes(alloc: Global) -> Result<bool, Memory> {
    proposes(alloc, &line_store_1(alloc)?, &of_third(alloc)?)
}

fn last_proposes_nothing(alloc: Global) -> Result<bool, Memory> {
    proposes(alloc, &line_store_2(alloc)?, &Ascending::new(alloc))
}

#[test]
fn along_a_line_each_part_but_the_last_proposes_for_the_vertex_behind_it(rt: HostRuntime) {
    assert!(rt; first_proposes(rt.alloc()) == Ok(true));
    assert!(rt; second_proposes(rt.alloc()) == Ok(true));
    assert!(rt; last_proposes_nothing(rt.alloc()) == Ok(true));
}

/// All that was proposed.
fn all_proposed(alloc: Global) -> Result<Ascending<Operation>, Memory> {
    let mut all = of_second(alloc)?.into_vec();
    all.append(&mut of_third(alloc)?.into_vec())?;
    Ok(Ascending::gather(all))
}

/// The collapse of the second place to the first.
fn first_collapse(alloc: Global) -> Result<Ascending<Operation>, Memory> {
    let [first, second, _, _] = line();
    collapses(alloc, second, &[first])
}

/// Whether a part votes for just these collapses of all that were proposed.
fn votes_for(
    alloc: Global,
    store: &Store,
    collapses: &Ascending<Operation>,
) -> Result<bool, Memory> {
    let voted = ballots(alloc, store, &all_proposed(alloc)?)?;
    Ok(voted.as_slice() == collapses.as_slice())
}

fn first_votes(alloc: Global) -> Result<bool, Memory> {
    votes_for(alloc, &line_store_0(alloc)?, &first_collapse(alloc)?)
}

fn second_votes(alloc: Global) -> Result<bool, Memory> {
    votes_for(alloc, &line_store_1(alloc)?, &first_collapse(alloc)?)
}

fn last_votes(alloc: Global) -> Result<bool, Memory> {
    let [_, second, third, _] = line();
    votes_for(
        alloc,
        &line_store_2(alloc)?,
        &collapses(alloc, third, &[second])?,
    )
}

/// What a part wins of the collapses that it leads, where it and part 1 vote for the first alone.
fn won_of(
    alloc: Global,
    store: &Store,
    led: &Ascending<Operation>,
) -> Result<Ascending<Operation>, Memory> {
    let mine = first_collapse(alloc)?;
    let votes = [(1, first_collapse(alloc)?)];
    won(alloc, store, led, &mine, &votes)
}

fn first_wins(alloc: Global) -> Result<bool, Memory> {
    let won = won_of(alloc, &line_store_0(alloc)?, &of_second(alloc)?)?;
    Ok(won.as_slice() == first_collapse(alloc)?.as_slice())
}

fn second_wins_nothing(alloc: Global) -> Result<bool, Memory> {
    let won = won_of(alloc, &line_store_1(alloc)?, &of_third(alloc)?)?;
    Ok(won.is_empty())
}

#[test]
fn of_two_collapses_with_a_common_tetrahedron_that_of_the_lesser_vertex_is_won(rt: HostRuntime) {
    assert!(rt; first_votes(rt.alloc()) == Ok(true));
    assert!(rt; second_votes(rt.alloc()) == Ok(true));
    assert!(rt; last_votes(rt.alloc()) == Ok(true));
    assert!(rt; first_wins(rt.alloc()) == Ok(true));
    assert!(rt; second_wins_nothing(rt.alloc()) == Ok(true));
}
