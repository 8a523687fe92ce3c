// What came of runs that were worked out by hand, on two tetrahedra with a common face, on the grid of 4: part 0 has the one at the origin, part 1 the other. The homes of all places but the origin are part 1.
ghost use Rattle.std.specs.Prelude.{◌≡◌, ◌≤◌, [], false, length, true, IfOk};
ghost use Rattle.std.specs.List.{list_all};
ghost use Rattle.ma_cells.specs.Grid.{are_on_grid, is_multiple, is_on_grid};
ghost use Rattle.world_run.specs.Rounds.{AreDone};

use super::*;
use carrier::{Carrier, Change, QueueCarrier, Schedule, TestCarrier};
use ma_cells::{Ascending, Mesh, Tet};
use ma_geom::{Memory, Place};
use part_rules::Course;
use size_marks::SizeField;
use std::alloc::Global;
use std::cmp::Ordering;

/// A coordinate of one of two sides.
fn side(number: u8) -> i32
    ensures { is_multiple 2 result ≡ true }
{
    if number == 0 { 0 } else { 4 }
}

/// A corner of the cube with these sides.
fn at(x: u8, y: u8, z: u8) -> Place
    ensures { is_on_grid 2 result ≡ true }
{
    match Place::new(side(x), side(y), side(z)) {
        Some(place) => place,
        None => Place::default(),
    }
}

fn tet(corners: [Place; 4]) -> Result<Tet, Memory>
    requires { list_all (is_on_grid 2) corners ≡ true }
    ensures { IfOk result (λ tet. list_all (is_on_grid 2) tet.corners ≡ true) }
{
    Tet::new(corners, 0, 1).ok_or(Memory)
}

fn mesh(alloc: Global) -> Result<Mesh, Memory>
    ensures tets { IfOk result (λ mesh. length mesh.tets ≡ 2) }
    ensures marks { IfOk result (λ mesh. mesh.marks ≡ []) }
    ensures grid { IfOk result (λ mesh. are_on_grid 2 mesh.tets ≡ true) }
{
    let [z, y, x] = [at(0, 0, 1), at(0, 1, 0), at(1, 0, 0)];
    let first = tet([at(0, 0, 0), z, y, x])?;
    let second = tet([z, y, x, at(1, 1, 1)])?;
    match first.corners().cmp(&second.corners()) {
        Ordering::Less => {
            let tets = Vec::from_slice(alloc, &[first, second])?;
            Ok(Mesh::new(tets, Ascending::new(alloc), 0))
        }
        Ordering::Equal | Ordering::Greater => Err(Memory),
    }
}

/// Each edge of the mesh is longer than its size, and so is each half of it.
fn course(alloc: Global) -> Course
    ensures { result ≡ record { parts = 2; grid = 2; collapse = 0; swap = 0; field = record { default = 1; boxes = [] } } }
{
    Course {
        parts: 2,
        grid: 2,
        collapse: 0,
        swap: 0,
        field: SizeField::uniform(alloc, 1),
    }
}

/// A queue whose takes of these numbers fail.
fn queue(alloc: Global, fail_takes: &[u64]) -> Result<QueueCarrier, Memory> {
    let fail_takes = Vec::from_slice(alloc, fail_takes)?;
    Ok(QueueCarrier::new(alloc, Vec::new(alloc), fail_takes))
}

/// The parts of the mesh after the round in which they see what is theirs.
fn start<C: Carrier>(
    alloc: Global,
    carrier: &mut C,
    schedule: &mut Schedule,
) -> Result<World, RunFault>
    ensures done { IfOk result (λ world. AreDone (record { parts = 2; grid = 2; collapse = 0; swap = 0; field = record { default = 1; boxes = [] } }) 1 world.parts) }
    ensures unspent { IfOk result (λ world. world.spent ≡ false) }
{
    let mesh = mesh(alloc)?;
    World::start(alloc, course(alloc), &mesh, &[0, 1], carrier, schedule)
}

/// How many letters that round takes from the oldest on.
fn letters<C: Carrier>(alloc: Global, carrier: &mut C) -> Result<u64, RunFault> {
    let mut schedule = Schedule::new(Vec::new(alloc));
    let world = start(alloc, carrier, &mut schedule)?;
    Ok(world.letters())
}

fn takes_six_and_leaves_none(alloc: Global) -> Result<bool, RunFault> {
    let mut carrier = queue(alloc, &[])?;
    let taken = letters(alloc, &mut carrier)?;
    Ok(taken == 6 && carrier.waiting() == 0)
}

#[test]
fn in_each_phase_each_part_takes_the_letter_of_the_other(rt: HostRuntime) {
    assert!(rt; matches!(takes_six_and_leaves_none(rt.alloc()), Ok(true)));
}

/// The first letter is the post of part 0.
fn with_first_letter(alloc: Global, change: Change) -> Result<u64, RunFault> {
    let mut carrier = TestCarrier::new(queue(alloc, &[])?, 1, change);
    letters(alloc, &mut carrier)
}

// Part 0 has the post of part 1 and goes on. Its reply comes early to part 1, which still waits for
// the post, so that no letter is left.
#[test]
fn the_first_part_that_waits_is_told_where_a_letter_is_lost(rt: HostRuntime) {
    let fault = with_first_letter(rt.alloc(), Change::Lose);
    assert!(rt; matches!(fault, Err(RunFault::Starved { part: 0, phase: 1 })));
}

/// How many bytes of the first letter are refused where its last is dropped.
fn refused(alloc: Global) -> usize {
    match with_first_letter(alloc, Change::Cut) {
        Err(RunFault::BadLetter(bytes)) => bytes.len(),
        _ => 0,
    }
}

// A post has its kind in 1 byte, round and phase in 4 each, sender and target in 1 each, the number
// of tetrahedra in 4, that of places in 8, three places of 12, and the number of marks in 8.
#[test]
fn a_letter_without_its_last_byte_is_refused(rt: HostRuntime) {
    assert_eq!(rt; refused(rt.alloc()), 67 - 1);
}

fn with_take_that_fails(alloc: Global, number: u64) -> Result<u64, RunFault> {
    let mut carrier = queue(alloc, &[number])?;
    letters(alloc, &mut carrier)
}

#[test]
fn a_take_that_fails_ends_the_run(rt: HostRuntime) {
    assert!(rt; matches!(with_take_that_fails(rt.alloc(), 3), Err(RunFault::Link)));
}

/// How many tetrahedra all parts have, and how many letters they have taken, after so many rounds
/// that refine.
fn refined(alloc: Global, rounds: u32) -> Result<(usize, u64), RunFault>
    requires { rounds ≤ 2 }
{
    let mut carrier = queue(alloc, &[])?;
    let mut schedule = Schedule::new(Vec::new(alloc));
    let mut world = start(alloc, &mut carrier, &mut schedule)?;
    for _round in 0..rounds {
        world.run_round(alloc, &mut carrier, &mut schedule)?;
    }
    let all = world.reassemble(alloc)?;
    Ok((all.tets.as_slice().len(), world.letters()))
}

#[test]
fn each_further_round_cuts_each_tetrahedron_into_eight_and_has_six_letters(rt: HostRuntime) {
    assert!(rt; matches!(refined(rt.alloc(), 0), Ok((2, 6))));
    assert!(rt; matches!(refined(rt.alloc(), 1), Ok((16, 12))));
    assert!(rt; matches!(refined(rt.alloc(), 2), Ok((128, 18))));
}
