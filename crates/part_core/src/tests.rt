// Values that were worked out by hand, on two tetrahedra with a common face, on the grid of 8: part 0 has the one at the origin, part 1 the other.
ghost use Rattle.std.specs.Prelude.{◌≡◌, ◌≤◌, false, true, IfOk, OnOk};
ghost use Rattle.size_marks.specs.Field.{is_size};

use super::*;
use letters::{Body, Letter, Post};
use ma_cells::{Ascending, Tet};
use ma_geom::{Memory, Place};
use part_rules::Course;
use size_marks::SizeField;
use std::alloc::Global;

fn at(x: u8, y: u8, z: u8) -> Place {
    match Place::new(i32::from(x), i32::from(y), i32::from(z)) {
        Some(place) => place,
        None => Place::default(),
    }
}

/// The places of the common face, all of whose homes are part 1.
fn face() -> [Place; 3] {
    [at(0, 0, 8), at(0, 8, 0), at(8, 0, 0)]
}

fn course(alloc: Global, parts: u8, size: u32) -> Course
    requires { is_size size ≡ true }
    ensures parts { result.parts ≡ parts }
    ensures grid { result.grid ≡ 3 }
    ensures collapses { result.collapse ≡ 0 }
    ensures swaps { result.swap ≡ 0 }
{
    Course {
        parts,
        grid: 3,
        collapse: 0,
        swap: 0,
        field: SizeField::uniform(alloc, size),
    }
}

/// Part 0 before its first round.
fn started(alloc: Global, course: Course) -> Result<Part, Memory>
    requires parts { (1 ≤ course.parts) × (course.parts ≤ 64) }
    requires grid { course.grid ≡ 3 }
    requires collapses { course.collapse ≡ 0 }
    requires swaps { course.swap ≡ 0 }
    ensures { IfOk result (λ part. (part.spent ≡ false) × (part.standing.round ≡ 0) × (part.begun ≡ 0) × (part.standing.phase ≡ 3) × (part.course.grid ≡ 3)) }
{
    let [z, y, x] = face();
    let tet = Tet::new([at(0, 0, 0), x, y, z], 0, 0);
    Part::start(alloc, 0, course, &[tet.unwrap_or_default()], &[])
}

/// Begins round 0.
fn begin(alloc: Global, out: &mut Vec<Letter>) -> Result<Part, PartFault> {
    let mut part = match started(alloc, course(alloc, 2, 8)) {
        Ok(part) => part,
        Err(_) => return Err(PartFault::Memory),
    };
    match part.begin(alloc, 0, out) {
        Ok(_) => Ok(part),
        Err(fault) => Err(fault),
    }
}

/// A post of part 1 to part 0.
fn post(alloc: Global, count: u32, places: &[Place]) -> Result<Letter, Memory> {
    let places = Ascending::gather(Vec::from_slice(alloc, places)?);
    Ok(Letter {
        round: 0,
        phase: 0,
        sender: 1,
        target: 0,
        body: Body::Post(Post {
            count,
            places,
            marks: Ascending::new(alloc),
        }),
    })
}

/// Hands a post of part 1 over, if the round still runs.
fn hand(
    alloc: Global,
    part: &mut Part,
    out: &mut Vec<Letter>,
    count: u32,
    places: &[Place],
) -> Result<Step, PartFault> {
    if part.is_spent() || part.phase() > 2 {
        return Ok(Step::RoundDone);
    }
    match post(alloc, count, places) {
        Ok(letter) => part.accept(alloc, letter, out),
        Err(_) => Err(PartFault::Memory),
    }
}

fn is_first_letter(letter: &Letter) -> bool {
    match &letter.body {
        Body::Post(post) => {
            letter.phase == 0
                && letter.sender == 0
                && letter.target == 1
                && post.count == 1
                && post.places.as_slice() == face().as_slice()
                && post.marks.is_empty()
        }
        _ => false,
    }
}

fn sends_one_post(alloc: Global) -> Result<bool, PartFault> {
    let mut out = Vec::new(alloc);
    let part = begin(alloc, &mut out)?;
    Ok(match out.as_slice() {
        [letter] => is_first_letter(letter) && part.phase() == 0 && part.store().own_count() == 1,
        _ => false,
    })
}

#[test]
fn a_part_begins_with_a_post_of_the_corners_that_have_the_home(rt: HostRuntime) {
    assert!(rt; sends_one_post(rt.alloc()) == Ok(true));
}

/// What part 0 answers to a post of part 1, and to the same once more.
fn answers(
    alloc: Global,
    count: u32,
    places: &[Place],
) -> Result<[Result<Step, PartFault>; 2], PartFault> {
    let mut out = Vec::new(alloc);
    let mut part = begin(alloc, &mut out)?;
    let first = hand(alloc, &mut part, &mut out, count, places);
    let second = hand(alloc, &mut part, &mut out, count, places);
    Ok([first, second])
}

#[test]
fn a_million_tetrahedra_are_not_too_many(rt: HostRuntime) {
    let due = [Ok(Step::Moved(1)), Err(PartFault::NotExpected { phase: 1 })];
    assert!(rt; answers(rt.alloc(), 999_999, &[]) == Ok(due));
}

#[test]
fn one_more_is_too_many(rt: HostRuntime) {
    let over = Step::Over {
        phase: 0,
        total: 1_000_001,
    };
    assert!(rt; answers(rt.alloc(), 1_000_000, &[]) == Ok([Ok(over), Ok(Step::RoundDone)]));
}

fn refuses(alloc: Global, place: Place) -> Result<bool, PartFault> {
    let [first, second] = answers(alloc, 1, &[place])?;
    Ok(first == Err(PartFault::OffGrid(place)) && second == Err(PartFault::OffGrid(place)))
}

#[test]
fn a_letter_with_a_place_off_the_grid_changes_nothing(rt: HostRuntime) {
    assert!(rt; refuses(rt.alloc(), at(4, 0, 0)) == Ok(true));
}

/// Begins a round, if it is the next one.
fn begin_next(
    alloc: Global,
    part: &mut Part,
    round: u32,
    out: &mut Vec<Letter>,
) -> Result<Step, PartFault>
    requires { round ≤ part.old.course.grid }
    ensures { OnOk result (part.new.course ≡ part.old.course) }
{
    if part.is_spent() || !part.is_done() || part.begun() != round {
        return Ok(Step::Waiting);
    }
    part.begin(alloc, round, out)
}

/// A part alone, all of whose edges are long, after its rounds 0 and 1.
fn alone(alloc: Global) -> Result<Part, PartFault> {
    let mut part = match started(alloc, course(alloc, 1, 4)) {
        Ok(part) => part,
        Err(_) => return Err(PartFault::Memory),
    };
    let mut out = Vec::new(alloc);
    begin_next(alloc, &mut part, 0, &mut out)?;
    begin_next(alloc, &mut part, 1, &mut out)?;
    Ok(part)
}

/// The tetrahedron at the origin in halves at the edges of its greatest face, and these in halves at
/// the edges on the axes.
fn eight() -> [[Place; 4]; 8] {
    let (o, [z, y, x]) = (at(0, 0, 0), face());
    let (oz, oy, ox) = (at(0, 0, 4), at(0, 4, 0), at(4, 0, 0));
    let (zy, zx, yx) = (at(0, 4, 4), at(4, 0, 4), at(4, 4, 0));
    [
        [o, oz, zy, zx],
        [o, oy, zy, yx],
        [o, zy, ox, zx],
        [o, zy, ox, yx],
        [oz, z, zy, zx],
        [oy, zy, y, yx],
        [zy, ox, zx, x],
        [zy, ox, yx, x],
    ]
}

fn is_in_eight(alloc: Global, part: &Part) -> Result<bool, Memory> {
    let mut corners = Vec::new(alloc);
    for tet in part.store().own_tets(alloc)?.as_slice() {
        corners.push(tet.corners())?;
    }
    Ok(corners.as_slice() == eight().as_slice())
}

fn has_eight_pieces(alloc: Global) -> Result<bool, PartFault> {
    let part = alone(alloc)?;
    match is_in_eight(alloc, &part) {
        Ok(is) => Ok(is),
        Err(_) => Err(PartFault::Memory),
    }
}

#[test]
fn a_part_alone_refines_its_tetrahedron_at_the_start_of_round_one(rt: HostRuntime) {
    assert!(rt; has_eight_pieces(rt.alloc()) == Ok(true));
}
