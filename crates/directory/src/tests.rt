// Values that were worked out by hand, on two tetrahedra with a common face: part 0 has the low one,
// part 1 the high one. On the grid of 8 the home of the low corner is part 0, and that of the other
// corners part 1.
use super::*;
use letters::{Post, Shared};
use ma_cells::{Ascending, Cell, Label, Mark, Tet};
use ma_geom::{Memory, Place};
use part_store::Store;
use std::alloc::Global;

fn place(x: i32, y: i32, z: i32) -> Place {
    match Place::new(x, y, z) {
        Some(place) => place,
        None => Place::default(),
    }
}

fn low() -> Place {
    place(0, 0, 0)
}

fn high() -> Place {
    place(8, 8, 8)
}

/// The corners that both have, ascending.
fn common() -> [Place; 3] {
    [place(0, 0, 8), place(0, 8, 0), place(8, 0, 0)]
}

/// The corners with home 1 of the high tetrahedron.
fn high_corners() -> [Place; 4] {
    let [z, y, x] = common();
    [z, y, x, high()]
}

fn mark(corners: &[Place], phys: i32) -> Mark {
    match Cell::new(corners) {
        Some(cell) => Mark::new(cell, phys, 0),
        None => Mark::new(Cell::Point(low()), 0, 0),
    }
}

/// On the common face.
fn face_mark() -> Mark {
    mark(&common(), 1)
}

/// On the low corner, on an edge from there, and on the common face.
fn low_marks() -> [Mark; 3] {
    [mark(&[low()], 2), mark(&[low(), high()], 3), face_mark()]
}

/// On the high corner and on the common face.
fn high_marks() -> [Mark; 2] {
    [mark(&[high()], 4), face_mark()]
}

#[test]
fn homes_go_in_turn_from_step_to_step(rt: HostRuntime) {
    let [z, y, x] = common();
    assert!(rt; home(low(), 3, 2) == 0);
    assert!(rt; home(x, 3, 2) == 1 && home(y, 3, 2) == 1 && home(z, 3, 2) == 1);
    assert!(rt; home(high(), 3, 2) == 1);
    assert!(rt; home(z, 3, 3) == 2);
}

#[test]
fn homes_on_the_negative_side_go_on_in_turn(rt: HostRuntime) {
    assert!(rt; home(place(-8, 0, 0), 3, 3) == 2);
    assert!(rt; home(place(-16, 0, 0), 3, 3) == 1);
}

fn post_with(alloc: Global, count: u32, places: &[Place], marks: &[Mark]) -> Result<Post, Memory> {
    let places = Vec::from_slice(alloc, places)?;
    let marks = Vec::from_slice(alloc, marks)?;
    Ok(Post {
        count,
        places: Ascending::gather(places),
        marks: Ascending::gather(marks),
    })
}

/// Whether a post has just these.
fn is_post(post: &Post, count: u32, places: &[Place], marks: &[Mark]) -> bool {
    post.count == count && post.places.as_slice() == places && post.marks.as_slice() == marks
}

fn goes_home(alloc: Global) -> Result<bool, Memory> {
    let [z, y, x] = common();
    let all = post_with(alloc, 7, &[low(), z, y, x], &low_marks())?;
    let away = for_home(alloc, &all, 1, 3, 2)?;
    let here = for_home(alloc, &all, 0, 3, 2)?;
    let [corner, edge, face] = low_marks();
    Ok(is_post(&away, 7, &[z, y, x], &[face]) && is_post(&here, 7, &[low()], &[corner, edge]))
}

#[test]
fn a_home_is_told_its_places_and_the_marks_whose_least_corner_is_one(rt: HostRuntime) {
    assert!(rt; goes_home(rt.alloc()) == Ok(true));
}

/// The store of part 1, which has the high tetrahedron.
fn high_store(alloc: Global) -> Result<Store, Memory> {
    let [z, y, x] = common();
    let tet = match Tet::new([high(), x, y, z], 0, 0) {
        Some(tet) => tet,
        None => Tet::default(),
    };
    Store::start(alloc, 1, &[tet], &high_marks())
}

fn posts_all(alloc: Global) -> Result<bool, Memory> {
    let store = high_store(alloc)?;
    let all = everything(alloc, &store)?;
    let to_itself = post(alloc, &store, 1, 3, 2)?;
    let away = post(alloc, &store, 0, 3, 2)?;
    Ok(
        is_post(&all, 1, &high_corners(), &high_marks())
            && is_post(&to_itself, 1, &high_corners(), &high_marks())
            && is_post(&away, 1, &[], &[]),
    )
}

#[test]
fn a_part_posts_its_corners_to_their_home_and_its_count_to_all(rt: HostRuntime) {
    assert!(rt; posts_all(rt.alloc()) == Ok(true));
}

/// What home 1 got from both parts.
fn directory(alloc: Global) -> Result<Directory, Memory> {
    let mut directory = Directory::new(alloc);
    let from_high = post_with(alloc, 1, &high_corners(), &high_marks())?;
    let from_low = post_with(alloc, 1, &common(), &[face_mark()])?;
    directory.take_post(alloc, 1, &from_high)?;
    directory.take_post(alloc, 0, &from_low)?;
    Ok(directory)
}

/// Whether a place is shared by both parts.
fn is_common(shared: &Shared, place: Place) -> bool {
    shared.place() == place && shared.parts() == [0, 1].as_slice()
}

/// Whether the directory replies to a part the common corners and these marks.
fn replies(
    alloc: Global,
    directory: &Directory,
    target: Label,
    marks: &[Mark],
) -> Result<bool, Memory> {
    let reply = directory.reply(alloc, target)?;
    let [z, y, x] = common();
    Ok(match reply.shared.as_slice() {
        [first, second, third] => is_common(first, z)
            && is_common(second, y)
            && is_common(third, x)
            && reply.marks.as_slice() == marks,
        _ => false,
    })
}

fn replies_to_both(alloc: Global) -> Result<bool, Memory> {
    let directory = directory(alloc)?;
    let to_low = replies(alloc, &directory, 0, &[face_mark()])?;
    let to_high = replies(alloc, &directory, 1, &high_marks())?;
    Ok(to_low && to_high)
}

#[test]
fn both_hear_the_common_corners_and_the_marks_at_their_own(rt: HostRuntime) {
    assert!(rt; replies_to_both(rt.alloc()) == Ok(true));
}

/// Whether the directory has nothing to reply to a part.
fn replies_nothing(alloc: Global, directory: &Directory, target: Label) -> Result<bool, Memory> {
    let reply = directory.reply(alloc, target)?;
    Ok(reply.shared.as_slice().is_empty() && reply.marks.is_empty())
}

fn hears_the_latest(alloc: Global) -> Result<bool, Memory> {
    let mut directory = directory(alloc)?;
    let silent = replies_nothing(alloc, &directory, 2)?;
    directory.take_post(alloc, 0, &post_with(alloc, 0, &[], &[])?)?;
    let after = replies_nothing(alloc, &directory, 0)?;
    Ok(silent && after)
}

#[test]
fn who_posted_nothing_last_hears_nothing(rt: HostRuntime) {
    assert!(rt; hears_the_latest(rt.alloc()) == Ok(true));
}
