// What a part posts.
ghost use Rattle.std.specs.Prelude.{◌≡◌, ◌==◌, ◌≤◌, filter, IfOk};
ghost use Rattle.directory.specs.Homes.{home_of};
ghost use Rattle.directory.specs.Posting.{for_home, least_corner, post_of, posted_by, told};

use crate::cells::{least_corner, push_if};
use crate::homes::home;
use letters::Post;
use ma_cells::{Ascending, Label, Mark};
use ma_geom::{Memory, Place};
use part_store::Store;
use std::alloc::Global;

/// A number of tetrahedra, as a post tells it.
fn told(count: u64) -> u32
    ensures { result ≡ told count }
{
    count.min(u64::from(u32::MAX)) as u32
}

/// All that a part has to post, to whatever home, in n log n steps.
pub fn everything(alloc: Global, store: &Store) -> Result<Post, Memory>
    ensures { IfOk result (λ post. post ≡ posted_by store.now) }
{
    let places = store.own_corners(alloc)?;
    let marks = store.own_marks(alloc)?;
    Ok(Post {
        count: told(store.own_count()),
        places,
        marks,
    })
}

/// The places with one home.
fn places_for(
    alloc: Global,
    places: &Ascending<Place>,
    target: Label,
    j: u32,
    parts: u8,
) -> Result<Ascending<Place>, Memory>
    requires grid { j ≤ 30 }
    requires parts { 1 ≤ parts }
    ensures { IfOk result (λ kept. kept ≡ filter (λ x. home_of j parts x == target) places.now) }
{
    let mut kept = Vec::new(alloc);
    for place in places.as_slice() {
        push_if(&mut kept, *place, home(*place, j, parts) == target)?;
    }
    Ok(Ascending::from_vec(kept))
}

/// The marks whose least corner has one home.
fn marks_for(
    alloc: Global,
    marks: &Ascending<Mark>,
    target: Label,
    j: u32,
    parts: u8,
) -> Result<Ascending<Mark>, Memory>
    requires grid { j ≤ 30 }
    requires parts { 1 ≤ parts }
    ensures { IfOk result (λ kept. kept ≡ filter (λ mark. home_of j parts (least_corner mark.cell) == target) marks.now) }
{
    let mut kept = Vec::new(alloc);
    for mark in marks.as_slice() {
        let corner = least_corner(mark.cell());
        push_if(&mut kept, *mark, home(corner, j, parts) == target)?;
    }
    Ok(Ascending::from_vec(kept))
}

/// Of all that a part has to post what it posts to one home, in one walk over it.
pub fn for_home(alloc: Global, all: &Post, target: Label, j: u32, parts: u8) -> Result<Post, Memory>
    requires grid { j ≤ 30 }
    requires parts { 1 ≤ parts }
    ensures { IfOk result (λ post. post ≡ for_home (home_of j parts) target all.now) }
{
    let places = places_for(alloc, &all.places, target, j, parts)?;
    let marks = marks_for(alloc, &all.marks, target, j, parts)?;
    Ok(Post {
        count: all.count,
        places,
        marks,
    })
}

/// What a part posts to one home: how many tetrahedra it has, those of their corners that have this
/// home, and the marks on their cells whose least corner has it.
pub fn post(alloc: Global, store: &Store, target: Label, j: u32, parts: u8) -> Result<Post, Memory>
    requires grid { j ≤ 30 }
    requires parts { 1 ≤ parts }
    ensures { IfOk result (λ post. post ≡ post_of (home_of j parts) store.now target) }
{
    let all = everything(alloc, store)?;
    for_home(alloc, &all, target, j, parts)
}
