// The bodies of letters by phase, and the places in them.
ghost use Rattle.std.specs.Prelude.{◌≡◌, ◌≤◌, ◌++◌, ◌∷◌, [], map};
ghost use Rattle.ma_cells.specs.Cells.{corners_of};
ghost use Rattle.ma_cells.specs.Grid.{is_multiple, is_on_grid};
ghost use Rattle.part_rules.specs.Bodies.{first_off, is_of_phase, mark_places, operation_places, places_of, tet_places};

use cavity_rank::Operation;
use letters::{Body, Post, Reply, Shared};
use ma_cells::{Batch, Cell, Mark, Tet};
use ma_geom::Place;

/// Whether a body is of the kind that letters of a phase have. Takes no memory.
pub fn is_of_phase(phase: u32, body: &Body) -> bool
    ensures { result ≡ is_of_phase phase body.now }
{
    match body {
        Body::Post(_) => phase == 0,
        Body::Reply(_) => phase == 1,
        Body::Ghosts(_) => phase == 2,
        _ => false,
    }
}

#[tactic(auto, unfolding(ma_cells::specs::Grid::is_multiple))]
fn is_multiple(exponent: u32, coordinate: i32) -> bool
    requires { exponent ≤ 30 }
    ensures { result ≡ is_multiple exponent coordinate }
{
    coordinate.unsigned_abs() % (1 << exponent) == 0
}

fn is_on_grid(exponent: u32, place: Place) -> bool
    requires { exponent ≤ 30 }
    ensures { result ≡ is_on_grid exponent place }
{
    is_multiple(exponent, place.x())
        && is_multiple(exponent, place.y())
        && is_multiple(exponent, place.z())
}

/// The first of some places that isn't on the grid.
fn place_off(exponent: u32, places: &[Place]) -> Option<Place>
    requires { exponent ≤ 30 }
    ensures { result ≡ first_off exponent places.now }
{
    for place in places {
        if !is_on_grid(exponent, *place) {
            return Some(*place);
        }
    }
    None
}

fn shared_off(exponent: u32, shared: &[Shared]) -> Option<Place>
    requires { exponent ≤ 30 }
    ensures { result ≡ first_off exponent (map (λ s. s.place) shared.now) }
{
    for place in shared {
        if !is_on_grid(exponent, place.place()) {
            return Some(place.place());
        }
    }
    None
}

fn tet_off(exponent: u32, tets: &[Tet]) -> Option<Place>
    requires { exponent ≤ 30 }
    ensures { result ≡ first_off exponent (tet_places tets.now) }
{
    for tet in tets {
        match place_off(exponent, &tet.corners()) {
            Some(place) => return Some(place),
            None => {}
        }
    }
    None
}

fn cell_off(exponent: u32, cell: Cell) -> Option<Place>
    requires { exponent ≤ 30 }
    ensures { result ≡ first_off exponent (corners_of cell) }
{
    match cell {
        Cell::Point(place) => place_off(exponent, &[place]),
        Cell::Seg(ends) => place_off(exponent, &ends),
        Cell::Tri(corners) => place_off(exponent, &corners),
    }
}

fn mark_off(exponent: u32, marks: &[Mark]) -> Option<Place>
    requires { exponent ≤ 30 }
    ensures { result ≡ first_off exponent (mark_places marks.now) }
{
    for mark in marks {
        match cell_off(exponent, mark.cell()) {
            Some(place) => return Some(place),
            None => {}
        }
    }
    None
}

#[tactic(auto, using(crate::proofs::FirstOff::off_first, crate::proofs::FirstOff::off_behind))]
fn spot_off(exponent: u32, op: &Operation) -> Option<Place>
    requires { exponent ≤ 30 }
    ensures { result ≡ first_off exponent (op.now.at ++ op.now.apex ∷ []) }
{
    match place_off(exponent, op.at()) {
        Some(place) => Some(place),
        None => place_off(exponent, &[op.apex()]),
    }
}

fn operation_off(exponent: u32, ops: &[Operation]) -> Option<Place>
    requires { exponent ≤ 30 }
    ensures { result ≡ first_off exponent (operation_places ops.now) }
{
    for op in ops {
        match spot_off(exponent, op) {
            Some(place) => return Some(place),
            None => {}
        }
    }
    None
}

#[tactic(auto, using(crate::proofs::FirstOff::off_first, crate::proofs::FirstOff::off_behind))]
fn batch_off(exponent: u32, batch: &Batch) -> Option<Place>
    requires { exponent ≤ 30 }
    ensures { result ≡ first_off exponent (tet_places batch.now.tets ++ mark_places batch.now.marks) }
{
    match tet_off(exponent, batch.tets.as_slice()) {
        Some(place) => Some(place),
        None => mark_off(exponent, batch.marks.as_slice()),
    }
}

#[tactic(auto, using(crate::proofs::FirstOff::off_first, crate::proofs::FirstOff::off_behind))]
fn post_off(exponent: u32, post: &Post) -> Option<Place>
    requires { exponent ≤ 30 }
    ensures { result ≡ first_off exponent (post.now.places ++ mark_places post.now.marks) }
{
    match place_off(exponent, post.places.as_slice()) {
        Some(place) => Some(place),
        None => mark_off(exponent, post.marks.as_slice()),
    }
}

#[tactic(auto, using(crate::proofs::FirstOff::off_first, crate::proofs::FirstOff::off_behind))]
fn reply_off(exponent: u32, reply: &Reply) -> Option<Place>
    requires { exponent ≤ 30 }
    ensures { result ≡ first_off exponent (map (λ s. s.place) reply.now.shared ++ mark_places reply.now.marks) }
{
    match shared_off(exponent, reply.shared.as_slice()) {
        Some(place) => Some(place),
        None => mark_off(exponent, reply.marks.as_slice()),
    }
}

/// The first place in a body, in the order of its spelling, that isn't on the grid of 2^`exponent`.
/// Takes no memory.
pub fn first_off(exponent: u32, body: &Body) -> Option<Place>
    requires { exponent ≤ 30 }
    ensures { result ≡ first_off exponent (places_of body.now) }
{
    match body {
        Body::Post(post) => post_off(exponent, post),
        Body::Reply(reply) => reply_off(exponent, reply),
        Body::Ghosts(batch) => batch_off(exponent, batch),
        Body::Propose(ops) => operation_off(exponent, ops.as_slice()),
        Body::Vote(ops) => operation_off(exponent, ops.as_slice()),
        Body::Order(ops) => operation_off(exponent, ops.as_slice()),
        Body::Deliver(batch) => batch_off(exponent, batch),
    }
}
