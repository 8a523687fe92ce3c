// Values that were worked out by hand.
ghost use Rattle.std.specs.Prelude.{◌≤◌};

use super::*;
use letters::{Body, Post};
use ma_cells::{Ascending, Cell, Mark};
use ma_geom::{Memory, Place};
use std::alloc::Global;

fn at(x: u8, y: u8, z: u8) -> Place {
    match Place::new(i32::from(x), i32::from(y), i32::from(z)) {
        Some(place) => place,
        None => Place::default(),
    }
}

/// A post of two places and a mark on a third.
fn post(alloc: Global) -> Result<Body, Memory> {
    let places = Vec::from_slice(alloc, &[at(0, 4, 0), at(8, 0, 0)])?;
    let marks = Vec::from_slice(alloc, &[Mark::new(Cell::Point(at(0, 0, 2)), 0, 1)])?;
    Ok(Body::Post(Post {
        count: 1,
        places: Ascending::gather(places),
        marks: Ascending::gather(marks),
    }))
}

fn is_off(body: &Body, exponent: u32, place: Place) -> bool
    requires { exponent ≤ 30 }
{
    first_off(exponent, body) == Some(place)
}

fn is_found(alloc: Global) -> Result<bool, Memory> {
    let body = post(alloc)?;
    Ok(
        is_off(&body, 3, at(0, 4, 0))
            && is_off(&body, 2, at(0, 0, 2))
            && first_off(1, &body).is_none(),
    )
}

#[test]
fn the_first_place_off_the_grid_is_one_of_the_places_before_those_of_marks(rt: HostRuntime) {
    assert!(rt; is_found(rt.alloc()) == Ok(true));
}

fn is_of_its_phase(alloc: Global) -> Result<bool, Memory> {
    let body = post(alloc)?;
    Ok(is_of_phase(0, &body) && !is_of_phase(1, &body))
}

#[test]
fn a_post_belongs_to_the_first_phase(rt: HostRuntime) {
    assert!(rt; is_of_its_phase(rt.alloc()) == Ok(true));
}
