// Values that were worked out by hand.
use super::*;
use ma_geom::{Memory, Place};
use std::alloc::Global;

/// The place with these coordinates, or the origin where they are out of range.
fn place(x: i32, y: i32, z: i32) -> Place {
    match Place::new(x, y, z) {
        Some(place) => place,
        None => Place::default(),
    }
}

#[test]
fn edges_of_length_eight_are_long_below_sixteen_thirds_and_short_above_sixteen(rt: HostRuntime) {
    let (o, x) = (place(0, 0, 0), place(8, 0, 0));
    assert!(rt; SizeField::uniform(rt.alloc(), 5).is_long(o, x));
    assert!(rt; !SizeField::uniform(rt.alloc(), 6).is_long(o, x));
    assert!(rt; !SizeField::uniform(rt.alloc(), 16).is_short(o, x));
    assert!(rt; SizeField::uniform(rt.alloc(), 17).is_short(x, o));
}

#[test]
fn an_edge_of_three_halves_of_its_size_is_not_long(rt: HostRuntime) {
    let four = SizeField::uniform(rt.alloc(), 4);
    assert_eq!(rt; four.size_at(place(8, 0, 0)), 4);
    assert!(rt; !four.is_long(place(0, 0, 0), place(6, 0, 0)));
    assert!(rt; four.is_long(place(0, 0, 0), place(6, 1, 0)));
}

#[test]
fn an_edge_is_long_by_the_lesser_of_the_sizes_that_its_ends_were_given(
    rt: HostRuntime,
) -> Result<(), Memory> {
    let field = three_boxes(rt.alloc())?;
    let u = field.sized(place(5, 0, 0));
    assert!(rt; field.is_long_between(u, field.sized(place(10, 0, 0))));
    assert!(rt; field.is_long_between(field.sized(place(0, 5, 0)), u));
    assert!(rt; !field.is_long_between(u, field.sized(place(5, 4, 0))));
    assert!(rt; field.is_long_between(u, field.sized(place(1, 0, 0))));
    assert!(rt; !field.is_long_between(u, field.sized(place(9, 0, 0))));
    Ok(())
}

#[test]
fn the_longest_edge_is_told_from_the_greatest_size(rt: HostRuntime) {
    let g = 1 << 30;
    let greatest = SizeField::uniform(rt.alloc(), 1 << 30);
    let (low, high) = (place(-g, -g, -g), place(g, g, g));
    assert!(rt; greatest.is_long(low, high) && !greatest.is_short(low, high));
    assert!(rt; greatest.is_short(low, low));
}

#[test]
fn a_box_holds_its_corners_and_none_where_it_is_turned(rt: HostRuntime) {
    let (o, x) = (place(0, 0, 0), place(8, 0, 0));
    let edge = SizeBox::new(o, x, 3);
    assert_eq!(rt; edge.size(), 3);
    assert!(rt; edge.holds(o) && edge.holds(x) && edge.holds(place(4, 0, 0)));
    assert!(rt; !edge.holds(place(4, 1, 0)) && !edge.holds(place(9, 0, 0)));
    assert!(rt; !SizeBox::new(x, o, 3).holds(o));
}

/// A field of size 64 with boxes from the origin to 8, 4 and 8 along x, the second with size 2, and
/// a last one that is turned.
fn three_boxes(alloc: Global) -> Result<SizeField, Memory> {
    let (o, u, x) = (place(0, 0, 0), place(4, 0, 0), place(8, 0, 0));
    let mut field = SizeField::uniform(alloc, 64);
    field.push_box(SizeBox::new(o, x, 3))?;
    field.push_box(SizeBox::new(o, u, 2))?;
    field.push_box(SizeBox::new(x, o, 1))?;
    Ok(field)
}

fn sizes_on_x(field: &SizeField) -> [u32; 4] {
    [
        field.size_at(place(0, 0, 0)),
        field.size_at(place(5, 0, 0)),
        field.size_at(place(8, 0, 0)),
        field.size_at(place(9, 0, 0)),
    ]
}

#[test]
fn the_last_box_decides_with_an_index_and_without(rt: HostRuntime) -> Result<(), Memory> {
    let mut field = three_boxes(rt.alloc())?;
    assert!(rt; sizes_on_x(&field) == [2, 3, 3, 64]);
    field.index_boxes(rt.alloc())?;
    assert!(rt; sizes_on_x(&field) == [2, 3, 3, 64]);
    let mut copy = field.copy(rt.alloc())?;
    assert!(rt; sizes_on_x(&copy) == [2, 3, 3, 64]);
    copy.push_box(SizeBox::new(place(9, 0, 0), place(9, 0, 0), 7))?;
    assert!(rt; sizes_on_x(&copy) == [2, 3, 3, 7]);
    Ok(())
}
