// Values that were worked out by hand.
use super::*;
use vectors::Vector;

const GREATEST: i32 = 1 << 30;

/// The place with these coordinates, or the origin where they are out of range.
fn place(x: i32, y: i32, z: i32) -> Place {
    match Place::new(x, y, z) {
        Some(place) => place,
        None => Place::default(),
    }
}

#[test]
fn the_range_of_a_place_ends_at_two_to_the_thirty(rt: HostRuntime) {
    let corner = place(GREATEST, -GREATEST, 7);
    assert_eq!(rt;
        (corner.x(), corner.y(), corner.z()),
        (GREATEST, -GREATEST, 7)
    );
    assert!(rt; Place::new(GREATEST + 1, 0, 0).is_none());
    assert!(rt; Place::new(0, -GREATEST - 1, 0).is_none());
    assert!(rt; Place::new(0, 0, i32::MIN).is_none());
}

#[test]
fn places_are_ordered_by_x_then_y_then_z(rt: HostRuntime) {
    assert!(rt; place(0, 9, 9) < place(1, 0, 0));
    assert!(rt; place(1, 0, 9) < place(1, 1, 0));
    assert!(rt; place(1, 1, -1) < place(1, 1, 0));
}

#[test]
fn volumes_are_exact_and_change_their_sign_with_the_order(rt: HostRuntime) {
    let g = GREATEST;
    let low = place(-g, -g, -g);
    let (x, y, z) = (place(g, -g, -g), place(-g, g, -g), place(-g, -g, g));
    assert_eq!(rt; vol6(low, x, y, z), 9903520314283042199192993792i128);
    assert_eq!(rt; vol6(low, x, z, y), -9903520314283042199192993792i128);
    assert_eq!(rt; vol6(low, x, y, y), 0i128);
}

#[test]
fn a_cross_product_is_exact_at_the_ends_of_the_range(rt: HostRuntime) {
    let g = GREATEST;
    let falling = Vector::from_to(place(0, -g, g), place(0, g, -g));
    let rising = Vector::from_to(place(0, -g, -g), place(0, g, g));
    let form = falling.cross(&rising);
    assert!(rt; !form.is_zero() && rising.cross(&rising).is_zero());
    assert_eq!(rt; form.at(place(1, g, g)), 9223372036854775808i128);
    assert_eq!(rt; form.along(&rising), 0i128);
    assert_eq!(rt; falling.dot(&rising), 0i128);
}

#[test]
fn the_greatest_squared_distance_is_exact(rt: HostRuntime) {
    let g = GREATEST;
    let (low, high) = (place(-g, -g, -g), place(g, g, g));
    assert_eq!(rt; len2(low, high), 13835058055282163712i128);
    assert_eq!(rt; squared_length(low, high), 13835058055282163712u64);
    assert_eq!(rt; len2(place(1, 2, 3), place(2, 0, 6)), 14i128);
}

#[test]
fn a_midpoint_needs_three_even_sums(rt: HostRuntime) {
    let a = place(8, 0, -3);
    assert_eq!(rt; midpoint(a, place(0, 8, -5)), Some(place(4, 4, -4)));
    assert_eq!(rt; midpoint(a, place(1, 8, -5)), None);
    assert_eq!(rt; midpoint(a, place(0, -7, -5)), None);
    assert_eq!(rt; midpoint(a, place(0, 8, 0)), None);
}

#[test]
fn a_place_is_on_one_side_of_a_face_or_in_its_plane(rt: HostRuntime) {
    let face = [place(0, 0, 0), place(8, 0, 0), place(0, 8, 0)];
    assert_eq!(rt; side(face, place(1, 1, 1)), Sign::Plus);
    assert_eq!(rt; side(face, place(1, 1, -1)), Sign::Minus);
    assert_eq!(rt; side(face, place(90, -90, 0)), Sign::Zero);
    assert!(rt; coplanar(face[0], face[1], face[2], place(90, -90, 0)));
}

#[test]
fn a_place_is_between_two_others_on_their_line(rt: HostRuntime) {
    let (c, a, v) = (place(0, 0, 0), place(2, 4, 6), place(3, 6, 9));
    assert!(rt; collinear(c, a, v) && !collinear(c, a, place(3, 6, 8)));
    assert!(rt; between(c, a, v) && !between(a, c, v));
    assert!(rt; !between(c, c, v) && !between(c, a, c));
    assert!(rt; !between(c, place(2, 4, 5), v));
}

#[test]
fn triangles_turn_the_same_way_by_all_three_signs(rt: HostRuntime) {
    let (o, x, y) = (place(0, 0, 0), place(8, 0, 0), place(0, 8, 1));
    let tilted = [place(5, 5, 5), place(6, 5, 5), place(5, 7, 9)];
    let level = [o, x, place(0, 8, 0)];
    let on_a_line = [o, place(1, 1, 1), place(2, 2, 2)];
    assert!(rt; same_turn([o, x, y], tilted) && !same_turn([o, y, x], tilted));
    assert!(rt; same_turn(level, level) && !same_turn([o, x, y], level));
    assert!(rt; !same_turn(on_a_line, on_a_line));
}

/// The quality of a tetrahedron that isn't flat.
fn quality_of(a: Place, b: Place, c: Place, d: Place) -> Option<u32> {
    if coplanar(a, b, c, d) {
        None
    } else {
        Some(quality([a, b, c, d]))
    }
}

#[test]
fn qualities_are_those_worked_out_by_hand(rt: HostRuntime) {
    let (o, x, y, z) = (
        place(0, 0, 0),
        place(12, 0, 0),
        place(0, 12, 0),
        place(0, 0, 12),
    );
    assert_eq!(rt; quality_of(o, x, y, z), Some(402653184));
    assert_eq!(rt; quality_of(place(8, 0, 0), x, y, z), Some(134217728));
    assert_eq!(rt;
        quality_of(o, place(8, 8, 8), place(8, 8, 0), place(8, 0, 8)),
        Some(220254733)
    );
    assert_eq!(rt;
        quality_of(o, place(1, 1, 0), place(1, 0, 1), place(0, 1, 1)),
        Some(1 << 30)
    );
}
