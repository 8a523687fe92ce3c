// Values that were worked out by hand, in the tetrahedra with the corners O U Y Z and U X Y Z.
use super::*;
use ma_cells::Tet;
use ma_geom::Place;
use std::test::Fail;

const O: [i32; 3] = [0, 0, 0];

const U: [i32; 3] = [4, 0, 0];

const X: [i32; 3] = [8, 0, 0];

const Y: [i32; 3] = [0, 8, 0];

const Z: [i32; 3] = [0, 0, 8];

fn place(c: [i32; 3]) -> Result<Place, Fail> {
    Ok(Place::new(c[0], c[1], c[2]).ok_or("a coordinate is out of range")?)
}

fn tet(corners: [[i32; 3]; 4]) -> Result<Tet, Fail> {
    let [a, b, c, d] = corners;
    let places = [place(a)?, place(b)?, place(c)?, place(d)?];
    Ok(Tet::new(places, 0, 1).ok_or("the corners are flat")?)
}

fn found(tets: &[Tet], at: [i64; 3], w: u32) -> Result<Found, Fail> {
    Ok(locate(
        tets,
        &Spot::new(at[0], at[1], at[2], w).ok_or("a spot is out of range")?,
    ))
}

#[test]
fn points_lie_within_on_faces_or_outside(rt: HostRuntime) -> Result<(), Fail> {
    let pair = [tet([O, U, Y, Z])?, tet([U, X, Y, Z])?];
    for (at, w, want) in [
        ([1, 1, 1], 1, Found::One(0)),
        ([4, 1, 1], 1, Found::One(1)),
        ([2, 2, 2], 1, Found::Face),
        ([9, 9, 9], 1, Found::Outside),
        // Half a step from O.
        ([1, 1, 1], 2, Found::One(0)),
        // On the face of U, Y and Z.
        ([4, 4, 4], 2, Found::Face),
        // Just off that face.
        ([21, 20, 20], 10, Found::One(1)),
        // In the plane z = 0, and beyond the edge from X to Y.
        ([5, 5, 0], 1, Found::Outside),
        // On the edge from O to Z, and at the corner X.
        ([0, 0, 3], 2, Found::Face),
        ([8, 0, 0], 1, Found::Face),
    ] {
        assert_eq!(rt; found(&pair, at, w)?, want, "at {at:?} / {w}");
    }
    Ok(())
}

#[test]
fn of_overlapping_tetrahedra_the_first_two_are_named(rt: HostRuntime) -> Result<(), Fail> {
    let far = tet([[20, 0, 0], [24, 0, 0], [20, 8, 0], [20, 0, 8]])?;
    let (whole, half) = (tet([O, X, Y, Z])?, tet([O, U, Y, Z])?);
    let tets = [far, whole, far, half];
    assert_eq!(rt; found(&tets, [1, 1, 1], 1)?, Found::Many(1, 3));
    assert_eq!(rt; found(&tets, [4, 1, 1], 1)?, Found::One(1));
    Ok(())
}

#[test]
fn spots_are_in_range(rt: HostRuntime) {
    assert!(rt; Spot::new(1 << 50, 0, -(1 << 50), 1 << 20).is_some());
    assert!(rt; Spot::new((1 << 50) + 1, 0, 0, 1).is_none());
    assert!(rt; Spot::new(0, 0, 0, 0).is_none());
    assert!(rt; Spot::new(0, 0, 0, (1 << 20) + 1).is_none());
}
