// Meshes that were worked out by hand.
use super::*;
use arrayvec::ArrayVec;
use ma_cells::{Cell, Mesh};
use ma_geom::Place;
use msh_read::{RawMark, RawMesh, RawTet};
use std::alloc::Global;
use std::test::Fail;

fn place(x: i32, y: i32, z: i32) -> Result<Place, Fail> {
    Ok(Place::new(x, y, z).ok_or("a coordinate is out of range")?)
}

/// The origin, and the places at 8 on the axes x, y and z.
fn corners() -> Result<[Place; 4], Fail> {
    Ok([
        place(0, 0, 0)?,
        place(8, 0, 0)?,
        place(0, 8, 0)?,
        place(0, 0, 8)?,
    ])
}

fn tet(at: [u32; 4], phys: i32, elem: i32) -> RawTet {
    RawTet { at, phys, elem }
}

fn line(a: u32, b: u32) -> RawMark {
    let mut at = ArrayVec::new();
    at.push(a);
    at.push(b);
    RawMark {
        at,
        phys: 0,
        elem: 7,
    }
}

/// The mesh with these nodes and tetrahedra, and no marks.
fn bare(alloc: Global, nodes: [Place; 4], tets: Vec<RawTet>) -> Result<RawMesh, Fail> {
    Ok(RawMesh {
        nodes: Vec::from_slice(alloc, &nodes)?,
        tets,
        marks: Vec::new(alloc),
        names: Vec::new(alloc),
    })
}

/// The mesh with these corners and a fifth node.
fn raw(alloc: Global, fifth: Place, tets: &[RawTet], marks: Vec<RawMark>) -> Result<RawMesh, Fail> {
    let mut nodes = Vec::from_slice(alloc, &corners()?)?;
    nodes.push(fifth)?;
    Ok(RawMesh {
        nodes,
        tets: Vec::from_slice(alloc, tets)?,
        marks,
        names: Vec::new(alloc),
    })
}

/// How many marks are on triangles, how many are on segments, and how many are loose.
fn counts(mesh: &Mesh) -> (u32, u32, u64) {
    let mut triangles: u32 = 0;
    let mut segments: u32 = 0;
    for mark in mesh.marks() {
        match mark.cell() {
            Cell::Tri(_) => triangles = triangles.saturating_add(1),
            Cell::Seg(_) => segments = segments.saturating_add(1),
            Cell::Point(_) => {}
        }
    }
    (triangles, segments, mesh.loose())
}

/// The fault of the mesh with this fifth node, if it has one.
fn fault(
    alloc: Global,
    fifth: Place,
    tets: &[RawTet],
    shift: u32,
) -> Result<Option<MeshFault>, Fail> {
    let mesh = raw(alloc, fifth, tets, Vec::new(alloc))?;
    if shift > 30 {
        return Err("the shift is too great".into());
    }
    Ok(accept(alloc, &mesh, shift).err())
}

#[test]
fn each_fault_names_the_least_positions(rt: HostRuntime) -> Result<(), Fail> {
    use MeshFault::*;
    let whole = tet([0, 1, 2, 3], 0, 1);
    let other = tet([0, 1, 2, 4], 0, 1);
    let turned = tet([3, 2, 1, 0], 5, 6);
    let level = place(8, 8, 0)?;
    let again = place(0, 8, 0)?;
    let rows: [(Place, &[RawTet], u32, Option<MeshFault>); 8] = [
        (level, &[whole], 0, None),
        (again, &[whole], 0, None),
        (level, &[], 0, Some(NoTets)),
        (again, &[other], 0, Some(SamePlace(3, 5))),
        (level, &[other], 0, Some(Flat(1))),
        (level, &[whole, other], 0, Some(Flat(2))),
        (level, &[whole, turned], 0, Some(Repeated(1, 2))),
        (level, &[whole, turned, other], 0, Some(Flat(3))),
    ];
    for (fifth, tets, shift, expected) in rows {
        assert!(rt; fault(rt.alloc(), fifth, tets, shift)? == expected);
    }
    Ok(())
}

#[test]
fn the_second_node_is_too_far_after_a_shift_by_1(rt: HostRuntime) -> Result<(), Fail> {
    let [o, _, y, z] = corners()?;
    let nodes = [o, place(1_073_741_824, 0, 0)?, y, z];
    let mesh = bare(
        rt.alloc(),
        nodes,
        vec![in rt.alloc(); tet([0, 1, 2, 3], 0, 1)]?,
    )?;
    assert!(rt; accept(rt.alloc(), &mesh, 0).is_ok());
    assert!(rt; accept(rt.alloc(), &mesh, 1).err() == Some(MeshFault::TooFar(2)));
    Ok(())
}

#[test]
fn more_than_200_000_tetrahedra_are_too_many(rt: HostRuntime) -> Result<(), Fail> {
    let tets = vec![in rt.alloc(); tet([0, 1, 2, 3], 0, 1); 200_001]?;
    let mesh = bare(rt.alloc(), corners()?, tets)?;
    assert!(rt; accept(rt.alloc(), &mesh, 0).err() == Some(MeshFault::TooManyTets(200_001)));
    Ok(())
}

#[test]
fn a_tetrahedron_alone_has_its_four_faces_marked(rt: HostRuntime) -> Result<(), Fail> {
    let mesh = raw(
        rt.alloc(),
        place(8, 8, 0)?,
        &[tet([3, 2, 1, 0], 5, 6)],
        Vec::new(rt.alloc()),
    )?;
    let mesh = accept(rt.alloc(), &mesh, 1)
        .ok()
        .ok_or("the mesh is refused")?;
    assert!(rt; counts(&mesh) == (4, 0, 0));
    for mark in mesh.marks() {
        assert!(rt; (mark.phys(), mark.elem()) == (0, 0));
    }
    let corners = [
        place(0, 0, 0)?,
        place(0, 0, 16)?,
        place(0, 16, 0)?,
        place(16, 0, 0)?,
    ];
    for tet in mesh.tets() {
        assert!(rt; tet.corners() == corners);
        assert!(rt; (tet.phys(), tet.elem()) == (5, 6));
    }
    Ok(())
}

#[test]
fn tetrahedra_one_of_which_is_in_the_other_overlap(rt: HostRuntime) -> Result<(), Fail> {
    let tets = [tet([0, 1, 2, 3], 0, 1), tet([1, 2, 3, 4], 0, 1)];
    let found = fault(rt.alloc(), place(1, 1, 1)?, &tets, 0)?;
    assert!(rt; found == Some(MeshFault::Overlap(1, 2)));
    Ok(())
}

#[test]
fn a_face_between_two_regions_is_marked(rt: HostRuntime) -> Result<(), Fail> {
    let fifth = place(8, 8, 8)?;
    for (elem, expected) in [(1, (6, 0, 0)), (2, (7, 0, 0))] {
        let tets = [tet([0, 1, 2, 3], 0, 1), tet([1, 2, 3, 4], 0, elem)];
        let mesh = raw(rt.alloc(), fifth, &tets, Vec::new(rt.alloc()))?;
        let mesh = accept(rt.alloc(), &mesh, 0)
            .ok()
            .ok_or("the mesh is refused")?;
        assert!(rt; counts(&mesh) == expected);
    }
    Ok(())
}

#[test]
fn lines_on_edges_are_kept_and_others_are_loose(rt: HostRuntime) -> Result<(), Fail> {
    let tets = [tet([0, 4, 2, 3], 0, 1), tet([4, 1, 2, 3], 0, 1)];
    let halves = vec![in rt.alloc(); line(0, 4), line(4, 1), line(1, 4)]?;
    let whole = vec![in rt.alloc(); line(0, 1), line(4, 1), line(0, 1)]?;
    let middle = place(4, 0, 0)?;
    for (marks, expected) in [(halves, (6, 2, 0)), (whole, (6, 1, 2))] {
        let mesh = raw(rt.alloc(), middle, &tets, marks)?;
        let mesh = accept(rt.alloc(), &mesh, 0)
            .ok()
            .ok_or("the mesh is refused")?;
        assert!(rt; counts(&mesh) == expected);
    }
    Ok(())
}

#[test]
fn the_grid_of_a_side_of_8_is_3_and_grows_with_the_shift(rt: HostRuntime) -> Result<(), Fail> {
    let fifth = place(1, 0, 0)?;
    let tets = [tet([0, 1, 2, 3], 0, 1)];
    for (shift, expected) in [(0, 3), (1, 4), (27, 30)] {
        let mesh = raw(rt.alloc(), fifth, &tets, Vec::new(rt.alloc()))?;
        let mesh = accept(rt.alloc(), &mesh, shift)
            .ok()
            .ok_or("the mesh is refused")?;
        assert_eq!(rt; grid(&mesh), expected);
    }
    Ok(())
}
