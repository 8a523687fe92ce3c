// Texts that were written down by hand.
use super::*;
use ma_cells::{Batch, Cell, Mark, Tet, View};
use ma_geom::{Memory, Place};
use msh_read::Name;
use std::alloc::Global;
use std::test::Fail;

fn place(x: i32, y: i32, z: i32) -> Result<Place, Fail> {
    Ok(Place::new(x, y, z).ok_or("a coordinate is out of range")?)
}

fn tet(corners: [Place; 4], phys: i32, elem: i32) -> Result<Tet, Fail> {
    Ok(Tet::new(corners, phys, elem).ok_or("flat")?)
}

fn mark(corners: &[Place], phys: i32, elem: i32) -> Result<Mark, Fail> {
    match Cell::new(corners) {
        Some(cell) => Ok(Mark::new(cell, phys, elem)),
        None => Err("no cell".into()),
    }
}

/// A tetrahedron at the origin, and another on its face away from it.
#[derive(Clone, Copy)]
struct Places {
    o: Place,
    x: Place,
    y: Place,
    z: Place,
    w: Place,
    inner: Tet,
    outer: Tet,
}

fn two_tetrahedra() -> Result<Places, Fail> {
    let (o, x, y, z, w) = (
        place(0, 0, 0)?,
        place(8, 0, 0)?,
        place(0, 8, 0)?,
        place(0, 0, 8)?,
        place(8, 8, 8)?,
    );
    Ok(Places {
        o,
        x,
        y,
        z,
        w,
        inner: tet([o, x, y, z], 0, 1)?,
        outer: tet([x, y, z, w], 0, 1)?,
    })
}

fn union_text(
    alloc: Global,
    tets: &[Tet],
    marks: &[Mark],
    names: &[Name],
) -> Result<Vec<u8>, Fail> {
    let mesh = Batch::gather(
        Vec::from_slice(alloc, tets)?,
        Vec::from_slice(alloc, marks)?,
    )?;
    Ok(write_union(alloc, &mesh, names)?)
}

fn part_text(alloc: Global, view: &View) -> Result<Vec<u8>, Fail> {
    Ok(write_part(alloc, view, &[])?)
}

#[test]
fn names_and_marks_stand_before_tetrahedra(rt: HostRuntime) -> Result<(), Fail> {
    let at = two_tetrahedra()?;
    let names = [
        Name {
            dimension: 1,
            number: -5,
            text: Vec::from_slice(rt.alloc(), b"an edge")?,
        },
        Name {
            dimension: 3,
            number: 0,
            text: Vec::from_slice(rt.alloc(), b"")?,
        },
    ];
    let marks = [
        mark(&[at.o, at.x], 0, 5)?,
        mark(&[at.o, at.x], 0, 0)?,
        mark(&[at.y], -1, 0)?,
    ];
    let written = union_text(rt.alloc(), &[at.inner], &marks, &names)?;
    let wanted = b"$MeshFormat
2.2 0 8
$EndMeshFormat
$PhysicalNames
2
1 -5 \"an edge\"
3 0 \"\"
$EndPhysicalNames
$Nodes
4
1 0 0 0
2 0 0 8
3 0 8 0
4 8 0 0
$EndNodes
$Elements
3
1 15 2 -1 0 3
2 1 2 0 5 1 4
3 4 2 0 1 1 2 4 3
$EndElements
";
    assert_eq!(rt; written.as_slice(), wanted.as_slice());
    Ok(())
}

#[test]
fn the_nodes_are_the_corners_in_order(rt: HostRuntime) -> Result<(), Fail> {
    let at = two_tetrahedra()?;
    let nodes = nodes_of(rt.alloc(), &[at.outer, at.inner])?;
    assert!(rt; nodes.as_slice() == [at.o, at.z, at.y, at.x, at.w].as_slice());
    Ok(())
}

#[test]
fn a_part_without_tetrahedra_has_two_empty_sections(rt: HostRuntime) -> Result<(), Fail> {
    let (own, ghosts, marks) = (
        Vec::new(rt.alloc()),
        Vec::new(rt.alloc()),
        Vec::new(rt.alloc()),
    );
    let written = part_text(rt.alloc(), &View::gather(1, own, ghosts, marks))?;
    let wanted = b"$MeshFormat
2.2 0 8
$EndMeshFormat
$Nodes
0
$EndNodes
$Elements
0
$EndElements
";
    assert_eq!(rt; written.as_slice(), wanted.as_slice());
    Ok(())
}

#[test]
fn a_ghost_tells_its_part_and_the_part_that_sees_it(rt: HostRuntime) -> Result<(), Fail> {
    let at = two_tetrahedra()?;
    let own = vec![in rt.alloc(); at.outer]?;
    let ghosts = vec![in rt.alloc(); (at.inner, 0)]?;
    let written = part_text(
        rt.alloc(),
        &View::gather(1, own, ghosts, Vec::new(rt.alloc())),
    )?;
    let wanted = b"$MeshFormat
2.2 0 8
$EndMeshFormat
$Nodes
5
1 0 0 0
2 0 0 8
3 0 8 0
4 8 0 0
5 8 8 8
$EndNodes
$Elements
2
1 4 5 0 1 2 1 -2 1 2 4 3
2 4 4 0 1 1 2 2 3 5 4
$EndElements
";
    assert_eq!(rt; written.as_slice(), wanted.as_slice());
    Ok(())
}

#[test]
fn marks_tell_the_parts_around_them(rt: HostRuntime) -> Result<(), Fail> {
    let at = two_tetrahedra()?;
    let marks = vec![in rt.alloc();
        mark(&[at.x, at.y, at.z], 2, 0)?,
        mark(&[at.y, at.w], 0, 9)?,
        mark(&[at.x, at.w], 0, 0)?,
        mark(&[at.y], 3, 4)?,
        mark(&[at.o], 0, 7)?,
    ]?;
    let own = vec![in rt.alloc(); at.outer]?;
    let ghosts = vec![in rt.alloc(); (at.inner, 0)]?;
    let written = part_text(rt.alloc(), &View::gather(1, own, ghosts, marks))?;
    let wanted = b"$MeshFormat
2.2 0 8
$EndMeshFormat
$Nodes
5
1 0 0 0
2 0 0 8
3 0 8 0
4 8 0 0
5 8 8 8
$EndNodes
$Elements
6
1 15 2 0 7 1
2 15 5 3 4 2 1 2 3
3 1 4 0 9 1 2 3 5
4 2 5 2 0 2 1 2 2 3 4
5 4 5 0 1 2 1 -2 1 2 4 3
6 4 4 0 1 1 2 2 3 5 4
$EndElements
";
    assert_eq!(rt; written.as_slice(), wanted.as_slice());
    Ok(())
}
