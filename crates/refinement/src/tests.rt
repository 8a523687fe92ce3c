// Values that were worked out by hand.
use super::*;
use ma_cells::{Ascending, Batch, Cell, Mark, Tet};
use ma_geom::Place;
use size_marks::SizeField;
use std::alloc::Global;
use std::test::Fail;

fn place(x: i32, y: i32, z: i32) -> Result<Place, Fail> {
    Ok(Place::new(x, y, z).ok_or("a coordinate is out of range")?)
}

fn mark(corners: &[Place], elem: i32) -> Result<Mark, Fail> {
    match Cell::new(corners) {
        Some(cell) => Ok(Mark::new(cell, 0, elem)),
        None => Err("the corners are no cell".into()),
    }
}

/// The origin, and the places at 8 on the axes z, y and x.
fn corners() -> Result<[Place; 4], Fail> {
    Ok([
        place(0, 0, 0)?,
        place(0, 0, 8)?,
        place(0, 8, 0)?,
        place(8, 0, 0)?,
    ])
}

/// The middles of the edges between these, in the order 01, 02, 03, 12, 13, 23.
fn middles() -> Result<[Place; 6], Fail> {
    Ok([
        place(0, 0, 4)?,
        place(0, 4, 0)?,
        place(4, 0, 0)?,
        place(0, 4, 4)?,
        place(4, 0, 4)?,
        place(4, 4, 0)?,
    ])
}

/// What becomes of the tetrahedron of the corners with these marks.
fn refined_by(alloc: Global, field: &SizeField, marks: Vec<Mark>) -> Result<Batch, Fail> {
    let tet = Tet::new(corners()?, 0, 1).ok_or("the corners are flat")?;
    let mesh = Batch {
        tets: Ascending::gather(vec![in alloc; tet]?),
        marks: Ascending::gather(marks),
    };
    Ok(refined(alloc, &mesh, field)?)
}

fn pieces(alloc: Global, mesh: &Batch) -> Result<Vec<[Place; 4]>, Fail> {
    let mut pieces = Vec::new(alloc);
    for tet in mesh.tets.as_slice() {
        pieces.push(tet.corners())?;
    }
    Ok(pieces)
}

fn cells_of_marks(alloc: Global, mesh: &Batch) -> Result<Vec<(Cell, i32)>, Fail> {
    let mut cells = Vec::new(alloc);
    for mark in mesh.marks.as_slice() {
        cells.push((mark.cell(), mark.elem()))?;
    }
    Ok(cells)
}

#[test]
fn marks_are_cut_with_the_tetrahedron_but_no_triangle_on_one_line(
    rt: HostRuntime,
) -> Result<(), Fail> {
    let [o, z, y, x] = corners()?;
    let [_, _, ox, zy, zx, yx] = middles()?;
    let marks = vec![in rt.alloc();
        mark(&[x, y, z], 9)?,
        mark(&[o, ox, x], 9)?,
        mark(&[o, x], 5)?,
        mark(&[o], 3)?,
    ]?;
    let mesh = refined_by(rt.alloc(), &SizeField::uniform(rt.alloc(), 4), marks)?;
    assert_eq!(rt;
        cells_of_marks(rt.alloc(), &mesh)?.as_slice(),
        [
            (Cell::Point(o), 3),
            (Cell::Seg([o, ox]), 5),
            (Cell::Seg([ox, x]), 5),
            (Cell::Tri([o, ox, x]), 9),
            (Cell::Tri([z, zy, zx]), 9),
            (Cell::Tri([zy, y, yx]), 9),
            (Cell::Tri([zy, zx, x]), 9),
            (Cell::Tri([zy, yx, x]), 9),
        ]
        .as_slice()
    );
    Ok(())
}

#[test]
fn a_mesh_without_long_edges_stays(rt: HostRuntime) -> Result<(), Fail> {
    let [o, z, y, x] = corners()?;
    let marks = vec![in rt.alloc(); mark(&[x, y, z], 7)?]?;
    // An edge of 12 would be the longest that isn't long.
    let mesh = refined_by(rt.alloc(), &SizeField::uniform(rt.alloc(), 8), marks)?;
    assert_eq!(rt;
        pieces(rt.alloc(), &mesh)?.as_slice(),
        [[o, z, y, x]].as_slice()
    );
    assert_eq!(rt;
        cells_of_marks(rt.alloc(), &mesh)?.as_slice(),
        [(Cell::Tri([z, y, x]), 7)].as_slice()
    );
    Ok(())
}
