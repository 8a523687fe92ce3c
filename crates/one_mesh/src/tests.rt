// Values that were worked out by hand.
ghost use Rattle.std.specs.Prelude.{◌≡◌, false, IfOk};

use super::*;
use ma_cells::{Ascending, Mesh, Tet};
use ma_geom::Place;
use size_marks::SizeField;
use std::alloc::Global;
use std::test::Fail;

fn place(x: i32, y: i32, z: i32) -> Result<Place, Fail> {
    Ok(Place::new(x, y, z).ok_or("a coordinate is out of range")?)
}

/// The origin, and the places at 8 on the axes z, y and x.
fn corners() -> Result<[Place; 4], Fail> {
    Ok([
        place(0, 0, 0)?,
        place(0, 0, 8)?,
        place(0, 8, 0)?,
        place(8, 0, 0)?,
    ])
}

/// The middles of the edges between these, in the order 01, 02, 03, 12, 13, 23.
fn middles() -> Result<[Place; 6], Fail> {
    Ok([
        place(0, 0, 4)?,
        place(0, 4, 0)?,
        place(4, 0, 0)?,
        place(0, 4, 4)?,
        place(4, 0, 4)?,
        place(4, 4, 0)?,
    ])
}

/// The tetrahedron of the corners.
fn mesh(alloc: Global) -> Result<OneMesh, Fail>
    ensures { IfOk result (λ one. one.spent ≡ false) }
{
    let tet = Tet::new(corners()?, 0, 1).ok_or("the corners are flat")?;
    let whole = Mesh::new(vec![in alloc; tet]?, Ascending::gather(Vec::new(alloc)), 0);
    Ok(OneMesh::from_mesh(alloc, &whole)?)
}

fn pieces(alloc: Global, one: &OneMesh) -> Result<Vec<[Place; 4]>, Fail> {
    let mut pieces = Vec::new(alloc);
    for tet in one.batch().tets.as_slice() {
        pieces.push(tet.corners())?;
    }
    Ok(pieces)
}

#[test]
fn a_round_cuts_a_tetrahedron_into_eight(rt: HostRuntime) -> Result<(), Fail> {
    let mut one = mesh(rt.alloc())?;
    one.adapt(rt.alloc(), &SizeField::uniform(rt.alloc(), 4), 1, 0, 0)?;
    assert!(rt; !one.is_spent());
    let [o, z, y, x] = corners()?;
    let [oz, oy, ox, zy, zx, yx] = middles()?;
    assert_eq!(rt;
        pieces(rt.alloc(), &one)?.as_slice(),
        [
            [o, oz, zy, zx],
            [o, oy, zy, yx],
            [o, zy, ox, zx],
            [o, zy, ox, yx],
            [oz, z, zy, zx],
            [oy, zy, y, yx],
            [zy, ox, zx, x],
            [zy, ox, yx, x],
        ]
        .as_slice()
    );
    Ok(())
}

#[test]
fn two_rounds_cut_each_of_the_eight_into_eight(rt: HostRuntime) -> Result<(), Fail> {
    let mut one = mesh(rt.alloc())?;
    let field = SizeField::uniform(rt.alloc(), 2);
    one.adapt(rt.alloc(), &field, 1, 0, 0)?;
    assert!(rt; !one.is_spent());
    one.adapt(rt.alloc(), &field, 2, 0, 0)?;
    assert_eq!(rt; one.batch().tets.len(), 64);
    Ok(())
}
