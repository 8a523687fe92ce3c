// What a part makes of what others show.
ghost use Rattle.std.specs.Prelude.{◌≡◌, ◌≢◌, map, IfOk, OnErr, OnOk};
ghost use Rattle.std.specs.List.{All};
ghost use Rattle.ghost_layer.specs.GhostRule.{near, rebuilt};

use crate::touching::touching;
use ma_cells::{Ascending, Batch, Label};
use ma_geom::{Memory, Place};
use part_store::Store;
use std::alloc::Global;

/// Of a batch the tetrahedra that have one of these places as a corner, and all its marks.
fn near(
    alloc: Global,
    corners: &Ascending<Place>,
    got: &(Label, Batch),
) -> Result<(Label, Batch), Memory>
    ensures { IfOk result (λ kept. kept ≡ near corners.now got.now) }
{
    let tets = touching(alloc, corners, &got.1.tets)?;
    let marks = Vec::from_slice(alloc, got.1.marks.as_slice())?;
    let marks = Ascending::from_vec(marks);
    Ok((got.0, Batch { tets, marks }))
}

/// The same of each of these batches.
fn all_near(
    alloc: Global,
    corners: &Ascending<Place>,
    got: &[(Label, Batch)],
) -> Result<Vec<(Label, Batch)>, Memory>
    ensures { IfOk result (λ kept. kept.items ≡ map (near corners.now) got.now) }
{
    let mut kept = Vec::new(alloc);
    for batch in got {
        kept.push(near(alloc, corners, batch)?)?;
    }
    Ok(kept)
}

/// Puts the tetrahedra of these batches that share a corner with one of the part's own in place of
/// its ghosts, and joins the marks of the batches that are on cells of what it then has. It takes
/// n log n steps.
pub fn rebuild(alloc: Global, store: &mut Store, got: &[(Label, Batch)]) -> Result<(), Memory>
    requires { All (λ batch. batch.0 ≢ store.old.part) got.now }
    ensures ok { OnOk result (store.new ≡ rebuilt store.old got.now) }
    ensures err { OnErr result (store.new ≡ store.old) }
{
    let corners = store.own_corners(alloc)?;
    let near_own = all_near(alloc, &corners, got)?;
    store.set_ghosts(alloc, near_own.as_slice())
}
