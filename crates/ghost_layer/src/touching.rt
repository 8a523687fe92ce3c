// Which tetrahedra have one of some places as a corner.
ghost use Rattle.std.specs.Prelude.{◌≡◌, filter, IfOk};
ghost use Rattle.ma_geom.specs.Coordinates.{place_cmp};
ghost use Rattle.ma_cells.specs.Ascending.{has};
ghost use Rattle.part_store.specs.Labelled.{touches};

use ma_cells::{Ascending, Tet};
use ma_geom::{Memory, Place};
use std::alloc::Global;

fn contains(places: &Ascending<Place>, place: &Place) -> bool
    ensures { result ≡ has place_cmp place.now places.now }
{
    places.contains(place)
}

/// Whether a tetrahedron has one of these places as a corner.
fn touches(places: &Ascending<Place>, tet: &Tet) -> bool
    ensures { result ≡ touches places.now tet.now }
{
    tet.corners().iter().any(|corner| contains(places, corner))
}

/// The tetrahedra that have one of these places as a corner. For each it looks four places up.
pub(crate) fn touching(
    alloc: Global,
    places: &Ascending<Place>,
    tets: &Ascending<Tet>,
) -> Result<Ascending<Tet>, Memory>
    ensures { IfOk result (λ kept. kept ≡ filter (touches places.now) tets.now) }
{
    let kept = tets
        .as_slice()
        .iter()
        .copied()
        .filter(|tet| touches(places, tet))
        .collect(alloc)?;
    Ok(Ascending::from_vec(kept))
}
