// What a part shows to others.
ghost use Rattle.std.specs.Prelude.{◌≡◌, ◌==◌, filter, map, IfOk};
ghost use Rattle.std.specs.List.{list_any};
ghost use Rattle.ma_geom.specs.Coordinates.{Coordinates, place_cmp};
ghost use Rattle.ma_cells.specs.Ascending.{has};
ghost use Rattle.ghost_layer.specs.GhostRule.{ghosts_for, is_shared_with};

use crate::touching::touching;
use letters::Shared;
use ma_cells::{Ascending, Batch, Label, Tet};
use ma_geom::{Memory, Place};
use part_store::Store;
use std::alloc::Global;

/// Whether a part is among those that share a place.
fn is_with(shared: &Shared, part: Label) -> bool
    ensures { result ≡ list_any (λ label. label == part) shared.now.parts }
{
    shared.parts().iter().any(|label| *label == part)
}

/// The places that are shared with a part, in the order of the list.
fn listed_with(alloc: Global, shared: &[Shared], part: Label) -> Result<Vec<Place>, Memory>
    ensures { IfOk result (λ places. places.items ≡ map (λ s. s.place) (filter (λ s. list_any (λ label. label == part) s.parts) shared.now)) }
{
    let with_part = shared.iter().filter(|entry| is_with(entry, part));
    let places = with_part.map(|entry| entry.place()).collect(alloc)?;
    Ok(places)
}

/// The set of the places that are shared with a part, in n log n steps.
fn places_with(alloc: Global, shared: &[Shared], part: Label) -> Result<Ascending<Place>, Memory>
    ensures { IfOk result (λ places. (x : Coordinates) → has place_cmp x places ≡ is_shared_with shared.now part x) }
{
    Ok(Ascending::gather(listed_with(alloc, shared, part)?))
}

/// The same as `ghosts_for`, by a list of the part's own tetrahedra, which serves for all targets.
pub fn ghosts_among(
    alloc: Global,
    store: &Store,
    own: &Ascending<Tet>,
    target: Label,
) -> Result<Batch, Memory>
    requires { own.now ≡ store.now.own }
    ensures { IfOk result (λ batch. batch ≡ ghosts_for store.now target) }
{
    let places = places_with(alloc, store.shared(), target)?;
    if places.is_empty() {
        return Ok(Batch {
            tets: Ascending::new(alloc),
            marks: Ascending::new(alloc),
        });
    }
    let tets = touching(alloc, &places, own)?;
    let marks = store.marks_on(alloc, tets.as_slice())?;
    Ok(Batch { tets, marks })
}

/// The part's own tetrahedra that have a corner which it shares with `target`, and the marks on their
/// cells.
pub fn ghosts_for(alloc: Global, store: &Store, target: Label) -> Result<Batch, Memory>
    ensures { IfOk result (λ batch. batch ≡ ghosts_for store.now target) }
{
    let own = store.own_tets(alloc)?;
    ghosts_among(alloc, store, &own, target)
}
