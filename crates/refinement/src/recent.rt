// Sizes at places that were asked for lately. Tetrahedra come in the order of their corners, so most
// corners of one were corners of another a short while ago.
ghost use Rattle.std.specs.Prelude.{◌≡◌, ◌<◌, filter, IfOk};
ghost use Rattle.ma_cells.specs.Faces.{edges_of};
ghost use Rattle.size_marks.specs.Field.{size_at};
ghost use Rattle.split_templates.specs.Edges.{chosen, is_long_edge};
ghost use Rattle.refinement.specs.steps.Recent.{AreRecent};

use ma_cells::Tet;
use ma_geom::{Memory, Place};
use size_marks::{SizeField, SizedPlace};
use split_templates::{EdgeMask, marked_between};
use std::alloc::Global;

/// A place, and the place with its size.
#[derive(Clone, Copy)]
pub(crate) struct Recent {
    place: Place,
    sized: SizedPlace,
}

const COUNT: usize = 4096;

/// Where a place stands among those that were asked for lately. Places share an entry, and the later
/// one takes it; the numbers spread places on a grid over the entries.
fn slot_of(place: Place) -> usize
    ensures { result < 4096 }
{
    let mixed = place
        .x()
        .unsigned_abs()
        .wrapping_mul(0x9E37_79B1)
        .wrapping_add(place.y().unsigned_abs().wrapping_mul(0x85EB_CA77))
        .wrapping_add(place.z().unsigned_abs().wrapping_mul(0xC2B2_AE3D));
    (mixed >> 20) as usize % COUNT
}

/// Entries that all have the size at one place.
pub(crate) fn first_entries(alloc: Global, field: &SizeField) -> Result<Vec<Recent>, Memory>
    ensures { IfOk result (λ entries. AreRecent field.now entries.items) }
{
    let place = Place::default();
    let sized = field.sized(place);
    let entries = vec![in alloc; Recent { place, sized }; COUNT]?;
    Ok(entries)
}

/// The place with its size, which is looked up unless it is among the entries.
fn sized(entries: &mut [Recent], field: &SizeField, place: Place) -> SizedPlace
    requires { AreRecent field.now entries.old }
    ensures value { result ≡ record { place = place; size = size_at field.now place } }
    ensures recent { AreRecent field.now entries.new }
{
    let slot = slot_of(place);
    let entry = entries[slot];
    if entry.place == place {
        return entry.sized;
    }
    let sized = field.sized(place);
    entries[slot] = Recent { place, sized };
    sized
}

/// The long edges of a tetrahedron.
pub(crate) fn marked(entries: &mut [Recent], field: &SizeField, tet: &Tet) -> EdgeMask
    requires { AreRecent field.now entries.old }
    ensures bound { result < 64 }
    ensures long { chosen result (edges_of tet.now.corners) ≡ filter (is_long_edge field.now) (edges_of tet.now.corners) }
    ensures recent { AreRecent field.now entries.new }
{
    let [a, b, c, d] = tet.corners();
    let a = sized(entries, field, a);
    let b = sized(entries, field, b);
    let c = sized(entries, field, c);
    let d = sized(entries, field, d);
    marked_between(a, b, c, d, field)
}
