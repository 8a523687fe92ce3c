//! All parts together.
ghost use Rattle.std.specs.Prelude.{◌≡◌, ◌++◌, OnOk, IfOk};
ghost use Rattle.part_store.specs.Stores.{view_in};
ghost use Rattle.view_laws.specs.Views.{owned_marks};
ghost use Rattle.world_run.specs.Union.{union_in};
ghost use Rattle.world_run.specs.steps.Uniting.{lesser_ghosts};

use ma_cells::{Ascending, Batch, Label, Mark, Tet, View};
use ma_geom::Memory;
use part_core::Part;
use part_store::Store;
use std::alloc::Global;

/// The ghosts of parts with lesser numbers.
fn lesser_ghosts(alloc: Global, ghosts: &[(Tet, Label)], part: Label) -> Result<Vec<Tet>, Memory>
    ensures { IfOk result (λ tets. tets.items ≡ lesser_ghosts part ghosts.now) }
{
    let lesser = ghosts.iter().filter(|entry| entry.1 < part);
    let tets = lesser.map(|entry| entry.0).collect(alloc)?;
    Ok(tets)
}

/// The marks on cells of a part's own tetrahedra of which it is the owner: no ghost of a lesser part
/// has their cells. Takes n log n steps, since the owner isn't asked for mark by mark.
fn owned_marks(alloc: Global, store: &Store) -> Result<Ascending<Mark>, Memory>
    ensures { IfOk result (λ marks. marks ≡ owned_marks (view_in store.now)) }
{
    let view = store.view(alloc)?;
    let lesser = lesser_ghosts(alloc, view.ghosts.as_slice(), view.part)?;
    let others = store.marks_on(alloc, lesser.as_slice())?;
    let own = store.own_marks(alloc)?;
    let owned = own.difference(alloc, &others)?;
    Ok(owned)
}

/// Appends a part's own tetrahedra and the marks that it owns.
fn append_part(
    alloc: Global,
    store: &Store,
    tets: &mut Vec<Tet>,
    marks: &mut Vec<Mark>,
) -> Result<(), Memory>
    ensures tets { OnOk result (tets.new.items ≡ tets.old.items ++ store.now.own) }
    ensures marks { OnOk result (marks.new.items ≡ marks.old.items ++ owned_marks (view_in store.now)) }
{
    let own = store.own_tets(alloc)?;
    let owned = owned_marks(alloc, store)?;
    tets.extend_from_slice(own.as_slice())?;
    marks.extend_from_slice(owned.as_slice())?;
    Ok(())
}

/// All own tetrahedra of parts, and the marks that each owns.
pub fn reassemble(alloc: Global, parts: &[Part]) -> Result<Batch, Memory>
    ensures { IfOk result (λ batch. batch ≡ union_in parts.now) }
{
    let mut tets = Vec::new(alloc);
    let mut marks = Vec::new(alloc);
    for part in parts {
        append_part(alloc, part.store(), &mut tets, &mut marks)?;
    }
    Batch::gather(tets, marks)
}
