// What a part proposes.
ghost use Rattle.std.specs.Prelude.{◌≡◌, ◌==◌, false, filter, IfOk};
ghost use Rattle.std.specs.Option.{option_map_or};
ghost use Rattle.ma_cells.specs.Ascending.{ascending_of};
ghost use Rattle.ma_cells.specs.Tetrahedron.{tet_cmp};
ghost use Rattle.part_store.specs.Agreement.{first_of};
ghost use Rattle.part_store.specs.Stores.{view_in};
ghost use Rattle.part_vote.specs.Leading.{leads, legal_in, without_labels};
ghost use Rattle.part_vote.specs.Voting.{mesh_in, proposals};

use crate::cavities::{Cavities, all_in, push_if, tets_of};
use cavity_rank::{Kind, Operation};
use corner_tables::CornerTable;
use legal_moves::legal;
use ma_cells::{Ascending, Batch, Label, Tet, View};
use ma_geom::Memory;
use part_store::Store;
use size_marks::SizeField;
use std::alloc::Global;

fn tet_set(tets: Vec<Tet>) -> Ascending<Tet>
    ensures { result ≡ ascending_of tet_cmp tets.items }
{
    Ascending::gather(tets)
}

/// What a part sees, as a mesh without labels.
fn mesh_in(alloc: Global, view: &View) -> Result<Batch, Memory>
    ensures { IfOk result (λ mesh. mesh ≡ without_labels (mesh_in view.now)) }
{
    let entries = all_in(alloc, view)?;
    let tets = tets_of(alloc, entries.as_slice())?;
    let marks = Vec::from_slice(alloc, view.marks.as_slice())?;
    Ok(Batch {
        tets: tet_set(tets),
        marks: Ascending::from_vec(marks),
    })
}

/// The legal operations of what a part sees.
fn legal_in(
    alloc: Global,
    kind: Kind,
    view: &View,
    field: &SizeField,
) -> Result<Ascending<Operation>, Memory>
    ensures { IfOk result (λ ops. ops ≡ legal_in kind field.now (mesh_in view.now)) }
{
    let mesh = mesh_in(alloc, view)?;
    let table = CornerTable::of(alloc, mesh.tets.as_slice())?;
    legal(alloc, kind, &mesh, &table, field)
}

/// Whether a label is the least of these.
fn is_first(labels: &[Label], part: Label) -> bool
    ensures { result ≡ option_map_or (λ label. label == part) (first_of labels.now) false }
{
    match labels {
        [first, ..] => *first == part,
        [] => false,
    }
}

/// Those of the operations that a part leads.
fn led_among(
    alloc: Global,
    cavities: &Cavities,
    part: Label,
    ops: &[Operation],
) -> Result<Vec<Operation>, Memory>
    ensures { IfOk result (λ led. led.items ≡ filter (leads cavities.now part) ops.now) }
{
    let mut led = Vec::new(alloc);
    for op in ops {
        let labels = cavities.labels(alloc, op)?;
        push_if(&mut led, op, is_first(labels.as_slice(), part))?;
    }
    Ok(led)
}

/// The legal operations of a kind that a part leads, in order of rank: those whose cavity has no
/// lesser label. They are found in n log n steps, where no vertex has more than a bounded number of
/// tetrahedra.
pub fn proposals(
    alloc: Global,
    store: &Store,
    field: &SizeField,
    kind: Kind,
) -> Result<Ascending<Operation>, Memory>
    ensures { IfOk result (λ ops. ops ≡ proposals kind field.now (view_in store.now)) }
{
    let view = store.view(alloc)?;
    let ops = legal_in(alloc, kind, &view, field)?;
    let cavities = Cavities::of(alloc, &view)?;
    let led = led_among(alloc, &cavities, view.part, ops.as_slice())?;
    Ok(Ascending::from_vec(led))
}
