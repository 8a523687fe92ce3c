// The tetrahedra that a part sees, and the labels of cavities.
ghost use Rattle.std.specs.Prelude.{◌≡◌, ◌<◌, ◌++◌, ◌∷◌, [], length, map, IfOk, OnOk, if◌then◌else◌};
ghost use Rattle.std.specs.List.{All};
ghost use Rattle.corner_tables.specs.steps.Near.{picked};
ghost use Rattle.part_store.specs.Agreement.{all_in};
ghost use Rattle.part_store.specs.Labelled.{label_of, labelled, tet_of};
ghost use Rattle.part_vote.specs.Leading.{cavity_labels};

use cavity_rank::Operation;
use corner_tables::CornerTable;
use ma_cells::{Ascending, Label, Tet, View};
use ma_geom::Memory;
use std::alloc::Global;
use std::marker::Model;

/// Tetrahedra with their labels, and a table by which those of a cavity are found.
#[derive(Drop)]
pub(crate) struct Cavities {
    entries: Vec<(Tet, Label)>,
    tets: Vec<Tet>,
    table: CornerTable,
}

impl Model for Cavities {
    ghost use Rattle.std.specs.Prelude.{◌≡◌, ℕ, List, map};
    ghost use Rattle.ma_cells.specs.Tetrahedron.{Tetrahedron};
    ghost use Rattle.corner_tables.specs.Tables.{tets_table};
    ghost use Rattle.part_store.specs.Labelled.{tet_of};

    ghost Value = { List (Tetrahedron × ℕ) };

    ghost view = { λ c. c.entries.items };

    ghost invariant = { λ c. (c.tets.items ≡ map tet_of c.entries.items) × (c.table ≡ tets_table c.tets.items) };
}

/// These tetrahedra, each with the label of one part.
fn labelled(alloc: Global, part: Label, tets: &[Tet]) -> Result<Vec<(Tet, Label)>, Memory>
    ensures { IfOk result (λ entries. entries.items ≡ labelled part tets.now) }
{
    let mut entries = Vec::new(alloc);
    for tet in tets {
        entries.push((*tet, part))?;
    }
    Ok(entries)
}

/// The tetrahedra that a part sees, with their labels.
pub(crate) fn all_in(alloc: Global, view: &View) -> Result<Vec<(Tet, Label)>, Memory>
    ensures { IfOk result (λ entries. entries.items ≡ all_in view.now) }
{
    let mut entries = labelled(alloc, view.part, view.own.as_slice())?;
    entries.extend_from_slice(view.ghosts.as_slice())?;
    Ok(entries)
}

/// The same without their labels.
pub(crate) fn tets_of(alloc: Global, entries: &[(Tet, Label)]) -> Result<Vec<Tet>, Memory>
    ensures { IfOk result (λ tets. tets.items ≡ map tet_of entries.now) }
{
    let tets = entries.iter().map(|entry| entry.0).collect(alloc)?;
    Ok(tets)
}

/// The labels at these positions.
fn labels_at(alloc: Global, entries: &[(Tet, Label)], at: &[usize]) -> Result<Vec<Label>, Memory>
    requires { All (λ i. i < length entries.now) at.now }
    ensures { IfOk result (λ labels. labels.items ≡ map label_of (picked entries.now at.now)) }
{
    let mut labels = Vec::new(alloc);
    for i in at {
        labels.push(entries[*i].1)?;
    }
    Ok(labels)
}

impl Cavities {
    /// Those of the tetrahedra that a part sees.
    pub(crate) fn of(alloc: Global, view: &View) -> Result<Cavities, Memory>
        ensures { IfOk result (λ cavities. cavities ≡ all_in view.now) }
    {
        let entries = all_in(alloc, view)?;
        let tets = tets_of(alloc, entries.as_slice())?;
        let table = CornerTable::of(alloc, tets.as_slice())?;
        Ok(Cavities {
            entries,
            tets,
            table,
        })
    }

    /// The labels of the tetrahedra in the cavity of an operation.
    pub(crate) fn labels(&self, alloc: Global, op: &Operation) -> Result<Ascending<Label>, Memory>
        ensures { IfOk result (λ labels. labels ≡ cavity_labels self.now op.now) }
    {
        let mut positions = Vec::new(alloc);
        self.table
            .at(self.tets.as_slice(), op.at(), &mut positions)?;
        let labels = labels_at(alloc, self.entries.as_slice(), positions.as_slice())?;
        Ok(Ascending::gather(labels))
    }
}

/// Appends an operation, if it is wanted.
pub(crate) fn push_if(
    into: &mut Vec<Operation>,
    op: &Operation,
    is_wanted: bool,
) -> Result<(), Memory>
    ensures { OnOk result (into.new.items ≡ into.old.items ++ (if is_wanted then op.now ∷ [] else [])) }
{
    if is_wanted {
        into.push(op.clone()?)?;
    }
    Ok(())
}
