// What fills the cavities of operations, with the marks on their cells.
ghost use Rattle.std.specs.Prelude.{◌≡◌, ◌++◌, ◌∷◌, [], IfOk, OnOk};
ghost use Rattle.std.specs.List.{flat_map};
ghost use Rattle.std.specs.List.Sorted.{IsStrictlySortedBy};
ghost use Rattle.ma_cells.specs.Ascending.{ascending_of};
ghost use Rattle.ma_cells.specs.Cells.{mark_cmp};
ghost use Rattle.ma_cells.specs.Tetrahedron.{tet_cmp};
ghost use Rattle.corner_tables.specs.Tables.{tets_table};
ghost use Rattle.cavity_collapse.specs.Collapsing.{collapsed};
ghost use Rattle.cavity_swap.specs.Swapping.{swapped};
ghost use Rattle.pass_rules.specs.Passes.{changed_at, changed_by, filling_at};
ghost use Rattle.part_store.specs.Labelled.{marks_on};
ghost use Rattle.part_gather.specs.Gathering.{filled};

use crate::cavities::tet_set;
use crate::marks::{mark_set, marks_on, tell_cells};
use cavity_rank::Operation;
use corner_tables::CornerTable;
use ma_cells::{Ascending, Batch, Mark, Tet};
use ma_geom::{Memory, Place};
use std::alloc::Global;

/// What a collapse leaves of the cavity of a vertex and of marks.
fn by_collapse(
    alloc: Global,
    star: &[Tet],
    marks: &[Mark],
    a: Place,
    v: Place,
) -> Result<Batch, Memory>
    ensures tets { IfOk result (λ batch. batch.tets ≡ collapsed a v star.now) }
    ensures marks { IfOk result (λ batch. batch.marks ≡ ascending_of mark_cmp (flat_map (λ mark. changed_at (a ∷ []) v mark (mark ∷ [])) marks.now)) }
{
    tell_cells(marks);
    cavity_collapse::result(alloc, star, marks, a, v)
}

/// What a swap leaves of a cavity.
fn by_swap(alloc: Global, star: &[Tet], v: Place) -> Result<Ascending<Tet>, Memory>
    requires { IsStrictlySortedBy tet_cmp star.now }
    ensures { IfOk result (λ tets. tets ≡ swapped v star.now) }
{
    let tets = cavity_swap::result(alloc, star, v)?;
    Ok(tet_set(tets))
}

/// What an operation leaves of its cavity and of marks.
fn by_operation(
    alloc: Global,
    star: &[Tet],
    marks: Ascending<Mark>,
    op: &Operation,
) -> Result<Batch, Memory>
    requires { IsStrictlySortedBy tet_cmp star.now }
    ensures tets { IfOk result (λ batch. batch.tets ≡ filling_at op.now.at op.now.apex star.now) }
    ensures marks { IfOk result (λ batch. batch.marks ≡ ascending_of mark_cmp (flat_map (changed_by (op.now ∷ [])) marks)) }
{
    match op.at() {
        [a] => by_collapse(alloc, star, marks.as_slice(), *a, op.apex()),
        _ => Ok(Batch {
            tets: by_swap(alloc, star, op.apex())?,
            marks,
        }),
    }
}

/// Appends what an operation leaves of its cavity, and of those of all marks that are on its cells.
fn push_filled(
    alloc: Global,
    tets: &mut Vec<Tet>,
    marks: &mut Vec<Mark>,
    star: &[Tet],
    all_marks: &Ascending<Mark>,
    op: &Operation,
) -> Result<(), Memory>
    requires { IsStrictlySortedBy tet_cmp star.now }
    ensures tets { OnOk result (tets.new.items ≡ tets.old.items ++ filling_at op.now.at op.now.apex star.now) }
    ensures marks { OnOk result (marks.new.items ≡ marks.old.items ++ ascending_of mark_cmp (flat_map (changed_by (op.now ∷ [])) (marks_on star.now all_marks.now))) }
{
    let there = marks_on(alloc, star, all_marks)?;
    let left = by_operation(alloc, star, there, op)?;
    tets.extend_from_slice(left.tets.as_slice())?;
    marks.extend_from_slice(left.marks.as_slice())?;
    Ok(())
}

/// What fills the cavities of these operations, with the marks on their cells.
pub(crate) fn filled(
    alloc: Global,
    table: &CornerTable,
    won: &[Operation],
    tets: &Ascending<Tet>,
    marks: &Ascending<Mark>,
) -> Result<Batch, Memory>
    requires { table.now ≡ tets_table tets.now }
    ensures { IfOk result (λ batch. batch ≡ filled tets.now marks.now won.now) }
{
    let mut new_tets = Vec::new(alloc);
    let mut new_marks = Vec::new(alloc);
    let mut star = Vec::new(alloc);
    for op in won {
        table.star(tets.as_slice(), op.at(), &mut star)?;
        push_filled(
            alloc,
            &mut new_tets,
            &mut new_marks,
            star.as_slice(),
            marks,
            op,
        )?;
    }
    Ok(Batch {
        tets: tet_set(new_tets),
        marks: mark_set(new_marks),
    })
}
