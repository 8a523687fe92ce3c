// The marks that operations leave.
ghost use Rattle.std.specs.Prelude.{◌≡◌, ◌<◌, ◌++◌, ◌∷◌, [], IfOk, IfSome, OnOk, length};
ghost use Rattle.std.specs.List.{flat_map};
ghost use Rattle.ma_cells.specs.Cells.{corners_of};
ghost use Rattle.pass_rules.specs.Passes.{changed_by};
ghost use Rattle.mesh_passes.specs.Marking.{first_at, firsts_from, lesser, moved_at, moved_by, numbered};

use cavity_rank::Operation;
use ma_cells::{Cell, Mark};
use ma_geom::{Memory, Place};
use std::alloc::Global;
use std::collections::BTreeMap;

/// Puts down the number of an operation, if it is a collapse.
fn put_number(
    firsts: &mut BTreeMap<Place, usize>,
    at: &[Place],
    number: usize,
) -> Result<(), Memory>
    ensures { OnOk result (firsts.new.entries ≡ numbered at.now number firsts.old.entries) }
{
    if let [a] = at {
        firsts.insert(*a, number)?;
    }
    Ok(())
}

/// For each vertex that is collapsed, the number of the first operation that does it. It goes from
/// the last one back, so that an earlier one takes the place of a later one.
fn firsts(alloc: Global, ops: &[Operation]) -> Result<BTreeMap<Place, usize>, Memory>
    ensures { IfOk result (λ firsts. firsts.entries ≡ firsts_from 0 ops.now) }
{
    let mut firsts = BTreeMap::new(alloc);
    for i in (0..ops.len()).rev() {
        put_number(&mut firsts, ops[i].at(), i)?;
    }
    Ok(firsts)
}

fn lesser(first: Option<usize>, second: Option<usize>) -> Option<usize>
    ensures { result ≡ lesser first second }
{
    match (first, second) {
        (Some(m), Some(n)) => Some(m.min(n)),
        (Some(m), None) => Some(m),
        (None, n) => n,
    }
}

/// The least number of an operation that collapses one of these corners.
fn first_at(firsts: &BTreeMap<Place, usize>, corners: &[Place]) -> Option<usize>
    ensures { result ≡ first_at firsts.now.entries corners.now }
{
    match corners {
        [] => None,
        [p, rest @ ..] => lesser(firsts.get(p).copied(), first_at(firsts, rest)),
    }
}

fn first_on(firsts: &BTreeMap<Place, usize>, cell: Cell) -> Option<usize>
    ensures { result ≡ first_at firsts.now.entries (corners_of cell) }
{
    match cell {
        Cell::Point(place) => first_at(firsts, &[place]),
        Cell::Seg(ends) => first_at(firsts, &ends),
        Cell::Tri(corners) => first_at(firsts, &corners),
    }
}

/// Appends a mark as an operation leaves it that collapses one of its corners.
fn push_moved(
    alloc: Global,
    marks: &mut Vec<Mark>,
    mark: &Mark,
    op: &Operation,
) -> Result<(), Memory>
    ensures { OnOk result (marks.new.items ≡ marks.old.items ++ moved_at op.now.at op.now.apex mark.now) }
{
    match op.at() {
        [a] => {
            let moved = cavity_collapse::result(alloc, &[], &[*mark], *a, op.apex())?;
            marks.extend_from_slice(moved.marks.as_slice())?;
        }
        _ => marks.push(*mark)?,
    }
    Ok(())
}

/// Appends a mark as the operation with this number leaves it.
fn push_by(
    alloc: Global,
    marks: &mut Vec<Mark>,
    mark: &Mark,
    ops: &[Operation],
    first: Option<usize>,
) -> Result<(), Memory>
    requires { IfSome first (λ i. i < length ops.now) }
    ensures { OnOk result (marks.new.items ≡ marks.old.items ++ moved_by first ops.now mark.now) }
{
    match first {
        Some(i) => push_moved(alloc, marks, mark, &ops[i]),
        None => {
            marks.push(*mark)?;
            Ok(())
        }
    }
}

/// Appends a mark as the first of the operations leaves it that collapses one of its corners.
fn push_changed(
    alloc: Global,
    marks: &mut Vec<Mark>,
    mark: &Mark,
    ops: &[Operation],
    firsts: &BTreeMap<Place, usize>,
) -> Result<(), Memory>
    requires { firsts.now.entries ≡ firsts_from 0 ops.now }
    ensures { OnOk result (marks.new.items ≡ marks.old.items ++ changed_by ops.now mark.now) }
{
    let first = first_on(firsts, mark.cell());
    push_by(alloc, marks, mark, ops, first)
}

/// The marks as the operations leave them, in n log n steps.
pub(crate) fn changed(alloc: Global, ops: &[Operation], marks: &[Mark]) -> Result<Vec<Mark>, Memory>
    ensures { IfOk result (λ changed. changed.items ≡ flat_map (changed_by ops.now) marks.now) }
{
    let firsts = firsts(alloc, ops)?;
    let mut changed = Vec::new(alloc);
    for mark in marks {
        push_changed(alloc, &mut changed, mark, ops, &firsts)?;
    }
    Ok(changed)
}
