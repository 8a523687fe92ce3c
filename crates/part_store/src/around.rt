// Which tetrahedra have a cell, and whose they are.
ghost use Rattle.std.specs.Prelude.{◌≡◌, ◌++◌, Some, None, filter, map, if◌then◌else◌, IfOk, OnOk};
ghost use Rattle.std.specs.Ordering.{nat_cmp};
ghost use Rattle.ma_geom.specs.Coordinates.{place_cmp};
ghost use Rattle.ma_cells.specs.Ascending.{ascending_of};
ghost use Rattle.ma_cells.specs.Cells.{corners_of};
ghost use Rattle.ma_cells.specs.Faces.{holds_all};
ghost use Rattle.ma_cells.specs.Incidence.{is_on};
ghost use Rattle.part_store.specs.Agreement.{around, first_of, residents};
ghost use Rattle.part_store.specs.Labelled.{label_of, labelled, tet_of};
ghost use Rattle.part_store.specs.steps.Owners.{lesser};

use crate::marks::push_if;
use ma_cells::{Cell, Label, Mark, Tet};
use ma_geom::{Memory, Place};
use std::alloc::Global;

/// Whether a tetrahedron has a cell.
fn holds(tet: &Tet, cell: &Cell) -> bool
    ensures { result ≡ holds_all tet.now.corners (corners_of cell.now) }
{
    match cell {
        Cell::Point(place) => tet.holds(&[*place]),
        Cell::Seg(ends) => tet.holds(ends),
        Cell::Tri(corners) => tet.holds(corners),
    }
}

/// Appends those of the tetrahedra of one part that have all these corners.
fn push_own(
    into: &mut Vec<(Tet, Label)>,
    part: Label,
    own: &[Tet],
    corners: &[Place],
) -> Result<(), Memory>
    ensures { OnOk result (into.new.items ≡ into.old.items ++ around corners.now (labelled part own.now)) }
{
    for tet in own {
        push_if(into, (*tet, part), tet.holds(corners))?;
    }
    Ok(())
}

/// Appends those of others that have all these corners.
fn push_others(
    into: &mut Vec<(Tet, Label)>,
    others: &[(Tet, Label)],
    corners: &[Place],
) -> Result<(), Memory>
    ensures { OnOk result (into.new.items ≡ into.old.items ++ around corners.now others.now) }
{
    for other in others {
        push_if(into, *other, other.0.holds(corners))?;
    }
    Ok(())
}

/// The tetrahedra of a part, and those of others, that have all these corners.
pub(crate) fn around(
    alloc: Global,
    part: Label,
    own: &[Tet],
    others: &[(Tet, Label)],
    corners: &[Place],
) -> Result<Vec<(Tet, Label)>, Memory>
    ensures { IfOk result (λ found. found.items ≡ around corners.now (labelled part own.now ++ others.now)) }
{
    let mut found = Vec::new(alloc);
    push_own(&mut found, part, own, corners)?;
    push_others(&mut found, others, corners)?;
    Ok(found)
}

/// The labels of these tetrahedra.
pub(crate) fn labels_of(alloc: Global, tets: &[(Tet, Label)]) -> Result<Vec<Label>, Memory>
    ensures { IfOk result (λ labels. labels.items ≡ map label_of tets.now) }
{
    let labels = tets.iter().map(|entry| entry.1).collect(alloc)?;
    Ok(labels)
}

fn lesser(first: Option<Label>, second: Option<Label>) -> Option<Label>
    ensures { result ≡ lesser first second }
{
    match (first, second) {
        (Some(m), Some(n)) => Some(m.min(n)),
        (Some(m), None) => Some(m),
        (None, n) => n,
    }
}

/// Whether one of these tetrahedra has a cell.
fn is_on(tets: &[Tet], cell: &Cell) -> bool
    ensures { result ≡ is_on tets.now cell.now }
{
    tets.iter().any(|tet| holds(tet, cell))
}

/// The label, if it is wanted.
fn label_if(label: Label, is_wanted: bool) -> Option<Label>
    ensures { result ≡ (if is_wanted then Some label else None) }
{
    if is_wanted { Some(label) } else { None }
}

/// The least label of those tetrahedra that have a cell.
fn least_label(others: &[(Tet, Label)], cell: &Cell) -> Option<Label>
    ensures { result ≡ first_of (residents cell.now others.now) }
{
    let mut least = None;
    for other in others {
        least = lesser(least, label_if(other.1, holds(&other.0, cell)));
    }
    least
}

/// The least label of the tetrahedra of a part, and of those of others, that have a cell.
pub(crate) fn owner_of(
    part: Label,
    own: &[Tet],
    others: &[(Tet, Label)],
    cell: &Cell,
) -> Option<Label>
    ensures { result ≡ first_of (residents cell.now (labelled part own.now ++ others.now)) }
{
    lesser(label_if(part, is_on(own, cell)), least_label(others, cell))
}
