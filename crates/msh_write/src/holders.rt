// Which tetrahedra of a view have a marked cell. A list of their marked cells is sorted once, so
// that each cell is found by a binary search.
ghost use Rattle.std.specs.Prelude.{◌≡◌, ◌<◌, false, ◌++◌, IfNone, IfOk, IfSome, None, OnOk, drop, length, map};
ghost use Rattle.std.specs.List.{HoldsAt, filter, take_while};
ghost use Rattle.std.specs.List.Sorted.{IsStrictlySortedBy};
ghost use Rattle.std.specs.Option.{unwrap_or};
ghost use Rattle.std.specs.Ordering.{eq_by_cmp, nat_cmp};
ghost use Rattle.ma_cells.specs.Ascending.{ascending_of, has};
ghost use Rattle.ma_cells.specs.Cells.{cell_cmp};
ghost use Rattle.msh_write.specs.steps.Holders.{holder_cmp, holders_by, holders_of, is_among, is_of, marked_cells};

use crate::members::Member;
use ma_cells::{Ascending, Cell, Label, Mark};
use ma_geom::Memory;
use std::alloc::Global;

/// A cell, and None or the label of a tetrahedron that has it.
pub(crate) type Holder = (Cell, Option<Label>);

/// The cells that have a mark.
pub(crate) fn marked_cells(alloc: Global, marks: &[Mark]) -> Result<Ascending<Cell>, Memory>
    ensures { IfOk result (λ cells. cells ≡ marked_cells marks.now) }
{
    let mut cells = Vec::new(alloc);
    for mark in marks {
        cells.push(mark.cell())?;
    }
    Ok(Ascending::gather(cells))
}

fn is_among(cells: &Ascending<Cell>, cell: &Cell) -> bool
    ensures { result ≡ is_among cells.now cell.now }
{
    cells.contains(cell)
}

fn add_cells(
    holders: &mut Vec<Holder>,
    marked: &Ascending<Cell>,
    cells: &[Cell],
    label: Option<Label>,
) -> Result<(), Memory>
    ensures { OnOk result (holders.new.items ≡ holders.old.items ++ map (λ cell. (cell, label)) (filter (is_among marked.now) cells.now)) }
{
    for cell in cells {
        if is_among(marked, cell) {
            holders.push((*cell, label))?;
        }
    }
    Ok(())
}

fn add_member(
    holders: &mut Vec<Holder>,
    marked: &Ascending<Cell>,
    member: &Member,
) -> Result<(), Memory>
    ensures { OnOk result (holders.new.items ≡ holders.old.items ++ holders_by marked.now member.now) }
{
    add_cells(holders, marked, &member.0.cells(), member.1)
}

/// The marked cells of all these tetrahedra with who has them, in n log n steps.
pub(crate) fn holders(
    alloc: Global,
    marked: &Ascending<Cell>,
    members: &[Member],
) -> Result<Ascending<Holder>, Memory>
    ensures { IfOk result (λ holders. holders ≡ holders_of marked.now members.now) }
{
    let mut holders = Vec::new(alloc);
    for member in members {
        add_member(&mut holders, marked, member)?;
    }
    Ok(Ascending::gather(holders))
}

/// Where the holders of a cell begin, if a tetrahedron of the part's own is among them.
pub(crate) fn first_holder(holders: &[Holder], cell: Cell) -> Option<usize>
    requires { IsStrictlySortedBy holder_cmp holders.now }
    ensures found { IfSome result (λ first. (first < length holders.now) × HoldsAt (λ h. h ≡ (cell, None)) holders.now first) }
    ensures none { IfNone result (has holder_cmp (cell, None) holders.now ≡ false) }
{
    match holders.binary_search(&(cell, None)) {
        Ok(first) => Some(first),
        Err(_) => None,
    }
}

fn is_same(cell: &Cell, other: &Cell) -> bool
    ensures { result ≡ eq_by_cmp cell_cmp cell.now other.now }
{
    cell == other
}

fn add_parts(
    parts: &mut Vec<Label>,
    part: Label,
    holders: &[Holder],
    cell: &Cell,
) -> Result<(), Memory>
    ensures { OnOk result (parts.new.items ≡ parts.old.items ++ map (λ h. unwrap_or h.1 part) (take_while (is_of cell.now) holders.now)) }
{
    for (held, label) in holders {
        if !is_same(cell, held) {
            return Ok(());
        }
        parts.push(label.unwrap_or(part))?;
    }
    Ok(())
}

/// The parts of the tetrahedra that have the cell, whose holders are the first of these.
pub(crate) fn residents(
    alloc: Global,
    part: Label,
    holders: &[Holder],
    cell: &Cell,
) -> Result<Ascending<Label>, Memory>
    ensures { IfOk result (λ parts. parts ≡ ascending_of nat_cmp (map (λ h. unwrap_or h.1 part) (take_while (is_of cell.now) holders.now))) }
{
    let mut parts = Vec::new(alloc);
    add_parts(&mut parts, part, holders, cell)?;
    Ok(Ascending::gather(parts))
}
