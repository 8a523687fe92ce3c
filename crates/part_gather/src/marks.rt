// The marks on the cells of a cavity.
ghost use Rattle.std.specs.Prelude.{◌≡◌, ◌++◌, true, filter, not, IfOk, OnOk};
ghost use Rattle.std.specs.List.{AllByRecursion, flat_map};
ghost use Rattle.std.specs.List.Sorted.{IsStrictlySortedBy};
ghost use Rattle.std.specs.Ordering.{is_lt};
ghost use Rattle.ma_cells.specs.Ascending.{ascending_of, has};
ghost use Rattle.ma_cells.specs.Cells.{cell_cmp, is_cell, mark_cmp};
ghost use Rattle.ma_cells.specs.Incidence.{is_on};
ghost use Rattle.ma_cells.specs.declared.cell.Cell.{Cell};
ghost use Rattle.part_store.specs.Agreement.{marks_of};
ghost use Rattle.part_store.specs.Labelled.{marks_on};

use ma_cells::{Ascending, Cell, Mark, Tet};
use ma_geom::Memory;
use std::alloc::Global;

pub(crate) fn mark_set(marks: Vec<Mark>) -> Ascending<Mark>
    ensures { result ≡ ascending_of mark_cmp marks.items }
{
    Ascending::gather(marks)
}

fn cell_set(cells: Vec<Cell>) -> Ascending<Cell>
    ensures { result ≡ ascending_of cell_cmp cells.items }
{
    Ascending::gather(cells)
}

/// The cells of these tetrahedra, each as often as a tetrahedron has it.
fn cells_of(alloc: Global, tets: &[Tet]) -> Result<Vec<Cell>, Memory>
    ensures { IfOk result (λ cells. (cell : Cell) → is_cell cell ≡ true → has cell_cmp cell cells.items ≡ is_on tets.now cell) }
{
    let mut cells = Vec::new(alloc);
    for tet in tets {
        cells.extend_from_slice(&tet.cells())?;
    }
    Ok(cells)
}

/// Whether a mark is on a lesser cell.
fn is_before(mark: &Mark, cell: &Cell) -> bool
    ensures { result ≡ is_lt (cell_cmp mark.now.cell cell.now) }
{
    mark.cell().cmp(cell).is_lt()
}

/// Whether a mark is on a greater cell.
fn is_behind(mark: &Mark, cell: &Cell) -> bool
    ensures { result ≡ is_lt (cell_cmp cell.now mark.now.cell) }
{
    cell.cmp(&mark.cell()).is_lt()
}

/// The marks from the first that is on no lesser cell.
fn from_cell<'a>(marks: &'a [Mark], cell: &Cell) -> &'a [Mark]
    requires { IsStrictlySortedBy mark_cmp marks.now }
    ensures { result.now ≡ filter (λ mark. not (is_lt (cell_cmp mark.cell cell.now))) marks.now }
{
    let start = marks.partition_point(|mark| is_before(mark, cell));
    &marks[start..]
}

/// The marks up to the last that is on no greater cell.
fn up_to_cell<'a>(marks: &'a [Mark], cell: &Cell) -> &'a [Mark]
    requires { IsStrictlySortedBy mark_cmp marks.now }
    ensures { result.now ≡ filter (λ mark. not (is_lt (cell_cmp cell.now mark.cell))) marks.now }
{
    let end = marks.partition_point(|mark| !is_behind(mark, cell));
    &marks[..end]
}

/// The marks on a cell, in log n steps.
fn marks_of<'a>(marks: &'a [Mark], cell: &Cell) -> &'a [Mark]
    requires { IsStrictlySortedBy mark_cmp marks.now }
    ensures { result.now ≡ marks_of cell.now marks.now }
{
    up_to_cell(from_cell(marks, cell), cell)
}

/// The marks on these cells.
fn marks_of_all(alloc: Global, cells: &[Cell], marks: &[Mark]) -> Result<Vec<Mark>, Memory>
    requires { IsStrictlySortedBy mark_cmp marks.now }
    ensures { IfOk result (λ found. found.items ≡ flat_map (λ cell. marks_of cell marks.now) cells.now) }
{
    let mut found = Vec::new(alloc);
    for cell in cells {
        found.extend_from_slice(marks_of(marks, cell))?;
    }
    Ok(found)
}

/// That each mark is on a cell, which its type tells of each alone. Takes no memory.
pub(crate) fn tell_cells(marks: &[Mark])
    ensures { AllByRecursion (λ mark. is_cell mark.cell ≡ true) marks.now }
{
    for mark in marks {
        let _cell = mark.cell();
    }
}

/// The marks on cells of these few tetrahedra. It looks each cell of them up among the marks, and so
/// goes through neither all marks nor all tetrahedra for a mark.
pub(crate) fn marks_on(
    alloc: Global,
    tets: &[Tet],
    marks: &Ascending<Mark>,
) -> Result<Ascending<Mark>, Memory>
    ensures { IfOk result (λ found. found ≡ marks_on tets.now marks.now) }
{
    tell_cells(marks.as_slice());
    let cells = cell_set(cells_of(alloc, tets)?);
    let found = marks_of_all(alloc, cells.as_slice(), marks.as_slice())?;
    Ok(mark_set(found))
}
