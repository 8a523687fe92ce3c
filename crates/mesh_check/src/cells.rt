// Which of the cells that marks are on are cells of tetrahedra.
ghost use Rattle.std.specs.Prelude.{◌≡◌, ◌&&◌, ◌||◌, Bool, true, length, map, IfOk};
ghost use Rattle.std.specs.List.{list_all};
ghost use Rattle.std.specs.List.Sorted.{IsStrictlySortedBy};
ghost use Rattle.std.specs.Ordering.{eq_by_cmp};
ghost use Rattle.ma_cells.specs.Ascending.{ascending_of, has};
ghost use Rattle.ma_cells.specs.Cells.{cell_cmp, is_cell};
ghost use Rattle.ma_cells.specs.declared.cell.Cell.{Cell};
ghost use Rattle.ma_cells.specs.Incidence.{is_on};

use ma_cells::{Ascending, Cell, Mark, Tet};
use ma_geom::Memory;
use std::alloc::Global;

/// The cell of each mark.
fn cells_of(alloc: Global, marks: &[Mark]) -> Result<Vec<Cell>, Memory>
    ensures { IfOk result (λ cells. cells.items ≡ map (λ mark. mark.cell) marks.now) }
{
    let cells = marks.iter().map(|mark| mark.cell()).collect(alloc)?;
    Ok(cells)
}

/// The cells that these marks are on, each once and in order.
pub fn marked_cells(alloc: Global, marks: &[Mark]) -> Result<Vec<Cell>, Memory>
    ensures is { IfOk result (λ cells. cells.items ≡ ascending_of cell_cmp (map (λ mark. mark.cell) marks.now)) }
    ensures rises { IfOk result (λ cells. IsStrictlySortedBy cell_cmp cells.items) }
{
    let cells = cells_of(alloc, marks)?;
    Ok(Ascending::gather(cells).into_vec())
}

/// Notes that a cell was found, if it is one of those that are looked for.
fn note(wanted: &[Cell], found: &mut [bool], cell: &Cell)
    requires rises { IsStrictlySortedBy cell_cmp wanted.now }
    requires as_many { length found.old ≡ length wanted.now }
    ensures { (test : Cell → Bool) → found.old ≡ map test wanted.now → found.new ≡ map (λ one. test one || eq_by_cmp cell_cmp one cell.now) wanted.now }
{
    if let Ok(at) = wanted.binary_search(cell) {
        found[at] = true;
    }
}

/// Notes each of these cells that is one of those that are looked for.
fn note_all(wanted: &[Cell], found: &mut [bool], cells: &[Cell])
    requires rises { IsStrictlySortedBy cell_cmp wanted.now }
    requires as_many { length found.old ≡ length wanted.now }
    ensures { (test : Cell → Bool) → found.old ≡ map test wanted.now → found.new ≡ map (λ one. test one || has cell_cmp one cells.now) wanted.now }
{
    for cell in cells {
        note(wanted, found, cell);
    }
}

/// Which of these cells are cells of tetrahedra. Looks at no tetrahedron where there is no cell.
pub fn found_on(alloc: Global, wanted: &[Cell], tets: &[Tet]) -> Result<Vec<bool>, Memory>
    requires cells { list_all is_cell wanted.now ≡ true }
    requires rises { IsStrictlySortedBy cell_cmp wanted.now }
    ensures { IfOk result (λ found. found.items ≡ map (is_on tets.now) wanted.now) }
{
    let mut found = vec![in alloc; false; wanted.len()]?;
    if !wanted.is_empty() {
        for tet in tets {
            note_all(wanted, found.as_mut_slice(), &tet.cells());
        }
    }
    Ok(found)
}

/// Whether a cell is one of those that are looked for, and was found.
pub fn is_found(wanted: &[Cell], found: &[bool], cell: &Cell) -> bool
    requires rises { IsStrictlySortedBy cell_cmp wanted.now }
    requires as_many { length found.now ≡ length wanted.now }
    ensures { (test : Cell → Bool) → found.now ≡ map test wanted.now → result ≡ (has cell_cmp cell.now wanted.now && test cell.now) }
{
    match wanted.binary_search(cell) {
        Ok(at) => found[at],
        Err(_) => false,
    }
}
