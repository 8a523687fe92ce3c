// Cells of less than three dimensions, and marks on them.
ghost use Rattle.std.specs.Prelude.{◌≡◌, true, IfSome};
ghost use Rattle.ma_cells.specs.Cells.{cell_of, is_cell};

use crate::tet::are_ascending;
use ma_geom::Place;
use std::marker::Model;

/// A point, a segment or a triangle by its corners, which are to ascend. Cells are ordered by
/// dimension, then corners.
#[derive(Clone, Copy, Debug, PartialEq, Eq, PartialOrd, Ord, Hash)]
pub enum Cell {
    Point(Place),
    Seg([Place; 2]),
    Tri([Place; 3]),
}

fn segment(mut ends: [Place; 2]) -> Option<Cell>
    ensures { result ≡ cell_of ends }
{
    ends.sort_unstable();
    if are_ascending(&ends) {
        Some(Cell::Seg(ends))
    } else {
        None
    }
}

fn triangle(mut corners: [Place; 3]) -> Option<Cell>
    ensures { result ≡ cell_of corners }
{
    corners.sort_unstable();
    if are_ascending(&corners) {
        Some(Cell::Tri(corners))
    } else {
        None
    }
}

fn cornered(corners: &[Place]) -> Option<Cell>
    ensures { result ≡ cell_of corners.now }
{
    match corners {
        [] => None,
        [a] => Some(Cell::Point(*a)),
        [a, b] => segment([*a, *b]),
        [a, b, c] => triangle([*a, *b, *c]),
        _ => None,
    }
}

impl Cell {
    /// The cell with these corners, given in any order. None where they aren't one to three, or two
    /// are equal. Takes no memory.
    pub fn new(corners: &[Place]) -> Option<Cell>
        ensures value { result ≡ cell_of corners.now }
        ensures cell { IfSome result (λ cell. is_cell cell ≡ true) }
    {
        cornered(corners)
    }
}

/// A mark on a cell, with a tag, the pair of `phys` and `elem`. Marks are ordered by cell, then
/// `phys`, then `elem`.
#[derive(Clone, Copy, Debug, PartialEq, Eq, PartialOrd, Ord, Hash)]
pub struct Mark {
    cell: Cell,
    phys: i32,
    elem: i32,
}

impl Model for Mark {
    ghost use Rattle.std.specs.Prelude.{◌≡◌, true};
    ghost use Rattle.ma_cells.specs.Cells.{CellMark, is_cell};

    ghost Value = { CellMark };

    ghost view = { λ m. record { cell = m.cell; phys = m.phys; elem = m.elem } };

    ghost invariant = { λ m. is_cell m.cell ≡ true };

    ghost inverse = { λ m. record { cell = m.cell; phys = m.phys; elem = m.elem } };
}

impl Mark {
    pub fn new(cell: Cell, phys: i32, elem: i32) -> Mark
        requires { is_cell cell ≡ true }
        ensures { result ≡ record { cell = cell; phys = phys; elem = elem } }
    {
        Mark { cell, phys, elem }
    }

    pub fn cell(&self) -> Cell
        ensures value { result ≡ self.now.cell }
        ensures cell { is_cell result ≡ true }
    {
        self.cell
    }

    pub fn phys(&self) -> i32
        ensures { result ≡ self.now.phys }
    {
        self.phys
    }

    pub fn elem(&self) -> i32
        ensures { result ≡ self.now.elem }
    {
        self.elem
    }
}
