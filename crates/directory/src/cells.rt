// What posts and replies have in common: the least corner of a cell, and lists that take an item or not.
ghost use Rattle.std.specs.Prelude.{◌≡◌, ◌++◌, ◌∷◌, [], OnOk, if◌then◌else◌};
ghost use Rattle.directory.specs.Posting.{least_corner};

use ma_cells::Cell;
use ma_geom::{Memory, Place};

/// The least corner of a cell, which is its first.
pub(crate) fn least_corner(cell: Cell) -> Place
    ensures { result ≡ least_corner cell }
{
    match cell {
        Cell::Point(place) => place,
        Cell::Seg(ends) => ends[0],
        Cell::Tri(corners) => corners[0],
    }
}

/// Appends an item, if it is wanted.
pub(crate) fn push_if<T: Drop>(into: &mut Vec<T>, item: T, is_wanted: bool) -> Result<(), Memory>
    ensures { OnOk result (into.new.items ≡ into.old.items ++ (if is_wanted then item ∷ [] else [])) }
{
    if is_wanted {
        into.push(item)?;
    }
    Ok(())
}
