// Boxes around places, by which most marks are told from tetrahedra at once.
ghost use Rattle.std.specs.Prelude.{◌≡◌, ◌≤◌, ◌&&◌, true, unsigned_abs};
ghost use Rattle.std.specs.List.{list_all};
ghost use Rattle.ma_geom.specs.Coordinates.{limit};
ghost use Rattle.ma_cells.specs.Cells.{corners_of};
ghost use Rattle.part_store.specs.steps.Boxes.{are_within, is_under, is_within, lower, upper, with_all, with_place};

use ma_cells::{Cell, Tet};
use ma_geom::Place;

/// The place with these coordinates, which are in range.
fn place_at(x: i32, y: i32, z: i32) -> Place
    requires x_in { unsigned_abs x ≤ limit }
    requires y_in { unsigned_abs y ≤ limit }
    requires z_in { unsigned_abs z ≤ limit }
    ensures { result ≡ record { x = x; y = y; z = z } }
{
    match Place::new(x, y, z) {
        Some(place) => place,
        None => unreachable!(),
    }
}

/// The place that has the lesser of both in each coordinate.
fn lower(p: Place, q: Place) -> Place
    ensures { result ≡ lower p q }
{
    place_at(p.x().min(q.x()), p.y().min(q.y()), p.z().min(q.z()))
}

/// The place that has the greater of both in each coordinate.
fn upper(p: Place, q: Place) -> Place
    ensures { result ≡ upper p q }
{
    place_at(p.x().max(q.x()), p.y().max(q.y()), p.z().max(q.z()))
}

fn are_true(x: bool, y: bool, z: bool) -> bool
    ensures { result ≡ (x && (y && z)) }
{
    x && y && z
}

/// Whether no coordinate of `p` is above that of `q`.
fn is_under(p: Place, q: Place) -> bool
    ensures { result ≡ is_under p q }
{
    let x = p.x() <= q.x();
    let y = p.y() <= q.y();
    let z = p.z() <= q.z();
    are_true(x, y, z)
}

/// The least box, with sides along the axes, that has some places.
#[derive(Clone, Copy, Debug)]
pub(crate) enum Bounds {
    /// Of no places.
    Nothing,
    /// From the least to the greatest in each coordinate.
    Between(Place, Place),
}

impl Bounds {
    fn with(self, place: Place) -> Bounds
        ensures { result ≡ with_place self place }
    {
        match self {
            Bounds::Nothing => Bounds::Between(place, place),
            Bounds::Between(least, most) => Bounds::Between(
                lower(least, place),
                upper(most, place),
            ),
        }
    }

    fn with_all(self, places: &[Place]) -> Bounds
        ensures { result ≡ with_all self places.now }
    {
        let mut bounds = self;
        for place in places {
            bounds = bounds.with(*place);
        }
        bounds
    }

    /// The box around the corners of these tetrahedra.
    pub(crate) fn of_tets(tets: &[Tet]) -> Bounds
        ensures { list_all (λ tet. are_within result tet.corners) tets.now ≡ true }
    {
        let mut bounds = Bounds::Nothing;
        for tet in tets {
            bounds = bounds.with_all(&tet.corners());
        }
        bounds
    }

    /// Whether a place is in the box.
    pub(crate) fn has(&self, place: Place) -> bool
        ensures { result ≡ is_within self.now place }
    {
        match self {
            Bounds::Nothing => false,
            Bounds::Between(least, most) => is_under(*least, place) && is_under(place, *most),
        }
    }

    fn has_all(&self, places: &[Place]) -> bool
        ensures { result ≡ are_within self.now places.now }
    {
        places.iter().all(|place| self.has(*place))
    }

    /// Whether all corners of a cell are in the box.
    pub(crate) fn has_cell(&self, cell: Cell) -> bool
        ensures { result ≡ are_within self.now (corners_of cell) }
    {
        match cell {
            Cell::Point(place) => self.has(place),
            Cell::Seg(ends) => self.has_all(&ends),
            Cell::Tri(corners) => self.has_all(&corners),
        }
    }
}
