// Tetrahedra.
ghost use Rattle.std.specs.Prelude.{◌≡◌, pos, true};
ghost use Rattle.std.specs.List.{list_all};
ghost use Rattle.ma_geom.specs.Coordinates.{place_cmp};
ghost use Rattle.ma_cells.specs.Ascending.{are_ascending, has};
ghost use Rattle.ma_cells.specs.Cells.{cell_cmp, corners_of, is_cell};
ghost use Rattle.ma_cells.specs.declared.cell.Cell.{Cell};
ghost use Rattle.ma_cells.specs.Faces.{edges_of, faces_of, holds_all};
ghost use Rattle.ma_cells.specs.Incidence.{cells_of};
ghost use Rattle.ma_cells.specs.Tetrahedron.{are_corners, is_flat, tetrahedron_of};

use crate::ascending::has_all;
use crate::cell::Cell;
use ma_geom::{Place, coplanar};
use std::marker::Model;

/// A tetrahedron with a region, the pair of `phys` and `elem`. Its corners ascend and aren't flat.
/// Tetrahedra are ordered by corners, then `phys`, then `elem`.
#[derive(Clone, Copy, Debug, PartialEq, Eq, PartialOrd, Ord, Hash)]
pub struct Tet {
    corners: [Place; 4],
    phys: i32,
    elem: i32,
}

impl Model for Tet {
    ghost use Rattle.std.specs.Prelude.{◌≡◌, true};
    ghost use Rattle.ma_cells.specs.Tetrahedron.{Tetrahedron, are_corners};

    ghost Value = { Tetrahedron };

    ghost view = { λ t. record { corners = t.corners; phys = t.phys; elem = t.elem } };

    ghost invariant = { λ t. are_corners t.corners ≡ true };

    ghost inverse = { λ t. record { corners = t.corners; phys = t.phys; elem = t.elem } };
}

/// A place with small coordinates.
fn small_place(x: u8, y: u8, z: u8) -> Place
    ensures { result ≡ record { x = pos x; y = pos y; z = pos z } }
{
    match Place::new(i32::from(x), i32::from(y), i32::from(z)) {
        Some(place) => place,
        None => unreachable!(),
    }
}

/// The tetrahedron of the origin and the unit vectors, with tags 0 0.
impl Default for Tet {
    ghost use Rattle.std.specs.Prelude.{◌≡◌, pos, ◌∷◌, []};

    ghost is_default = { λ t. t ≡ record {
      corners = record { x = pos 0; y = pos 0; z = pos 0 } ∷ record { x = pos 0; y = pos 0; z = pos 1 } ∷ record { x = pos 0; y = pos 1; z = pos 0 } ∷ record { x = pos 1; y = pos 0; z = pos 0 } ∷ [];
      phys = pos 0;
      elem = pos 0;
    } };

    fn default() -> Tet {
        Tet {
            corners: [
                small_place(0, 0, 0),
                small_place(0, 0, 1),
                small_place(0, 1, 0),
                small_place(1, 0, 0),
            ],
            phys: 0,
            elem: 0,
        }
    }
}

/// Whether each place is below the next.
pub(crate) fn are_ascending(places: &[Place]) -> bool
    ensures { result ≡ are_ascending place_cmp places.now }
{
    match places {
        [first, second, ..] => first < second && are_ascending(&places[1..]),
        _ => true,
    }
}

fn is_flat(corners: [Place; 4]) -> bool
    ensures { result ≡ is_flat corners }
{
    coplanar(corners[0], corners[1], corners[2], corners[3])
}

/// The triples of these places, each in their order.
fn triples(corners: [Place; 4]) -> [[Place; 3]; 4]
    ensures { result ≡ faces_of corners }
{
    let [a, b, c, d] = corners;
    [[a, b, c], [a, b, d], [a, c, d], [b, c, d]]
}

/// The pairs of these places, each in their order.
fn pairs(corners: [Place; 4]) -> [[Place; 2]; 6]
    ensures { result ≡ edges_of corners }
{
    let [a, b, c, d] = corners;
    [[a, b], [a, c], [a, d], [b, c], [b, d], [c, d]]
}

/// The points, the segments and the triangles of these places, each in their order.
fn cells(corners: [Place; 4]) -> [Cell; 14]
    ensures { result ≡ cells_of corners }
{
    let [a, b, c, d] = corners;
    [
        Cell::Point(a),
        Cell::Point(b),
        Cell::Point(c),
        Cell::Point(d),
        Cell::Seg([a, b]),
        Cell::Seg([a, c]),
        Cell::Seg([a, d]),
        Cell::Seg([b, c]),
        Cell::Seg([b, d]),
        Cell::Seg([c, d]),
        Cell::Tri([a, b, c]),
        Cell::Tri([a, b, d]),
        Cell::Tri([a, c, d]),
        Cell::Tri([b, c, d]),
    ]
}

impl Tet {
    /// The tetrahedron with these corners, given in any order. None where they are flat.
    pub fn new(mut corners: [Place; 4], phys: i32, elem: i32) -> Option<Tet>
        ensures { result ≡ tetrahedron_of corners phys elem }
    {
        corners.sort_unstable();
        if are_ascending(&corners) && !is_flat(corners) {
            Some(Tet {
                corners,
                phys,
                elem,
            })
        } else {
            None
        }
    }

    pub fn corners(&self) -> [Place; 4]
        ensures value { result ≡ self.now.corners }
        ensures corners { are_corners result ≡ true }
    {
        self.corners
    }

    pub fn phys(&self) -> i32
        ensures { result ≡ self.now.phys }
    {
        self.phys
    }

    pub fn elem(&self) -> i32
        ensures { result ≡ self.now.elem }
    {
        self.elem
    }

    /// The triangles of its corners, in the order 012, 013, 023, 123. Takes no memory.
    pub fn faces(&self) -> [[Place; 3]; 4]
        ensures value { result ≡ faces_of self.now.corners }
        ensures rise { list_all (are_ascending place_cmp) result ≡ true }
    {
        triples(self.corners)
    }

    /// The pairs of its corners, in the order 01, 02, 03, 12, 13, 23. Takes no memory.
    pub fn edges(&self) -> [[Place; 2]; 6]
        ensures value { result ≡ edges_of self.now.corners }
        ensures rise { list_all (are_ascending place_cmp) result ≡ true }
    {
        pairs(self.corners)
    }

    /// Its points, its segments and its triangles, each in the order of its corners. Takes no
    /// memory.
    pub fn cells(&self) -> [Cell; 14]
        ensures value { result ≡ cells_of self.now.corners }
        // A cell is among them just where each of its corners is one of the tetrahedron's.
        ensures has { (cell : Cell) → is_cell cell ≡ true → has cell_cmp cell result ≡ holds_all self.now.corners (corners_of cell) }
    {
        cells(self.corners)
    }

    /// Whether each of these places is a corner. Takes no memory.
    pub fn holds(&self, corners: &[Place]) -> bool
        ensures { result ≡ holds_all self.now.corners corners.now }
    {
        has_all(&self.corners, corners)
    }
}
