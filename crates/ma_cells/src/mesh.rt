// Meshes.
ghost use Rattle.std.specs.Prelude.{◌≡◌, true};
ghost use Rattle.std.specs.List.Sorted.{IsStrictlySortedBy};
ghost use Rattle.ma_cells.specs.Cells.{mark_cmp};
ghost use Rattle.ma_cells.specs.Meshes.{are_listed_once};

use crate::{Ascending, Mark, Tet};
use std::marker::Model;

/// Tetrahedra in an order of their own, no two with the same corners, a set of marks, and how many
/// marks were loose and dropped.
#[derive(Debug, Drop)]
pub struct Mesh {
    tets: Vec<Tet>,
    marks: Ascending<Mark>,
    loose: u64,
}

impl Model for Mesh {
    ghost use Rattle.std.specs.Prelude.{◌≡◌, true};
    ghost use Rattle.ma_cells.specs.Meshes.{MarkedMesh, are_listed_once};

    ghost Value = { MarkedMesh };

    ghost view = { λ m. record { tets = m.tets.items; marks = m.marks; loose = m.loose } };

    ghost invariant = { λ m. are_listed_once m.tets.items ≡ true };
}

impl Mesh {
    pub fn new(tets: Vec<Tet>, marks: Ascending<Mark>, loose: u64) -> Mesh
        requires { are_listed_once tets.items ≡ true }
        ensures { result ≡ record { tets = tets.items; marks = marks; loose = loose } }
    {
        Mesh { tets, marks, loose }
    }

    pub fn tets(&self) -> &[Tet]
        ensures value { result.now ≡ self.now.tets }
        ensures once { are_listed_once result.now ≡ true }
    {
        self.tets.as_slice()
    }

    pub fn marks(&self) -> &[Mark]
        ensures value { result.now ≡ self.now.marks }
        ensures rise { IsStrictlySortedBy mark_cmp result.now }
    {
        self.marks.as_slice()
    }

    pub fn loose(&self) -> u64
        ensures { result ≡ self.now.loose }
    {
        self.loose
    }
}
