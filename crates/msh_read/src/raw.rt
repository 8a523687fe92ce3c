// A mesh as it stands in a file.
ghost use Rattle.std.specs.Prelude.{refl};
ghost use Rattle.std.specs.Cmp.{eq_by_cmp_equiv, partial_equiv_from_equiv, partial_order_from_total};
ghost use Rattle.std.specs.Ordering.{as_partial_cmp, eq_by_cmp};
ghost use Rattle.msh_read.specs.GroupNames.{name_cmp, name_cmp_total};

use arrayvec::ArrayVec;
use ma_geom::Place;
use std::cmp::Ordering;
use std::marker::Model;

/// Nodes, tetrahedra and marks in the order of the file, and the set of names.
#[derive(Debug, Drop, PartialEq, Eq)]
pub struct RawMesh {
    pub nodes: Vec<Place>,
    pub tets: Vec<RawTet>,
    pub marks: Vec<RawMark>,
    pub names: Vec<Name>,
}

/// A tetrahedron by the positions, from 0, of its nodes among all nodes, in the order of its line.
#[derive(Clone, Copy, Debug, PartialEq, Eq)]
pub struct RawTet {
    pub at: [u32; 4],
    pub phys: i32,
    pub elem: i32,
}

/// A point, a line or a triangle by the positions, from 0, of its nodes among all nodes, in the order
/// of its line.
#[derive(Debug, Drop, PartialEq, Eq)]
pub struct RawMark {
    pub at: ArrayVec<u32, 3>,
    pub phys: i32,
    pub elem: i32,
}

/// The name of a physical group. Names are ordered by dimension, then number, then text.
#[derive(Debug, Drop)]
pub struct Name {
    pub dimension: u8,
    pub number: i32,
    pub text: Vec<u8>,
}

impl Model for Name {
    ghost use Rattle.msh_read.specs.GroupNames.{GroupName};

    ghost Value = { GroupName };

    ghost view = { λ n. record { dimension = n.dimension; number = n.number; text = n.text.items } };
}

impl PartialEq for Name {
    ghost eq = { eq_by_cmp name_cmp };

    ghost laws = { partial_equiv_from_equiv (eq_by_cmp_equiv name_cmp_total) };

    fn eq(&self, other: &Name) -> bool {
        self.cmp(other) == Ordering::Equal
    }
}

impl Eq for Name {
    ghost laws = { eq_by_cmp_equiv name_cmp_total };
}

impl PartialOrd for Name {
    ghost partial_cmp = { as_partial_cmp name_cmp };

    ghost laws = { partial_order_from_total name_cmp_total };

    fn partial_cmp(&self, other: &Name) -> Option<Ordering> {
        Some(self.cmp(other))
    }
}

impl Ord for Name {
    ghost cmp = { name_cmp };

    ghost total = { name_cmp_total };

    ghost matches_partial_cmp = { λ a b. refl };

    ghost matches_eq = { λ a b. refl };

    fn cmp(&self, other: &Name) -> Ordering {
        self.dimension
            .cmp(&other.dimension)
            .then(self.number.cmp(&other.number))
            .then(self.text.as_slice().cmp(other.text.as_slice()))
    }
}
