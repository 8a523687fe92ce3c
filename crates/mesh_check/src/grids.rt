// The grid that a mesh is on.
ghost use Rattle.std.specs.Prelude.{◌≡◌, ◌≤◌};
ghost use Rattle.std.specs.List.{list_all};
ghost use Rattle.ma_cells.specs.Grid.{IsGreatest, are_on_grid, greatest, grid_of, is_multiple, is_on_grid};

use ma_cells::{Mesh, Tet};
use ma_geom::Place;

/// The exponent of the coarsest grid that is looked for.
const COARSEST: u32 = 30;

#[tactic(auto, unfolding(ma_cells::specs::Grid::is_multiple))]
fn is_multiple(exponent: u32, coordinate: i32) -> bool
    requires { exponent ≤ 30 }
    ensures { result ≡ is_multiple exponent coordinate }
{
    coordinate.unsigned_abs() % (1 << exponent) == 0
}

fn is_on_grid(exponent: u32, place: Place) -> bool
    requires { exponent ≤ 30 }
    ensures { result ≡ is_on_grid exponent place }
{
    is_multiple(exponent, place.x())
        && is_multiple(exponent, place.y())
        && is_multiple(exponent, place.z())
}

fn has_corners_on_grid(exponent: u32, tet: &Tet) -> bool
    requires { exponent ≤ 30 }
    ensures { result ≡ list_all (is_on_grid exponent) tet.now.corners }
{
    tet.corners()
        .iter()
        .all(|corner| is_on_grid(exponent, *corner))
}

fn are_on_grid(exponent: u32, tets: &[Tet]) -> bool
    requires { exponent ≤ 30 }
    ensures { result ≡ are_on_grid exponent tets.now }
{
    tets.iter().all(|tet| has_corners_on_grid(exponent, tet))
}

/// The greatest exponent up to the given one for which all corners are on the grid, or 0.
fn grid_up_to(exponent: u32, tets: &[Tet]) -> u32
    requires { exponent ≤ 30 }
    ensures { result ≡ greatest exponent (λ k. are_on_grid k tets.now) }
{
    if exponent == 0 || are_on_grid(exponent, tets) {
        exponent
    } else {
        grid_up_to(exponent - 1, tets)
    }
}

/// The grid exponent of a mesh: the greatest k up to 30 for which all coordinates of its tetrahedra
/// are multiples of 2^k, and 30 where it has no tetrahedron. Each k is given up at the first
/// tetrahedron that isn't on its grid. Takes no memory.
#[tactic(auto, unfolding(ma_cells::specs::Grid::grid_of))]
pub fn grid(mesh: &Mesh) -> u32
    ensures value { result ≡ grid_of mesh.now.tets }
    ensures greatest { IsGreatest 30 (λ k. are_on_grid k mesh.now.tets) result }
{
    grid_up_to(COARSEST, mesh.tets())
}
