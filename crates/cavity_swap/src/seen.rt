// Whether the faces of a cavity are bare, and seen from a place.
ghost use Rattle.std.specs.Prelude.{◌≡◌, ◌==◌, ◌||◌, ◌&&◌, not};
ghost use Rattle.std.specs.Cmp.Lexicographic.{slice_cmp};
ghost use Rattle.std.specs.List.{list_all};
ghost use Rattle.std.specs.Ordering.{eq_by_cmp};
ghost use Rattle.ma_geom.specs.Coordinates.{place_cmp};
ghost use Rattle.ma_geom.specs.Signs.{same_sign, side_of};
ghost use Rattle.ma_cells.specs.Ascending.{has};
ghost use Rattle.ma_cells.specs.Cells.{corners_of};
ghost use Rattle.ma_cells.specs.Faces.{faces_of};
ghost use Rattle.ma_cells.specs.Incidence.{is_marked};
ghost use Rattle.cavity_swap.specs.Judging.{is_bare, outer_faces_are_seen};
ghost use Rattle.cavity_swap.specs.Steps.{are_seen, is_beside, is_seen_from};
ghost use Rattle.cavity_swap.specs.Swapping.{had_by};

use crate::filling::{had_by, is_outer};
use crate::places::has;
use ma_cells::{Cell, Mark, Tet};
use ma_geom::{Place, side};

fn same_places(p: &[Place], q: &[Place]) -> bool
    ensures { result ≡ eq_by_cmp (slice_cmp place_cmp) p.now q.now }
{
    p.cmp(q).is_eq()
}

fn is_on(cell: Cell, corners: &[Place]) -> bool
    ensures { result ≡ eq_by_cmp (slice_cmp place_cmp) (corners_of cell) corners.now }
{
    match cell {
        Cell::Point(p) => same_places(&[p], corners),
        Cell::Seg(ends) => same_places(&ends, corners),
        Cell::Tri(triangle) => same_places(&triangle, corners),
    }
}

fn is_marked(marks: &[Mark], corners: &[Place]) -> bool
    ensures { result ≡ is_marked marks.now corners.now }
{
    marks.iter().any(|mark| is_on(mark.cell(), corners))
}

fn is_free(cavity: &[Tet], marks: &[Mark], face: [Place; 3]) -> bool
    ensures { result ≡ not (had_by cavity.now face == 2 && is_marked marks.now face) }
{
    !is_marked(marks, &face) || had_by(cavity, face) != 2
}

fn faces_are_free(cavity: &[Tet], marks: &[Mark], faces: &[[Place; 3]]) -> bool
    ensures { result ≡ list_all (λ face. not (had_by cavity.now face == 2 && is_marked marks.now face)) faces.now }
{
    faces.iter().all(|face| is_free(cavity, marks, *face))
}

fn has_free_faces(cavity: &[Tet], marks: &[Mark], tet: &Tet) -> bool
    ensures { result ≡ list_all (λ face. not (had_by cavity.now face == 2 && is_marked marks.now face)) (faces_of tet.now.corners) }
{
    faces_are_free(cavity, marks, &tet.faces())
}

fn have_free_faces(cavity: &[Tet], marks: &[Mark]) -> bool
    ensures { result ≡ list_all (λ tet. list_all (λ face. not (had_by cavity.now face == 2 && is_marked marks.now face)) (faces_of tet.corners)) cavity.now }
{
    cavity.iter().all(|tet| has_free_faces(cavity, marks, tet))
}

/// Whether no mark is on the edge or the face `at`, nor on a face between two tetrahedra.
pub(crate) fn is_bare(marks: &[Mark], at: &[Place], cavity: &[Tet]) -> bool
    ensures { result ≡ is_bare marks.now at.now cavity.now }
{
    !is_marked(marks, at) && have_free_faces(cavity, marks)
}

fn is_beside(face: [Place; 3], v: Place, d: Place) -> bool
    ensures { result ≡ is_beside face v d }
{
    has(&face, d) || side(face, v) == side(face, d)
}

fn are_beside(face: [Place; 3], v: Place, corners: [Place; 4]) -> bool
    ensures { result ≡ list_all (is_beside face v) corners }
{
    corners.iter().all(|d| is_beside(face, v, *d))
}

pub(crate) fn is_seen_from(v: Place, corners: [Place; 4], face: [Place; 3]) -> bool
    ensures { result ≡ is_seen_from v corners face }
{
    has(&face, v) || are_beside(face, v, corners)
}

fn is_inner_or_seen(cavity: &[Tet], v: Place, corners: [Place; 4], face: [Place; 3]) -> bool
    ensures { result ≡ (not (had_by cavity.now face == 1) || is_seen_from v corners face) }
{
    !is_outer(cavity, face) || is_seen_from(v, corners, face)
}

fn faces_are_seen(cavity: &[Tet], v: Place, corners: [Place; 4], faces: &[[Place; 3]]) -> bool
    ensures { result ≡ list_all (λ face. not (had_by cavity.now face == 1) || is_seen_from v corners face) faces.now }
{
    faces
        .iter()
        .all(|face| is_inner_or_seen(cavity, v, corners, *face))
}

fn has_seen_faces(cavity: &[Tet], v: Place, tet: &Tet) -> bool
    ensures { result ≡ list_all (λ face. not (had_by cavity.now face == 1) || is_seen_from v tet.now.corners face) (faces_of tet.now.corners) }
{
    faces_are_seen(cavity, v, tet.corners(), &tet.faces())
}

fn are_seen(cavity: &[Tet], v: Place) -> bool
    ensures { result ≡ are_seen cavity.now v }
{
    cavity.iter().all(|tet| has_seen_faces(cavity, v, tet))
}

/// Whether `v` lies on the side of its tetrahedron of each outer face that lacks it.
#[tactic(auto, using(crate::proofs::FaceByFace::seen_by_steps))]
pub(crate) fn outer_faces_are_seen(cavity: &[Tet], v: Place) -> bool
    ensures { result ≡ outer_faces_are_seen cavity.now v }
{
    are_seen(cavity, v)
}
