// Whether a collapse is legal.
ghost use Rattle.std.specs.Prelude.{◌≡◌, ◌∷◌, [], ◌&&◌, not, Ok};
ghost use Rattle.std.specs.List.{list_all, list_any};
ghost use Rattle.ma_geom.specs.Lines.{collinear};
ghost use Rattle.ma_cells.specs.Faces.{holds_all};
ghost use Rattle.ma_cells.specs.Worst.{worst};
ghost use Rattle.size_marks.specs.Field.{is_short};
ghost use Rattle.cavity_rank.specs.Verdicts.{first_failing, verdict_of};
ghost use Rattle.cavity_collapse.specs.Collapsing.{is_same};
ghost use Rattle.cavity_collapse.specs.Curves.{curves_are_kept, is_free_point};
ghost use Rattle.cavity_collapse.specs.Facing.{AreFacing, are_seen_from, others_of};
ghost use Rattle.cavity_collapse.specs.Judging.{edges_stay_short, faces_are_seen, is_short_edge, judged_collapse, legal_quality, quality_is_kept};
ghost use Rattle.cavity_collapse.specs.Rims.{rims_of};
ghost use Rattle.cavity_collapse.specs.Surfaces.{planes_are_kept, surfaces_are_kept, turns_are_kept};

use crate::curves::{curves_are_kept, is_free_point};
use crate::facing::{SidedFace, are_seen_from};
use crate::filling::{kept_worst, new_worst, quality_is_kept, worst};
use crate::rims::all_lead_to;
use crate::stars::{
    are_ends, edges_stay_short, edges_to_others_stay_short, faces_are_seen, is_short_edge,
};
use crate::surfaces::{planes_are_kept, surfaces_are_kept, turns_are_kept};
use cavity_rank::Verdict;
use ma_cells::{Mark, Tet};
use ma_geom::{Memory, Place};
use size_marks::SizeField;

/// The number of the first test that fails, of all but that of quality.
fn failing(star: &[Tet], marks: &[Mark], a: Place, v: Place, field: &SizeField) -> Option<u8>
    ensures { result ≡ first_failing 1 (is_short_edge field.now star.now a v ∷ is_free_point marks.now a ∷ curves_are_kept marks.now a v ∷ planes_are_kept marks.now a v ∷ surfaces_are_kept marks.now a v ∷ turns_are_kept marks.now a v ∷ faces_are_seen star.now a v ∷ edges_stay_short field.now star.now a v ∷ []) }
{
    if !is_short_edge(field, star, a, v) {
        Some(1)
    } else if !is_free_point(marks, a) {
        Some(2)
    } else if !curves_are_kept(marks, a, v) {
        Some(3)
    } else if !planes_are_kept(marks, a, v) {
        Some(4)
    } else if !surfaces_are_kept(marks, a, v) {
        Some(5)
    } else if !turns_are_kept(marks, a, v) {
        Some(6)
    } else if !faces_are_seen(star, a, v) {
        Some(7)
    } else if !edges_stay_short(field, star, a, v) {
        Some(8)
    } else {
        None
    }
}

fn by_quality(old: u32, new: u32) -> Verdict
    ensures { result ≡ verdict_of new (first_failing 9 (quality_is_kept old new ∷ [])) }
{
    if quality_is_kept(old, new) {
        Verdict::Legal { worst: new }
    } else {
        Verdict::Illegal(9)
    }
}

/// The verdict on a collapse of `a` to `v`, with the least quality of its star. Takes no memory.
pub fn judge_with(
    star: &[Tet],
    marks: &[Mark],
    a: Place,
    v: Place,
    field: &SizeField,
    old: u32,
) -> Verdict
    requires { old ≡ worst star.now }
    ensures { result ≡ judged_collapse field.now star.now marks.now a v }
{
    match failing(star, marks, a, v, field) {
        Some(number) => Verdict::Illegal(number),
        None => by_quality(old, new_worst(star, a, v)),
    }
}

/// The verdict on a collapse of `a` to `v`: the number of the first of nine tests that fails, or the
/// least quality of the new tetrahedra. `star` is to have all tetrahedra that have the corner `a`,
/// and `marks` all marks at `a`; other marks change nothing. Answers always, and takes no memory.
///
/// The tests are: 1, `a` and `v` are the ends of a short edge; 2, no point is marked at `a`; 3, the
/// segments at `a` run straight through to `v`, for each tag; 4, `v` lies in the plane of each
/// triangle at `a`; 5, the triangles of each tag and plane have no rim at `a` but along the line to
/// `v`; 6, each triangle without `v` keeps its turn; 7, `v` lies on the side of `a` of each face
/// across from `a`; 8, no edge of a new tetrahedron is long from `v`; 9, the least quality doesn't
/// fall, or not below 2^24. After the collapses of MeshAdapt (Li, Shephard and Beall 2005).
pub fn judge(
    star: &[Tet],
    marks: &[Mark],
    a: Place,
    v: Place,
    field: &SizeField,
) -> Result<Verdict, Memory>
    ensures { result ≡ Ok (judged_collapse field.now star.now marks.now a v) }
{
    match failing(star, marks, a, v, field) {
        Some(number) => Ok(Verdict::Illegal(number)),
        None => Ok(by_quality(worst(star), new_worst(star, a, v))),
    }
}

/// Whether the tests pass that cost little and refuse most. Of the faces a third is refused where
/// all others pass, so they come before what is asked of surfaces and of sizes.
fn may_move(faces: &[SidedFace], marks: &[Mark], a: Place, v: Place, field: &SizeField) -> bool
    ensures { result ≡ list_all (λ test. test) (is_short field.now a v ∷ is_free_point marks.now a ∷ planes_are_kept marks.now a v ∷ are_seen_from v faces.now ∷ []) }
{
    field.is_short(a, v)
        && is_free_point(marks, a)
        && planes_are_kept(marks, a, v)
        && are_seen_from(v, faces)
}

/// Whether the tests pass that cost more.
fn may_stay(
    star: &[Tet],
    others: &[Place],
    marks: &[Mark],
    rims: &[Place],
    a: Place,
    v: Place,
    field: &SizeField,
) -> bool
    requires { others.now ≡ others_of (a ∷ []) star.now }
    ensures { result ≡ list_all (λ test. test) ((not (is_same a v) && list_any (λ tet. holds_all tet.corners (a ∷ v ∷ [])) star.now) ∷ curves_are_kept marks.now a v ∷ list_all (λ x. collinear a x v) rims.now ∷ turns_are_kept marks.now a v ∷ edges_stay_short field.now star.now a v ∷ []) }
{
    all_lead_to(rims, a, v)
        && curves_are_kept(marks, a, v)
        && turns_are_kept(marks, a, v)
        && are_ends(star, a, v)
        && edges_to_others_stay_short(field, star, others, a, v)
}

/// Whether all tests pass but that of quality.
fn may_go(
    star: &[Tet],
    others: &[Place],
    faces: &[SidedFace],
    marks: &[Mark],
    rims: &[Place],
    a: Place,
    v: Place,
    field: &SizeField,
) -> bool
    requires { others.now ≡ others_of (a ∷ []) star.now }
    ensures { result ≡ (list_all (λ test. test) (is_short field.now a v ∷ is_free_point marks.now a ∷ planes_are_kept marks.now a v ∷ are_seen_from v faces.now ∷ []) && list_all (λ test. test) ((not (is_same a v) && list_any (λ tet. holds_all tet.corners (a ∷ v ∷ [])) star.now) ∷ curves_are_kept marks.now a v ∷ list_all (λ x. collinear a x v) rims.now ∷ turns_are_kept marks.now a v ∷ edges_stay_short field.now star.now a v ∷ [])) }
{
    may_move(faces, marks, a, v, field) && may_stay(star, others, marks, rims, a, v, field)
}

/// The least quality of the new tetrahedra, where a collapse of `a` to `v` is legal, with the least
/// quality of its star. It takes no memory.
pub fn legal_with(
    star: &[Tet],
    marks: &[Mark],
    a: Place,
    v: Place,
    field: &SizeField,
    old: u32,
) -> Option<u32>
    requires { old ≡ worst star.now }
    ensures { result ≡ legal_quality (judged_collapse field.now star.now marks.now a v) }
{
    match judge_with(star, marks, a, v, field, old) {
        Verdict::Legal { worst } => Some(worst),
        Verdict::Illegal(_) => None,
    }
}

/// The same, by what is the same for each `v`: the other corners around `a`, the faces across from
/// it, and the rims of marked surfaces at it. The tests that cost less come first.
pub fn legal_beside(
    star: &[Tet],
    others: &[Place],
    faces: &[SidedFace],
    marks: &[Mark],
    rims: &[Place],
    a: Place,
    v: Place,
    field: &SizeField,
) -> Option<u32>
    requires others { others.now ≡ others_of (a ∷ []) star.now }
    requires faces { AreFacing star.now a faces.now }
    requires rims { rims.now ≡ rims_of marks.now a }
    ensures { result ≡ legal_quality (judged_collapse field.now star.now marks.now a v) }
{
    if may_go(star, others, faces, marks, rims, a, v, field) {
        kept_worst(star, faces, a, v)
    } else {
        None
    }
}
