// What a collapse leaves.
ghost use Rattle.std.specs.Prelude.{◌≡◌, ◌∷◌, [], None, Some, if◌then◌else◌, map, nat_le, true};
ghost use Rattle.std.specs.List.{flat_map};
ghost use Rattle.ma_geom.specs.Coordinates.{place_cmp};
ghost use Rattle.ma_geom.specs.Quality.{quality};
ghost use Rattle.ma_cells.specs.Ascending.{are_ascending};
ghost use Rattle.ma_cells.specs.Stars.{besides, cone};
ghost use Rattle.ma_cells.specs.Tetrahedron.{tetrahedron_of};
ghost use Rattle.ma_cells.specs.Worst.{least, worst};
ghost use Rattle.cavity_collapse.specs.Collapsing.{collapsed};
ghost use Rattle.cavity_collapse.specs.Facing.{AreFacing, are_seen_from, cone_qualities, cone_quality, have_sides, if_at_least};
ghost use Rattle.cavity_collapse.specs.Judging.{faces_are_seen, quality_is_kept};
ghost use Rattle.cavity_collapse.specs.Steps.{each_passes, least_with, lesser, lies_off, with_quality, worst_with};

use crate::facing::SidedFace;
use crate::places::has;
use crate::stars::face_across;
use ma_cells::Tet;
use ma_geom::{Place, quality};

/// The tetrahedron with these corners and the region of another one.
fn alike(corners: [Place; 4], tet: &Tet) -> Option<Tet>
    ensures { result ≡ tetrahedron_of corners tet.now.phys tet.now.elem }
{
    Tet::new(corners, tet.phys(), tet.elem())
}

/// The tetrahedron from `v` over a face, with the region of another one.
fn cone(v: Place, face: [Place; 3], tet: &Tet) -> Option<Tet>
    ensures { result ≡ tetrahedron_of (v ∷ face) tet.now.phys tet.now.elem }
{
    let [x, y, z] = face;
    alike([v, x, y, z], tet)
}

/// A tetrahedron with `v` in the place of its corner `a`, unless it is flat, as where it holds both.
/// Without `a` it is left out, unless it holds `v`.
pub(crate) fn moved_tet(tet: &Tet, a: Place, v: Place) -> Option<Tet>
    ensures { result ≡ tetrahedron_of (v ∷ besides (a ∷ []) tet.now.corners) tet.now.phys tet.now.elem }
{
    match face_across(tet.corners(), a) {
        Some(face) => cone(v, face, tet),
        None => if tet.holds(&[v]) { Some(*tet) } else { None },
    }
}

fn tet_quality(tet: &Tet) -> u32
    ensures { result ≡ quality tet.now.corners }
{
    quality(tet.corners())
}

/// The least of a number and the qualities of tetrahedra.
fn worst_from(first: u32, tets: &[Tet]) -> u32
    ensures { result ≡ least (first ∷ map (λ tet. quality tet.corners) tets.now) }
{
    let mut worst = first;
    for tet in tets {
        worst = worst.min(tet_quality(tet));
    }
    worst
}

/// The least quality, 0 where there is no tetrahedron. Takes no memory.
#[tactic(auto, unfolding(ma_cells::specs::Worst::worst))]
pub fn worst(tets: &[Tet]) -> u32
    ensures { result ≡ worst tets.now }
{
    match tets {
        [first, rest @ ..] => worst_from(tet_quality(first), rest),
        [] => 0,
    }
}

fn lesser(least: Option<u32>, number: u32) -> u32
    ensures { result ≡ lesser least number }
{
    match least {
        Some(least) => least.min(number),
        None => number,
    }
}

fn worst_with(worst: Option<u32>, tet: Option<Tet>) -> Option<u32>
    ensures { result ≡ worst_with worst tet }
{
    match tet {
        Some(tet) => Some(lesser(worst, tet_quality(&tet))),
        None => worst,
    }
}

fn worst_if_any(star: &[Tet], a: Place, v: Place) -> Option<u32>
    ensures { least_with result [] ≡ least (map (λ tet. quality tet.corners) (flat_map (λ tet. cone v tet.phys tet.elem (besides (a ∷ []) tet.corners)) star.now)) }
{
    let mut worst = None;
    for tet in star {
        worst = worst_with(worst, moved_tet(tet, a, v));
    }
    worst
}

/// The least quality of the tetrahedra that fill the star of `a`, 0 where there is none.
#[tactic(auto, unfolding(ma_cells::specs::Worst::worst))]
pub(crate) fn new_worst(star: &[Tet], a: Place, v: Place) -> u32
    ensures { result ≡ worst (collapsed a v star.now) }
{
    worst_if_any(star, a, v).unwrap_or(0)
}

/// Whether a least quality that was `old` doesn't fall, or not below a sixty-fourth.
pub(crate) fn quality_is_kept(old: u32, new: u32) -> bool
    ensures { result ≡ quality_is_kept old new }
{
    old <= new || 1 << 24 <= new
}

/// The quality of the tetrahedron from `v` over a face, unless the face has `v`.
fn cone_quality(v: Place, face: [Place; 3]) -> Option<u32>
    requires { lies_off v face ≡ true }
    ensures { result ≡ cone_quality v face }
{
    if has(&face, v) {
        return None;
    }
    let [x, y, z] = face;
    Some(quality([x, y, z, v]))
}

fn with_quality(worst: Option<u32>, quality: Option<u32>) -> Option<u32>
    ensures { result ≡ with_quality worst quality }
{
    match quality {
        Some(quality) => Some(lesser(worst, quality)),
        None => worst,
    }
}

fn is_at_least(floor: u32, worst: Option<u32>) -> bool
    ensures { result ≡ each_passes (nat_le floor) worst }
{
    match worst {
        Some(worst) => floor <= worst,
        None => true,
    }
}

fn if_at_least(floor: u32, number: u32) -> Option<u32>
    ensures { result ≡ if_at_least floor number }
{
    if floor <= number { Some(number) } else { None }
}

/// The least quality of the tetrahedra from `v` over these faces, 0 where there is none, if it is
/// `floor` at least. It is given up at the first of them that is below.
pub fn worst_over(faces: &[SidedFace], v: Place, floor: u32) -> Option<u32>
    requires sides { have_sides faces.now ≡ true }
    requires seen { are_seen_from v faces.now ≡ true }
    ensures { result ≡ if_at_least floor (least (cone_qualities v faces.now)) }
{
    let mut worst = None;
    for one in faces {
        worst = with_quality(worst, cone_quality(v, one.face));
        if !is_at_least(floor, worst) {
            return None;
        }
    }
    if_at_least(floor, worst.unwrap_or(0))
}

/// The least quality of what fills the star of `a` from `v`, by the faces across from `a`, if it is
/// kept. That of the star is looked for only where the new one is below a sixty-fourth.
pub(crate) fn kept_worst(star: &[Tet], faces: &[SidedFace], a: Place, v: Place) -> Option<u32>
    requires faces { AreFacing star.now a faces.now }
    requires seen { faces_are_seen star.now a v ≡ true }
    ensures { result ≡ (if quality_is_kept (worst star.now) (worst (collapsed a v star.now)) then Some (worst (collapsed a v star.now)) else None) }
{
    match worst_over(faces, v, 1 << 24) {
        Some(new) => Some(new),
        None => worst_over(faces, v, worst(star).min(1 << 24)),
    }
}
