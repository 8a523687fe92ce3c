// The faces across from a vertex, found once for all places that it may go to.
ghost use Rattle.std.specs.Prelude.{◌≡◌, ◌++◌, ◌∷◌, [], ◌||◌, true, OnOk};
ghost use Rattle.std.specs.List.{list_all};
ghost use Rattle.ma_geom.specs.Coordinates.{place_cmp};
ghost use Rattle.ma_geom.specs.Signs.{same_sign, side_of};
ghost use Rattle.ma_cells.specs.Ascending.{has};
ghost use Rattle.ma_cells.specs.Tetrahedron.{are_corners};
ghost use Rattle.cavity_collapse.specs.Facing.{AreFacing, are_seen_from, facing};

use crate::places::has;
use crate::stars::face_across;
use ma_cells::Tet;
use ma_geom::{Memory, Place, Sign, side};

/// A face of a tetrahedron, and the side of the face on which the tetrahedron lies.
#[derive(Clone, Copy, Debug)]
pub struct SidedFace {
    pub face: [Place; 3],
    pub side: Sign,
}

fn push_facing(faces: &mut Vec<SidedFace>, tet: &Tet, a: Place) -> Result<(), Memory>
    requires { has place_cmp a tet.now.corners ≡ true }
    ensures face { OnOk result (faces.new.items ≡ faces.old.items ++ facing a tet.now ∷ []) }
    ensures corners { OnOk result (are_corners tet.now.corners ≡ true) }
{
    match face_across(tet.corners(), a) {
        Some(face) => {
            faces.push(SidedFace {
                face,
                side: side(face, a),
            })?;
            Ok(())
        }
        None => unreachable!(),
    }
}

/// Puts down the faces across from `a` of tetrahedra that have it as a corner, so that the side of
/// `a` is found once for all places that `a` may go to.
pub fn find_facing(faces: &mut Vec<SidedFace>, star: &[Tet], a: Place) -> Result<(), Memory>
    requires { list_all (λ tet. has place_cmp a tet.corners) star.now ≡ true }
    ensures { OnOk result (AreFacing star.now a faces.new.items) }
{
    faces.clear();
    for tet in star {
        push_facing(faces, tet, a)?;
    }
    Ok(())
}

fn is_seen_from(v: Place, face: [Place; 3], inside: Sign) -> bool
    ensures { result ≡ (has place_cmp v face || same_sign (side_of face v) inside) }
{
    has(&face, v) || side(face, v) == inside
}

/// Whether each of these faces has `v`, or `v` lies on its side.
pub fn are_seen_from(v: Place, faces: &[SidedFace]) -> bool
    ensures { result ≡ are_seen_from v faces.now }
{
    faces.iter().all(|one| is_seen_from(v, one.face, one.side))
}
