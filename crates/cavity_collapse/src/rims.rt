// Where marked surfaces have a rim at a vertex.
ghost use Rattle.std.specs.Prelude.{◌≡◌, ◌++◌, OnOk};
ghost use Rattle.std.specs.List.{list_all};
ghost use Rattle.ma_geom.specs.Lines.{collinear};
ghost use Rattle.cavity_collapse.specs.Rims.{rim_at, rims_across, rims_of};
ghost use Rattle.cavity_collapse.specs.Surfaces.{across, are_on_both_sides, wings};

use crate::surfaces::{across, some_lie_beyond};
use ma_cells::Mark;
use ma_geom::{Memory, Place, collinear};

#[tactic(auto, using(crate::proofs::AlongRims::both_by_steps))]
fn are_on_both_sides(marks: &[Mark], a: Place, m: &Mark, x: Place, y: Place) -> bool
    ensures { result ≡ are_on_both_sides a x y (wings marks.now a x y m.now) }
{
    some_lie_beyond(marks, a, x, y, m)
}

fn push_rim(
    rims: &mut Vec<Place>,
    marks: &[Mark],
    a: Place,
    m: &Mark,
    x: Place,
    y: Place,
) -> Result<(), Memory>
    ensures { OnOk result (rims.new.items ≡ rims.old.items ++ rim_at marks.now a m.now x y) }
{
    if !are_on_both_sides(marks, a, m, x, y) {
        rims.push(x)?;
    }
    Ok(())
}

fn push_rims_across(rims: &mut Vec<Place>, marks: &[Mark], a: Place, m: &Mark) -> Result<(), Memory>
    ensures { OnOk result (rims.new.items ≡ rims.old.items ++ rims_across marks.now a m.now (across a m.now.cell)) }
{
    if let Some((x, y)) = across(a, m.cell()) {
        push_rim(rims, marks, a, m, x, y)?;
        push_rim(rims, marks, a, m, y, x)?;
    }
    Ok(())
}

/// Puts down the other ends of the edges at `a` at which a marked surface has a rim, so that they are
/// found once for all places that `a` may go to.
pub fn find_rims(rims: &mut Vec<Place>, marks: &[Mark], a: Place) -> Result<(), Memory>
    ensures { OnOk result (rims.new.items ≡ rims_of marks.now a) }
{
    rims.clear();
    for m in marks {
        push_rims_across(rims, marks, a, m)?;
    }
    Ok(())
}

/// Whether all these ends of edges at `a` are on the line to `v`.
pub(crate) fn all_lead_to(rims: &[Place], a: Place, v: Place) -> bool
    ensures { result ≡ list_all (λ x. collinear a x v) rims.now }
{
    rims.iter().all(|x| collinear(a, *x, v))
}
