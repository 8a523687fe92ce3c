// Whether marked points and marked segments let a vertex go.
ghost use Rattle.std.specs.Prelude.{◌≡◌, ◌∷◌, [], not, ◌&&◌, ◌||◌, true};
ghost use Rattle.std.specs.Cmp.Lexicographic.{slice_cmp};
ghost use Rattle.std.specs.List.{list_all, list_any};
ghost use Rattle.std.specs.Ordering.{eq_by_cmp};
ghost use Rattle.ma_geom.specs.Coordinates.{place_cmp};
ghost use Rattle.ma_geom.specs.Lines.{between};
ghost use Rattle.ma_cells.specs.Ascending.{has};
ghost use Rattle.ma_cells.specs.Cells.{corners_of, is_cell};
ghost use Rattle.ma_cells.specs.Incidence.{is_marked};
ghost use Rattle.cavity_collapse.specs.Collapsing.{is_same};
ghost use Rattle.cavity_collapse.specs.Curves.{curve_ends, curves_are_kept, end_across, far_end, is_free_point, is_segment_at, run_straight, same_tag, tagged_end};
ghost use Rattle.cavity_collapse.specs.Steps.{curve_goes_straight, ends_within, goes_straight, leads_to};

use crate::places::{has, is_same};
use ma_cells::{Cell, Mark};
use ma_geom::{Place, between};

pub(crate) fn same_tag(m: &Mark, n: &Mark) -> bool
    ensures { result ≡ same_tag m.now n.now }
{
    m.phys() == n.phys() && m.elem() == n.elem()
}

fn is_point(cell: Cell, a: Place) -> bool
    requires { is_cell cell ≡ true }
    ensures { result ≡ eq_by_cmp (slice_cmp place_cmp) (corners_of cell) (a ∷ []) }
{
    match cell {
        Cell::Point(p) => is_same(p, a),
        _ => false,
    }
}

fn is_marked(marks: &[Mark], a: Place) -> bool
    ensures { result ≡ is_marked marks.now (a ∷ []) }
{
    marks.iter().any(|mark| is_point(mark.cell(), a))
}

/// Whether no point is marked at `a`.
pub(crate) fn is_free_point(marks: &[Mark], a: Place) -> bool
    ensures { result ≡ is_free_point marks.now a }
{
    !is_marked(marks, a)
}

fn is_segment_at(a: Place, cell: Cell) -> bool
    ensures { result ≡ is_segment_at a cell }
{
    match cell {
        Cell::Seg(ends) => has(&ends, a),
        _ => false,
    }
}

fn end_across(a: Place, ends: [Place; 2]) -> Option<Place>
    ensures { result ≡ end_across a ends }
{
    let [p, q] = ends;
    if is_same(p, a) {
        Some(q)
    } else if is_same(q, a) {
        Some(p)
    } else {
        None
    }
}

fn far_end(a: Place, cell: Cell) -> Option<Place>
    ensures { result ≡ far_end a cell }
{
    match cell {
        Cell::Seg(ends) => end_across(a, ends),
        _ => None,
    }
}

/// The other end of a segment at `a` with the tag of `m`.
fn tagged_end(a: Place, m: &Mark, n: &Mark) -> Option<Place>
    ensures { result ≡ tagged_end a m.now n.now }
{
    if same_tag(m, n) {
        far_end(a, n.cell())
    } else {
        None
    }
}

fn leads_to(a: Place, v: Place, m: &Mark, n: &Mark) -> bool
    ensures { result ≡ leads_to a v m.now n.now }
{
    match tagged_end(a, m, n) {
        Some(end) => v == end,
        None => false,
    }
}

fn some_lead_to(marks: &[Mark], a: Place, v: Place, m: &Mark) -> bool
    ensures { result ≡ list_any (leads_to a v m.now) marks.now }
{
    marks.iter().any(|n| leads_to(a, v, m, n))
}

fn ends_within(a: Place, v: Place, c: Place, m: &Mark, n: &Mark) -> bool
    ensures { result ≡ ends_within a v c m.now n.now }
{
    match tagged_end(a, m, n) {
        Some(end) => is_same(end, v) || is_same(end, c),
        None => true,
    }
}

fn all_end_within(marks: &[Mark], a: Place, v: Place, c: Place, m: &Mark) -> bool
    ensures { result ≡ list_all (ends_within a v c m.now) marks.now }
{
    marks.iter().all(|n| ends_within(a, v, c, m, n))
}

fn goes_straight(marks: &[Mark], a: Place, v: Place, m: &Mark, n: &Mark) -> bool
    ensures { result ≡ goes_straight marks.now a v m.now n.now }
{
    match tagged_end(a, m, n) {
        Some(c) => between(c, a, v) && all_end_within(marks, a, v, c, m),
        None => false,
    }
}

fn some_go_straight(marks: &[Mark], a: Place, v: Place, m: &Mark) -> bool
    ensures { result ≡ list_any (goes_straight marks.now a v m.now) marks.now }
{
    marks.iter().any(|n| goes_straight(marks, a, v, m, n))
}

/// Whether the marked segments at `a` with the tag of `m` are one to `v` and one straight across.
#[tactic(auto, using(crate::proofs::Stepwise::curve_by_steps))]
fn run_straight(marks: &[Mark], a: Place, v: Place, m: &Mark) -> bool
    ensures { result ≡ run_straight a v (curve_ends marks.now a m.now) }
{
    some_lead_to(marks, a, v, m) && some_go_straight(marks, a, v, m)
}

fn curve_is_kept(marks: &[Mark], a: Place, v: Place, m: &Mark) -> bool
    ensures { result ≡ (not (is_segment_at a m.now.cell) || run_straight a v (curve_ends marks.now a m.now)) }
{
    !is_segment_at(a, m.cell()) || run_straight(marks, a, v, m)
}

/// Whether the marked segments at `a` run, for each tag, straight through it to `v`.
pub(crate) fn curves_are_kept(marks: &[Mark], a: Place, v: Place) -> bool
    ensures { result ≡ curves_are_kept marks.now a v }
{
    marks.iter().all(|m| curve_is_kept(marks, a, v, m))
}
