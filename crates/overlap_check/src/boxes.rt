// Boxes around tetrahedra.
ghost use Rattle.std.specs.Prelude.{◌≡◌, ◌≤ℤ◌, ◌&&◌, IfOk, int_lt, true};
ghost use Rattle.overlap_check.specs.Forms.{x_axis, y_axis, z_axis};
ghost use Rattle.overlap_check.specs.steps.Boxes.{AreBoxes, IsBox, IsSpan, boxes_meet, is_within, least_stored, spans_meet};

use ma_cells::Tet;
use ma_geom::Memory;
use std::alloc::Global;

/// The numbers from `low` to `high`.
#[derive(Clone, Copy, Debug)]
pub(crate) struct Span {
    pub(crate) low: i32,
    pub(crate) high: i32,
}

impl Span {
    /// The least span that has these numbers.
    fn around(a: i32, b: i32, c: i32, d: i32) -> Span
        ensures first { is_within result a ≡ true }
        ensures second { is_within result b ≡ true }
        ensures third { is_within result c ≡ true }
        ensures fourth { is_within result d ≡ true }
        ensures stored { least_stored ≤ℤ result.low }
    {
        Span {
            low: a.min(b).min(c).min(d),
            high: a.max(b).max(c).max(d),
        }
    }

    /// Whether they share more than an end.
    fn meets(&self, other: &Span) -> bool
        ensures { result ≡ spans_meet self.now other.now }
    {
        self.low < other.high && other.low < self.high
    }
}

/// A box around a tetrahedron, with sides along the axes.
#[derive(Clone, Copy, Debug)]
pub(crate) struct BoundingBox {
    pub(crate) x: Span,
    pub(crate) y: Span,
    pub(crate) z: Span,
}

fn x_span(tet: &Tet) -> Span
    ensures { IsSpan x_axis tet.now.corners result }
{
    let [a, b, c, d] = tet.corners();
    Span::around(a.x(), b.x(), c.x(), d.x())
}

fn y_span(tet: &Tet) -> Span
    ensures { IsSpan y_axis tet.now.corners result }
{
    let [a, b, c, d] = tet.corners();
    Span::around(a.y(), b.y(), c.y(), d.y())
}

fn z_span(tet: &Tet) -> Span
    ensures { IsSpan z_axis tet.now.corners result }
{
    let [a, b, c, d] = tet.corners();
    Span::around(a.z(), b.z(), c.z(), d.z())
}

impl BoundingBox {
    /// The least box around a tetrahedron.
    fn around(tet: &Tet) -> BoundingBox
        ensures { IsBox tet.now.corners result }
    {
        BoundingBox {
            x: x_span(tet),
            y: y_span(tet),
            z: z_span(tet),
        }
    }

    /// Whether the boxes share an inner point.
    pub(crate) fn meets(&self, other: &BoundingBox) -> bool
        ensures { result ≡ boxes_meet self.now other.now }
    {
        self.x.meets(&other.x) && self.y.meets(&other.y) && self.z.meets(&other.z)
    }
}

/// The boxes around all tetrahedra, in their order.
pub(crate) fn boxes_around(alloc: Global, tets: &[Tet]) -> Result<Vec<BoundingBox>, Memory>
    ensures { IfOk result (λ boxes. AreBoxes tets.now boxes.items) }
{
    let mut boxes = Vec::with_capacity(alloc, tets.len())?;
    for tet in tets {
        boxes.push(BoundingBox::around(tet))?;
    }
    Ok(boxes)
}
