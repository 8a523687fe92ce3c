//! Each law is the contract of a function that does nothing.
ghost use Rattle.plane_laws.specs.Lines.{SegmentHasTwoParts};
ghost use Rattle.plane_laws.specs.Planes.{PlaneKeepsPoints, PlanesKeepPoints};

/// A segment has the points of its two parts.
pub fn segment_has_two_parts()
    ensures { SegmentHasTwoParts }
{}

/// In a plane each point stays on the triangles around a vertex that goes to another place of it.
pub fn plane_keeps_points()
    ensures { PlaneKeepsPoints }
{}

/// So does each point on triangles in several planes around a vertex that goes to a place of them all.
pub fn planes_keep_points()
    ensures { PlanesKeepPoints }
{}
