//! Each law is the contract of a function that does nothing.
ghost use Rattle.moved_cells.specs.Segments.{SegmentsKeepPoints};
ghost use Rattle.moved_cells.specs.Triangles.{TrianglesKeepPoints};

/// Each point stays on the segments that go straight through a vertex, once it is moved.
pub fn segments_keep_points()
    ensures { SegmentsKeepPoints }
{}

/// Each point stays on triangles in whichever planes, where a vertex is moved to a place of them all.
pub fn triangles_keep_points()
    ensures { TrianglesKeepPoints }
{}
