//! A law of runs, the contract of a function that does nothing.
ghost use Rattle.meshadapt.specs.Geometry.{RoundsKeepGeometry};

/// The mesh after each round of a job that is accepted keeps the geometry of the file's mesh.
pub fn rounds_keep_geometry()
    ensures { RoundsKeepGeometry }
{}
