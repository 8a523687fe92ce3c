//! Each law is the contract of a function that does nothing.
ghost use Rattle.world_run.specs.Meshes.{LabelledMeshIsMesh};
ghost use Rattle.world_run.specs.Union.{PartsMakeMesh};

/// All parts that see a mesh have it together.
pub fn parts_make_mesh()
    ensures { PartsMakeMesh }
{}

/// A mesh that is handed out by labels is the mesh, whatever the labels.
pub fn labelled_mesh_is_mesh()
    ensures { LabelledMeshIsMesh }
{}
