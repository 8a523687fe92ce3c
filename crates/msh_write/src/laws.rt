//! Laws of the text of a mesh, each the contract of a function that does nothing.
ghost use Rattle.msh_write.specs.ReadsBack.{RawIsMesh, TextReadsBack};

/// The text of a mesh reads as this mesh, by the positions of its nodes.
pub fn text_reads_back()
    ensures { TextReadsBack }
{}

/// What is read has the tetrahedra of the mesh, and its marks with a tag other than 0 0.
pub fn raw_is_mesh()
    ensures { RawIsMesh }
{}
