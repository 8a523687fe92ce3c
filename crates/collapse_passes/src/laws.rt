//! Each law is the contract of a function that does nothing.
ghost use Rattle.collapse_passes.specs.CollapsePasses.{CollapsePassAdapts, CollapsesGoInAnyOrder};

/// A pass of collapses over a sound mesh leaves a mesh that is adapted from it.
pub fn collapse_pass_adapts()
    ensures { CollapsePassAdapts }
{}

/// Its collapses, made one after the other in any order, leave the same mesh.
pub fn collapses_go_in_any_order()
    ensures { CollapsesGoInAnyOrder }
{}
