// The tetrahedra of a view, its own and the ghosts together.
ghost use Rattle.std.specs.Prelude.{◌≡◌, ◌++◌, IfOk, None, OnOk, Some, map};
ghost use Rattle.msh_write.specs.PartText.{members_of, tets_of_members};

use ma_cells::{Ascending, Label, Tet, View};
use ma_geom::Memory;
use std::alloc::Global;

/// A tetrahedron, with None where it is the part's own, and with its label where it is a ghost.
pub(crate) type Member = (Tet, Option<Label>);

fn add_own(members: &mut Vec<Member>, own: &[Tet]) -> Result<(), Memory>
    ensures { OnOk result (members.new.items ≡ members.old.items ++ map (λ tet. (tet, None)) own.now) }
{
    for tet in own {
        members.push((*tet, None))?;
    }
    Ok(())
}

fn add_ghosts(members: &mut Vec<Member>, ghosts: &[(Tet, Label)]) -> Result<(), Memory>
    ensures { OnOk result (members.new.items ≡ members.old.items ++ map (λ g. (g.0, Some g.1)) ghosts.now) }
{
    for (tet, label) in ghosts {
        members.push((*tet, Some(*label)))?;
    }
    Ok(())
}

/// The tetrahedra of a view, in n log n steps.
pub(crate) fn members(alloc: Global, view: &View) -> Result<Ascending<Member>, Memory>
    ensures { IfOk result (λ members. members ≡ members_of view.now) }
{
    let mut members = Vec::new(alloc);
    add_own(&mut members, view.own.as_slice())?;
    add_ghosts(&mut members, view.ghosts.as_slice())?;
    Ok(Ascending::gather(members))
}

/// The tetrahedra alone.
pub(crate) fn tets(alloc: Global, members: &[Member]) -> Result<Vec<Tet>, Memory>
    ensures { IfOk result (λ tets. tets.items ≡ tets_of_members members.now) }
{
    let mut tets = Vec::new(alloc);
    for member in members {
        tets.push(member.0)?;
    }
    Ok(tets)
}
