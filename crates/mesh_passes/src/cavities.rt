// The tetrahedra that are left, and those that fill the cavities.
ghost use Rattle.std.specs.Prelude.{◌≡◌, ◌++◌, ◌∷◌, [], IfOk, OnOk, filter, length, not, if◌then◌else◌};
ghost use Rattle.std.specs.List.{flat_map};
ghost use Rattle.std.specs.List.Sorted.{IsStrictlySortedBy};
ghost use Rattle.ma_cells.specs.Tetrahedron.{tet_cmp};
ghost use Rattle.corner_tables.specs.Tables.{tets_table};
ghost use Rattle.cavity_swap.specs.Swapping.{swapped};
ghost use Rattle.pass_rules.specs.Choosing.{is_taken};
ghost use Rattle.pass_rules.specs.Passes.{filling, filling_at};
ghost use Rattle.mesh_passes.specs.Taking.{left_by};

use crate::choosing::taken_by;
use cavity_rank::Operation;
use corner_tables::CornerTable;
use ma_cells::Tet;
use ma_geom::{Memory, Place};
use std::alloc::Global;

/// Appends a tetrahedron, unless it is taken.
fn push_unless(tets: &mut Vec<Tet>, tet: Tet, is_taken: bool) -> Result<(), Memory>
    ensures { OnOk result (tets.new.items ≡ tets.old.items ++ (if is_taken then [] else tet ∷ [])) }
{
    if !is_taken {
        tets.push(tet)?;
    }
    Ok(())
}

/// The tetrahedra that aren't taken.
fn left_by(alloc: Global, taken: &[bool], tets: &[Tet]) -> Result<Vec<Tet>, Memory>
    requires { length taken.now ≡ length tets.now }
    ensures { IfOk result (λ left. left.items ≡ left_by taken.now tets.now) }
{
    // Most are left, and what fills the cavities takes the places of the others.
    let mut left = Vec::with_capacity(alloc, tets.len())?;
    for i in 0..tets.len() {
        push_unless(&mut left, tets[i], taken[i])?;
    }
    Ok(left)
}

/// The tetrahedra that are in no cavity of an operation.
#[tactic(auto, using(crate::proofs::Filled::left_is))]
pub(crate) fn left(
    alloc: Global,
    table: &CornerTable,
    ops: &[Operation],
    tets: &[Tet],
) -> Result<Vec<Tet>, Memory>
    requires { table.now ≡ tets_table tets.now }
    ensures { IfOk result (λ left. left.items ≡ filter (λ tet. not (is_taken ops.now tet)) tets.now) }
{
    let taken = taken_by(alloc, table, ops, tets)?;
    left_by(alloc, &taken, tets)
}

/// What fills a cavity by a swap.
#[tactic(auto, using(crate::proofs::Filled::set_is))]
fn swapped(alloc: Global, star: &[Tet], v: Place) -> Result<Vec<Tet>, Memory>
    requires { IsStrictlySortedBy tet_cmp star.now }
    ensures { IfOk result (λ tets. tets.items ≡ swapped v star.now) }
{
    cavity_swap::result(alloc, star, v)
}

/// Appends what fills a cavity.
fn push_filling(
    alloc: Global,
    tets: &mut Vec<Tet>,
    star: &[Tet],
    op: &Operation,
) -> Result<(), Memory>
    requires { IsStrictlySortedBy tet_cmp star.now }
    ensures { OnOk result (tets.new.items ≡ tets.old.items ++ filling_at op.now.at op.now.apex star.now) }
{
    match op.at() {
        [a] => {
            let filled = cavity_collapse::result(alloc, star, &[], *a, op.apex())?;
            tets.extend_from_slice(filled.tets.as_slice())?;
        }
        _ => {
            let filled = swapped(alloc, star, op.apex())?;
            tets.extend_from_slice(filled.as_slice())?;
        }
    }
    Ok(())
}

/// Appends what fills the cavities of these operations.
pub(crate) fn push_fillings(
    alloc: Global,
    into: &mut Vec<Tet>,
    table: &CornerTable,
    ops: &[Operation],
    tets: &[Tet],
) -> Result<(), Memory>
    requires table { table.now ≡ tets_table tets.now }
    requires rises { IsStrictlySortedBy tet_cmp tets.now }
    ensures { OnOk result (into.new.items ≡ into.old.items ++ flat_map (filling tets.now) ops.now) }
{
    let mut star = Vec::new(alloc);
    for op in ops {
        table.star(tets, op.at(), &mut star)?;
        push_filling(alloc, into, star.as_slice(), op)?;
    }
    Ok(())
}
