// Lists of operations with their senders.
ghost use Rattle.std.specs.Prelude.{◌≡◌, ◌++◌, ◌∷◌, [], IfOk, OnOk, if◌then◌else◌};
ghost use Rattle.part_gather.specs.Ordered.{ordered_by, ordered_by_others};

use cavity_rank::Operation;
use ma_cells::{Ascending, Label};
use ma_geom::Memory;
use std::alloc::Global;

fn push(into: &mut Vec<Operation>, op: &Operation) -> Result<(), Memory>
    ensures { OnOk result (into.new.items ≡ into.old.items ++ op.now ∷ []) }
{
    into.push(op.clone()?)?;
    Ok(())
}

/// Appends an operation, if it is wanted.
pub(crate) fn push_if(
    into: &mut Vec<Operation>,
    op: &Operation,
    is_wanted: bool,
) -> Result<(), Memory>
    ensures { OnOk result (into.new.items ≡ into.old.items ++ (if is_wanted then op.now ∷ [] else [])) }
{
    if is_wanted {
        push(into, op)?;
    }
    Ok(())
}

/// Appends the operations.
fn push_all(into: &mut Vec<Operation>, ops: &[Operation]) -> Result<(), Memory>
    ensures { OnOk result (into.new.items ≡ into.old.items ++ ops.now) }
{
    for op in ops {
        push(into, op)?;
    }
    Ok(())
}

/// Appends the operations of a list, if it is wanted.
pub(crate) fn push_all_if(
    into: &mut Vec<Operation>,
    ops: &Ascending<Operation>,
    is_wanted: bool,
) -> Result<(), Memory>
    ensures { OnOk result (into.new.items ≡ into.old.items ++ (if is_wanted then ops.now else [])) }
{
    if is_wanted {
        push_all(into, ops.as_slice())?;
    }
    Ok(())
}

/// The operations that came from a part. Where there are none it takes no memory.
pub(crate) fn from_part(
    alloc: Global,
    lists: &[(Label, Ascending<Operation>)],
    part: Label,
) -> Result<Vec<Operation>, Memory>
    ensures { IfOk result (λ ops. ops.items ≡ ordered_by lists.now part) }
{
    let mut ops = Vec::new(alloc);
    for list in lists {
        push_all_if(&mut ops, &list.1, list.0 == part)?;
    }
    Ok(ops)
}

/// The operations that came from all parts but one.
pub(crate) fn from_others(
    alloc: Global,
    lists: &[(Label, Ascending<Operation>)],
    part: Label,
) -> Result<Vec<Operation>, Memory>
    ensures { IfOk result (λ ops. ops.items ≡ ordered_by_others lists.now part) }
{
    let mut ops = Vec::new(alloc);
    for list in lists {
        push_all_if(&mut ops, &list.1, list.0 != part)?;
    }
    Ok(ops)
}
