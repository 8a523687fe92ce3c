// Items that stand once, in n log n steps.
ghost use Rattle.std.specs.Prelude.{◌≡◌, Bool, None, IfOk};
ghost use Rattle.std.specs.List.{list_any};
ghost use Rattle.std.specs.Option.{option_copied};
ghost use Rattle.mesh_check.specs.Lone.{lone};
ghost use Rattle.mesh_check.specs.steps.Neighbours.{differs, lone_after};

use ma_geom::Memory;
use std::alloc::Global;

fn differs<T: Ord + Copy>(item: T, other: Option<T>) -> bool
    ensures { result ≡ differs T.cmp item other }
{
    match other {
        None => true,
        Some(other) => item != other,
    }
}

/// The items that are neither the one before nor the one behind.
fn lone_in<T: Ord + Copy + Drop>(alloc: Global, items: &[T]) -> Result<Vec<T>, Memory>
    ensures { IfOk result (λ found. found.items ≡ lone_after T.cmp None items.now) }
{
    let mut found = Vec::new(alloc);
    let mut last = None;
    let mut left = items;
    while let [item, rest @ ..] = left {
        if differs(*item, last) && differs(*item, rest.first().copied()) {
            found.push(*item)?;
        }
        last = Some(*item);
        left = rest;
    }
    Ok(found)
}

/// The items that stand once, in some order.
pub fn lone<T: Ord + Copy + Drop>(alloc: Global, mut items: Vec<T>) -> Result<Vec<T>, Memory>
    ensures { IfOk result (λ found. (test : T → Bool) → list_any test found.items ≡ list_any test (lone T.cmp items.items)) }
{
    items.sort_unstable();
    let found = lone_in(alloc, items.as_slice())?;
    Ok(found)
}
