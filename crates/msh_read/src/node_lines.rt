// Lines of `$Nodes`.
ghost use Rattle.std.specs.Prelude.{◌≡◌, ◌≤◌, IfOk, OnOk, unsigned_abs, false, [], ◌∷◌, ◌++◌};
ghost use Rattle.ma_geom.specs.Coordinates.{limit};
ghost use Rattle.msh_read.specs.NodeLines.{coordinate_of, is_used, node_of, place_in_words};

use crate::fault::MshKind;
use crate::words::{four_words, is_number, number};
use indexmap::IndexSet;
use ma_geom::{Memory, Place};
use ma_text::{NumberFault, whole};

/// The coordinate that a word writes.
#[tactic(auto, unfolding(crate::specs::NodeLines::coordinate_of))]
fn coordinate(word: &[u8]) -> Result<i32, MshKind>
    ensures value { result ≡ coordinate_of word.now }
    ensures bound { IfOk result (λ c. unsigned_abs c ≤ limit) }
{
    match whole(word) {
        Ok(value) if value.unsigned_abs() <= 1 << 30 => Ok(value as i32),
        Ok(_) | Err(NumberFault::TooBig) => Err(MshKind::OutOfRange),
        Err(NumberFault::NotWhole | NumberFault::Empty) => Err(MshKind::NotWhole),
    }
}

#[tactic(auto, unfolding(crate::specs::NodeLines::place_in_words))]
fn place(first: &[u8], second: &[u8], third: &[u8]) -> Result<Place, MshKind>
    ensures { result ≡ place_in_words first.now second.now third.now }
{
    let x = coordinate(first)?;
    let y = coordinate(second)?;
    let z = coordinate(third)?;
    Place::new(x, y, z).ok_or(MshKind::OutOfRange)
}

fn is_used(used: &IndexSet<i64>, number: i64) -> bool
    ensures { result ≡ is_used used.now.keys number }
{
    used.contains(&number)
}

/// A node's number and its place.
#[tactic(auto, unfolding(crate::specs::NodeLines::node_of))]
pub fn node(used: &IndexSet<i64>, line: &[u8]) -> Result<(i64, Place), MshKind>
    ensures value { result ≡ node_of used.now.keys line.now }
    ensures unused { IfOk result (λ node. is_used used.now.keys node.0 ≡ false) }
{
    let Some((first, second, third, fourth)) = four_words(line) else {
        return Err(MshKind::BadLine);
    };
    let number = number(first)?;
    if !is_number(number) {
        return Err(MshKind::BadLine);
    }
    if is_used(used, number) {
        return Err(MshKind::NodeTwice);
    }
    let place = place(second, third, fourth)?;
    Ok((number, place))
}

/// Adds the number of a node behind those that were used before.
pub fn add_number(numbers: &mut IndexSet<i64>, number: i64) -> Result<(), Memory>
    requires { is_used numbers.old.keys number ≡ false }
    ensures { OnOk result (numbers.new.keys ≡ numbers.old.keys ++ number ∷ []) }
{
    numbers.insert(number)?;
    Ok(())
}
