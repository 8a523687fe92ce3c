// Lines of `$Elements`.
ghost use Rattle.std.specs.Prelude.{◌≡◌, ◌≢◌, ◌≤◌, ◌<◌, ◌^◌, IfSome, IfOk, length, true};
ghost use Rattle.std.specs.List.{list_all};
ghost use Rattle.msh_read.specs.steps.LineAnswers.{Gives, element_seen};
ghost use Rattle.msh_read.specs.ElementLines.{are_different, element_at, element_by, element_from, element_of, element_with, nodes_of_kind, numbers_of, position_of, positions_of, tag_of};
ghost use Rattle.msh_read.specs.Lines.{is_tag};
ghost use Rattle.msh_read.specs.Trying.{each};

use crate::entry::Entry;
use crate::fault::{Fault, MshKind};
use crate::raw::{RawMark, RawTet};
use crate::words::{is_number, is_tag, natural, number};
use arrayvec::ArrayVec;
use indexmap::IndexSet;
use ma_text::next_word;

/// How many nodes an element of the type has.
fn nodes_of_kind(kind: i64) -> Option<u64>
    ensures value { result ≡ nodes_of_kind kind }
    ensures bound { IfSome result (λ nodes. nodes ≤ 4) }
{
    match kind {
        15 => Some(1),
        1 => Some(2),
        2 => Some(3),
        4 => Some(4),
        _ => None,
    }
}

fn are_different(numbers: &[i64]) -> bool
    ensures { result ≡ are_different numbers.now }
{
    match numbers {
        [] => true,
        [first, rest @ ..] => !rest.contains(first) && are_different(rest),
    }
}

/// The position of the node with this number.
fn position(known: &IndexSet<i64>, number: i64) -> Result<u32, Fault>
    ensures { Gives (λ at. at) result (position_of known.now.keys number) }
{
    match known.get_index_of(&number) {
        Some(index) => match u32::try_from(index) {
            Ok(position) => Ok(position),
            // There are fewer nodes, since their numbers differ and are below 2^31.
            Err(_) => Err(Fault::NoMemory),
        },
        None => Err(Fault::Kind(MshKind::NoSuchNode)),
    }
}

/// The position of each of at most four nodes.
fn each_position(known: &IndexSet<i64>, nodes: &[i64]) -> Result<ArrayVec<u32, 4>, Fault>
    requires { length nodes.now ≤ 4 }
    ensures { Gives (λ at. at.items) result (each (position_of known.now.keys) nodes.now) }
{
    let mut at = ArrayVec::new();
    for node in nodes {
        let position = position(known, *node)?;
        at.push(position);
    }
    Ok(at)
}

/// The positions of at most four nodes, which differ.
#[tactic(auto, unfolding(crate::specs::ElementLines::positions_of))]
fn positions(known: &IndexSet<i64>, nodes: &[i64]) -> Result<ArrayVec<u32, 4>, Fault>
    requires { length nodes.now ≤ 4 }
    ensures { Gives (λ at. at.items) result (positions_of known.now.keys nodes.now) }
{
    let at = each_position(known, nodes)?;
    if are_different(nodes) {
        Ok(at)
    } else {
        Err(Fault::Kind(MshKind::BadLine))
    }
}

fn are_tags(numbers: &[i64]) -> bool
    ensures { result ≡ list_all is_tag numbers.now }
{
    numbers.iter().all(|number| is_tag(*number))
}

/// The tag at a position, which is 0 where there is none.
fn tag(tags: &[i64], index: usize) -> i32
    requires { list_all is_tag tags.now ≡ true }
    ensures { result ≡ tag_of tags.now index }
{
    match tags.get(index) {
        Some(tag) => *tag as i32,
        None => 0,
    }
}

fn four(at: &[u32]) -> [u32; 4]
    requires { length at.now ≡ 4 }
    ensures { result ≡ at.now }
{
    [at[0], at[1], at[2], at[3]]
}

fn fewer(at: &[u32]) -> ArrayVec<u32, 3>
    requires { length at.now ≤ 3 }
    ensures { result.items ≡ at.now }
{
    match ArrayVec::try_from(at) {
        Ok(at) => at,
        Err(_) => unreachable!(),
    }
}

/// A tetrahedron or a mark at these positions of nodes.
fn entry(tags: &[i64], at: &[u32]) -> Entry
    requires tags_fit { list_all is_tag tags.now ≡ true }
    requires few { length at.now ≤ 4 }
    ensures { element_seen result ≡ element_with tags.now at.now }
{
    let phys = tag(tags, 0);
    let elem = tag(tags, 1);
    if at.len() == 4 {
        let at = four(at);
        Entry::Tet(RawTet { at, phys, elem })
    } else {
        let at = fewer(at);
        Entry::Mark(RawMark { at, phys, elem })
    }
}

/// An element by its tags and its nodes' numbers.
#[tactic(auto, unfolding(crate::specs::ElementLines::element_by))]
fn element_by(known: &IndexSet<i64>, tags: &[i64], nodes: &[i64]) -> Result<Entry, Fault>
    requires { length nodes.now ≤ 4 }
    ensures { Gives element_seen result (element_by known.now.keys tags.now nodes.now) }
{
    if !are_tags(tags) {
        return Err(Fault::Kind(MshKind::BadLine));
    }
    let at = positions(known, nodes)?;
    Ok(entry(tags, at.as_slice()))
}

/// An element by the type, the number of tags, and the numbers behind it.
#[tactic(auto, unfolding(crate::specs::ElementLines::element_at))]
fn element_at(known: &IndexSet<i64>, kind: i64, tags: u64, numbers: &[i64]) -> Result<Entry, Fault>
    requires { tags < 2 ^ 63 }
    ensures { Gives element_seen result (element_at known.now.keys kind tags numbers.now) }
{
    let nodes = nodes_of_kind(kind).ok_or(MshKind::OtherKind(kind))?;
    if numbers.len() as u64 != tags + nodes {
        return Err(Fault::Kind(MshKind::BadLine));
    }
    let (tags, nodes) = numbers.split_at(tags as usize);
    element_by(known, tags, nodes)
}

/// An element by the numbers of its line.
fn element_from(known: &IndexSet<i64>, numbers: &[i64]) -> Result<Entry, Fault>
    ensures { Gives element_seen result (element_from known.now.keys numbers.now) }
{
    match numbers {
        [number, kind, tags, rest @ ..] => {
            if !is_number(*number) {
                return Err(Fault::Kind(MshKind::BadLine));
            }
            let count = natural(*tags).ok_or(MshKind::BadLine)?;
            element_at(known, *kind, count, rest)
        }
        _ => Err(Fault::Kind(MshKind::BadLine)),
    }
}

/// Puts the numbers of a line in place of those that stood there.
fn read_numbers(numbers: &mut Vec<i64>, line: &[u8]) -> Result<(), Fault>
    ensures { Gives (λ _. numbers.new.items) result (numbers_of line.now) }
{
    numbers.clear();
    let mut rest = line;
    while let Some(word) = next_word(&mut rest) {
        let number = number(word)?;
        numbers.push(number)?;
    }
    Ok(())
}

/// The element in a line. Its numbers are put into `numbers`.
#[tactic(auto, unfolding(crate::specs::ElementLines::element_of))]
pub fn element(known: &IndexSet<i64>, numbers: &mut Vec<i64>, line: &[u8]) -> Result<Entry, Fault>
    ensures { Gives element_seen result (element_of known.now.keys line.now) }
{
    read_numbers(numbers, line)?;
    element_from(known, numbers.as_slice())
}
