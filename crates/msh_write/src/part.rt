// The text of what a part sees of a mesh.
ghost use Rattle.std.specs.Prelude.{◌≡◌, ◌+◌, ◌<◌, ◌^◌, ◌∷◌, ◌++◌, true, All, IfOk, OnOk, codes, length, map, neg_ℤ, pos};
ghost use Rattle.std.specs.List.Sorted.{IsStrictlySortedBy};
ghost use Rattle.std.specs.Ordering.{nat_cmp};
ghost use Rattle.ma_geom.specs.Coordinates.{place_cmp};
ghost use Rattle.ma_cells.specs.Ascending.{are_ascending};
ghost use Rattle.ma_cells.specs.Cells.{corners_of, is_cell};
ghost use Rattle.msh_write.specs.steps.Holders.{holder_cmp, holder_element, holder_tags};
ghost use Rattle.msh_write.specs.PartText.{member_element, part_text, resident_element, resident_tags, tets_of_members};
ghost use Rattle.msh_write.specs.Text.{counted_section, element_line, ended, nodes_of, item_lines};

use crate::elements::{put_cell, put_tet, tagged};
use crate::holders::{Holder, first_holder, holders, marked_cells, residents};
use crate::lines::head;
use crate::members::{Member, members, tets};
use crate::nodes::nodes_of;
use crate::words::{put_bytes, put_number};
use ma_cells::{Cell, Label, Mark, View};
use ma_geom::{Memory, Place};
use msh_read::Name;
use std::alloc::Global;

/// The part whose view it is, as the last tag of a ghost.
fn viewer_tag(part: Label) -> i32
    ensures { result ≡ neg_ℤ (pos (part + 1)) }
{
    -(i32::from(part) + 1)
}

fn put_member(
    out: &mut Vec<u8>,
    nodes: &[Place],
    part: Label,
    number: usize,
    member: &Member,
) -> Result<(), Memory>
    requires { IsStrictlySortedBy place_cmp nodes.now }
    ensures { OnOk result (out.new.items ≡ out.old.items ++ (element_line nodes.now number (member_element part member.now) ++ codes "\n")) }
{
    let (tet, label) = *member;
    let (phys, elem) = (tet.phys(), tet.elem());
    match label {
        None => put_tet(
            out,
            nodes,
            number,
            tet,
            &[phys, elem, 1, i32::from(part) + 1],
        ),
        Some(label) => {
            let tags = [phys, elem, 2, i32::from(label) + 1, viewer_tag(part)];
            put_tet(out, nodes, number, tet, &tags)
        }
    }
}

/// Writes the lines of the tetrahedra, which come after so many elements.
fn put_members(
    out: &mut Vec<u8>,
    nodes: &[Place],
    part: Label,
    before: usize,
    members: &[Member],
) -> Result<(), Memory>
    requires few { before < 2 ^ 63 }
    requires rises { IsStrictlySortedBy place_cmp nodes.now }
    requires nodes { nodes.now ≡ nodes_of (tets_of_members members.now) }
    ensures { OnOk result (out.new.items ≡ out.old.items ++ ended (item_lines (λ number member. element_line nodes.now (before + number) (member_element part member)) members.now)) }
{
    for (index, member) in members.iter().enumerate() {
        put_member(out, nodes, part, before + (index + 1), member)?;
    }
    Ok(())
}

/// How many parts there are, which are at most 256.
fn count(parts: &[Label]) -> i32
    requires { IsStrictlySortedBy nat_cmp parts.now }
    ensures { result ≡ pos (length parts.now) }
{
    parts.len() as i32
}

/// Adds how many parts there are, and which.
fn add_residents(tags: &mut Vec<i32>, parts: &[Label]) -> Result<(), Memory>
    requires { IsStrictlySortedBy nat_cmp parts.now }
    ensures { OnOk result (tags.new.items ≡ tags.old.items ++ resident_tags parts.now) }
{
    tags.push(count(parts))?;
    for part in parts {
        tags.push(i32::from(*part) + 1)?;
    }
    Ok(())
}

fn add_holder_tags(
    alloc: Global,
    tags: &mut Vec<i32>,
    part: Label,
    holders: &[Holder],
    cell: Cell,
) -> Result<(), Memory>
    requires { IsStrictlySortedBy holder_cmp holders.now }
    ensures { OnOk result (tags.new.items ≡ tags.old.items ++ holder_tags part holders.now cell) }
{
    match first_holder(holders, cell) {
        None => Ok(()),
        Some(first) => {
            let parts = residents(alloc, part, &holders[first..], &cell)?;
            add_residents(tags, parts.as_slice())
        }
    }
}

fn mark_tags(
    alloc: Global,
    part: Label,
    holders: &[Holder],
    mark: &Mark,
) -> Result<Vec<i32>, Memory>
    requires { IsStrictlySortedBy holder_cmp holders.now }
    ensures { IfOk result (λ tags. tags.items ≡ mark.now.phys ∷ mark.now.elem ∷ holder_tags part holders.now mark.now.cell) }
{
    let mut tags = Vec::from_slice(alloc, &[mark.phys(), mark.elem()])?;
    add_holder_tags(alloc, &mut tags, part, holders, mark.cell())?;
    Ok(tags)
}

fn put_mark(
    alloc: Global,
    out: &mut Vec<u8>,
    nodes: &[Place],
    part: Label,
    holders: &[Holder],
    number: usize,
    mark: &Mark,
) -> Result<(), Memory>
    requires rises { IsStrictlySortedBy place_cmp nodes.now }
    requires holders { IsStrictlySortedBy holder_cmp holders.now }
    ensures line { OnOk result (out.new.items ≡ out.old.items ++ (element_line nodes.now number (holder_element part holders.now mark.now) ++ codes "\n")) }
    ensures cell { is_cell mark.now.cell ≡ true }
{
    let cell = mark.cell();
    let tags = mark_tags(alloc, part, holders, mark)?;
    put_cell(out, nodes, number, cell, tags.as_slice())
}

fn put_mark_lines(
    alloc: Global,
    out: &mut Vec<u8>,
    nodes: &[Place],
    part: Label,
    holders: &[Holder],
    marks: &[Mark],
) -> Result<(), Memory>
    requires rises { IsStrictlySortedBy place_cmp nodes.now }
    requires holders { IsStrictlySortedBy holder_cmp holders.now }
    ensures lines { OnOk result (out.new.items ≡ out.old.items ++ ended (item_lines (λ number mark. element_line nodes.now number (holder_element part holders.now mark)) marks.now)) }
    ensures cells { OnOk result (All (λ mark. is_cell mark.cell ≡ true) marks.now) }
{
    for (index, mark) in marks.iter().enumerate() {
        put_mark(alloc, out, nodes, part, holders, index + 1, mark)?;
    }
    Ok(())
}

fn put_marks(
    alloc: Global,
    out: &mut Vec<u8>,
    nodes: &[Place],
    part: Label,
    members: &[Member],
    marks: &[Mark],
) -> Result<(), Memory>
    requires rises { IsStrictlySortedBy place_cmp nodes.now }
    requires corners { All (λ m. are_ascending place_cmp m.0.corners ≡ true) members.now }
    ensures { OnOk result (out.new.items ≡ out.old.items ++ ended (item_lines (λ number mark. element_line nodes.now number (resident_element part members.now mark)) marks.now)) }
{
    if marks.is_empty() {
        return Ok(());
    }
    let marked = marked_cells(alloc, marks)?;
    let holders = holders(alloc, &marked, members)?;
    put_mark_lines(alloc, out, nodes, part, holders.as_slice(), marks)
}

fn put_elements(
    alloc: Global,
    out: &mut Vec<u8>,
    nodes: &[Place],
    part: Label,
    members: &[Member],
    marks: &[Mark],
) -> Result<(), Memory>
    requires rises { IsStrictlySortedBy place_cmp nodes.now }
    requires nodes { nodes.now ≡ nodes_of (tets_of_members members.now) }
    requires corners { All (λ m. are_ascending place_cmp m.0.corners ≡ true) members.now }
    ensures { OnOk result (out.new.items ≡ out.old.items ++ ended (counted_section (codes "Elements") (item_lines (element_line nodes.now) (map (resident_element part members.now) marks.now ++ map (member_element part) members.now)))) }
{
    put_bytes(out, b"$Elements\n")?;
    put_number(out, marks.len() + members.len())?;
    put_bytes(out, b"\n")?;
    put_marks(alloc, out, nodes, part, members, marks)?;
    put_members(out, nodes, part, marks.len(), members)?;
    put_bytes(out, b"$EndElements\n")
}

/// The text of what a part sees, with these names. A mark names a corner that no tetrahedron has by
/// the number behind that of the last node.
pub fn write_part(alloc: Global, view: &View, names: &[Name]) -> Result<Vec<u8>, Memory>
    ensures { IfOk result (λ bytes. bytes.items ≡ part_text view.now names.now) }
{
    let members = members(alloc, view)?;
    let tets = tets(alloc, members.as_slice())?;
    let nodes = nodes_of(alloc, tets.as_slice())?;
    let marks = tagged(alloc, view.marks.as_slice())?;
    let mut out = head(alloc, names, nodes.as_slice())?;
    put_elements(
        alloc,
        &mut out,
        nodes.as_slice(),
        view.part,
        members.as_slice(),
        marks.as_slice(),
    )?;
    Ok(out)
}
