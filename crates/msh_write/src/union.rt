// The canonical text of a mesh.
ghost use Rattle.std.specs.Prelude.{◌≡◌, ◌+◌, ◌<◌, ◌^◌, true, [], ◌++◌, All, IfOk, OnOk, codes, map};
ghost use Rattle.std.specs.List.Sorted.{IsStrictlySortedBy};
ghost use Rattle.ma_geom.specs.Coordinates.{place_cmp};
ghost use Rattle.ma_cells.specs.Cells.{corners_of};
ghost use Rattle.msh_write.specs.ReadsBack.{ReadsBack};
ghost use Rattle.msh_write.specs.Text.{counted_section, element_line, elements_of, ended, is_tagged, mark_element, nodes_of, item_lines, tet_element, text_of};

use crate::elements::{put_cell, put_tet, tagged};
use crate::lines::head;
use crate::nodes::nodes_of;
use crate::words::{put_bytes, put_number};
use ma_cells::{Ascending, Batch, Mark, Tet};
use ma_geom::{Memory, Place};
use msh_read::Name;
use std::alloc::Global;

fn put_mark(out: &mut Vec<u8>, nodes: &[Place], number: usize, mark: &Mark) -> Result<(), Memory>
    requires { IsStrictlySortedBy place_cmp nodes.now }
    ensures { OnOk result (out.new.items ≡ out.old.items ++ (element_line nodes.now number (mark_element [] mark.now) ++ codes "\n")) }
{
    put_cell(out, nodes, number, mark.cell(), &[mark.phys(), mark.elem()])
}

fn put_plain_tet(out: &mut Vec<u8>, nodes: &[Place], number: usize, tet: Tet) -> Result<(), Memory>
    requires { IsStrictlySortedBy place_cmp nodes.now }
    ensures { OnOk result (out.new.items ≡ out.old.items ++ (element_line nodes.now number (tet_element [] tet) ++ codes "\n")) }
{
    put_tet(out, nodes, number, tet, &[tet.phys(), tet.elem()])
}

fn put_marks(out: &mut Vec<u8>, nodes: &[Place], marks: &[Mark]) -> Result<(), Memory>
    requires { IsStrictlySortedBy place_cmp nodes.now }
    ensures { OnOk result (out.new.items ≡ out.old.items ++ ended (item_lines (λ number mark. element_line nodes.now number (mark_element [] mark)) marks.now)) }
{
    for (index, mark) in marks.iter().enumerate() {
        put_mark(out, nodes, index + 1, mark)?;
    }
    Ok(())
}

/// Writes the lines of the tetrahedra, which come after so many elements.
fn put_tets(out: &mut Vec<u8>, nodes: &[Place], before: usize, tets: &[Tet]) -> Result<(), Memory>
    requires few { before < 2 ^ 63 }
    requires rises { IsStrictlySortedBy place_cmp nodes.now }
    requires nodes { nodes.now ≡ nodes_of tets.now }
    ensures { OnOk result (out.new.items ≡ out.old.items ++ ended (item_lines (λ number tet. element_line nodes.now (before + number) (tet_element [] tet)) tets.now)) }
{
    for (index, tet) in tets.iter().enumerate() {
        put_plain_tet(out, nodes, before + (index + 1), *tet)?;
    }
    Ok(())
}

fn put_elements(
    out: &mut Vec<u8>,
    nodes: &[Place],
    marks: &[Mark],
    tets: &[Tet],
) -> Result<(), Memory>
    requires rises { IsStrictlySortedBy place_cmp nodes.now }
    requires nodes { nodes.now ≡ nodes_of tets.now }
    ensures { OnOk result (out.new.items ≡ out.old.items ++ ended (counted_section (codes "Elements") (item_lines (element_line nodes.now) (map (mark_element []) marks.now ++ map (tet_element []) tets.now)))) }
{
    put_bytes(out, b"$Elements\n")?;
    put_number(out, marks.len() + tets.len())?;
    put_bytes(out, b"\n")?;
    put_marks(out, nodes, marks)?;
    put_tets(out, nodes, marks.len(), tets)?;
    put_bytes(out, b"$EndElements\n")
}

/// The canonical text of a mesh with these names, which reads as this mesh, where the nodes of the mesh
/// are known. A mark names a corner that no tetrahedron has by the number behind that of the last node.
pub fn write_union_with(
    alloc: Global,
    mesh: &Batch,
    nodes: &Ascending<Place>,
    names: &[Name],
) -> Result<Vec<u8>, Memory>
    requires { nodes.now ≡ nodes_of mesh.now.tets }
    ensures text { IfOk result (λ bytes. bytes.items ≡ text_of mesh.now names.now) }
    ensures reads_back { IfOk result (λ bytes. ReadsBack mesh.now names.now bytes.items) }
{
    let marks = tagged(alloc, mesh.marks.as_slice())?;
    let mut out = head(alloc, names, nodes.as_slice())?;
    put_elements(
        &mut out,
        nodes.as_slice(),
        marks.as_slice(),
        mesh.tets.as_slice(),
    )?;
    Ok(out)
}

/// The same, where the nodes are still to be found.
pub fn write_union(alloc: Global, mesh: &Batch, names: &[Name]) -> Result<Vec<u8>, Memory>
    ensures text { IfOk result (λ bytes. bytes.items ≡ text_of mesh.now names.now) }
    ensures reads_back { IfOk result (λ bytes. ReadsBack mesh.now names.now bytes.items) }
{
    let nodes = nodes_of(alloc, mesh.tets.as_slice())?;
    write_union_with(alloc, mesh, &nodes, names)
}
