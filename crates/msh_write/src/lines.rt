// The format, the names and the nodes, which stand before the elements in a text.
ghost use Rattle.std.specs.Prelude.{◌≡◌, ◌++◌, IfOk, OnOk, codes, map};
ghost use Rattle.msh_write.specs.Text.{counted_section, ended, head_lines, name_line, names_lines, node_line, item_lines};

use crate::words::{put_bytes, put_number, put_word};
use ma_geom::{Memory, Place};
use msh_read::Name;
use std::alloc::Global;

fn put_name_line(out: &mut Vec<u8>, name: &Name) -> Result<(), Memory>
    ensures { OnOk result (out.new.items ≡ out.old.items ++ (name_line name.now ++ codes "\n")) }
{
    put_number(out, name.dimension)?;
    put_word(out, name.number)?;
    put_bytes(out, b" \"")?;
    put_bytes(out, name.text.as_slice())?;
    put_bytes(out, b"\"\n")
}

fn put_name_lines(out: &mut Vec<u8>, names: &[Name]) -> Result<(), Memory>
    ensures { OnOk result (out.new.items ≡ out.old.items ++ ended (map name_line names.now)) }
{
    for name in names {
        put_name_line(out, name)?;
    }
    Ok(())
}

fn put_names(out: &mut Vec<u8>, names: &[Name]) -> Result<(), Memory>
    ensures { OnOk result (out.new.items ≡ out.old.items ++ ended (names_lines names.now)) }
{
    if names.is_empty() {
        return Ok(());
    }
    put_bytes(out, b"$PhysicalNames\n")?;
    put_number(out, names.len())?;
    put_bytes(out, b"\n")?;
    put_name_lines(out, names)?;
    put_bytes(out, b"$EndPhysicalNames\n")
}

fn put_node_line(out: &mut Vec<u8>, number: usize, node: Place) -> Result<(), Memory>
    ensures { OnOk result (out.new.items ≡ out.old.items ++ (node_line number node ++ codes "\n")) }
{
    put_number(out, number)?;
    put_word(out, node.x())?;
    put_word(out, node.y())?;
    put_word(out, node.z())?;
    put_bytes(out, b"\n")
}

fn put_node_lines(out: &mut Vec<u8>, nodes: &[Place]) -> Result<(), Memory>
    ensures { OnOk result (out.new.items ≡ out.old.items ++ ended (item_lines node_line nodes.now)) }
{
    for (index, node) in nodes.iter().enumerate() {
        put_node_line(out, index + 1, *node)?;
    }
    Ok(())
}

fn put_nodes(out: &mut Vec<u8>, nodes: &[Place]) -> Result<(), Memory>
    ensures { OnOk result (out.new.items ≡ out.old.items ++ ended (counted_section (codes "Nodes") (item_lines node_line nodes.now))) }
{
    put_bytes(out, b"$Nodes\n")?;
    put_number(out, nodes.len())?;
    put_bytes(out, b"\n")?;
    put_node_lines(out, nodes)?;
    put_bytes(out, b"$EndNodes\n")
}

/// The text up to the elements.
pub(crate) fn head(alloc: Global, names: &[Name], nodes: &[Place]) -> Result<Vec<u8>, Memory>
    ensures { IfOk result (λ out. out.items ≡ ended (head_lines names.now nodes.now)) }
{
    let mut out = Vec::new(alloc);
    put_bytes(&mut out, b"$MeshFormat\n2.2 0 8\n$EndMeshFormat\n")?;
    put_names(&mut out, names)?;
    put_nodes(&mut out, nodes)?;
    Ok(out)
}
