// Elements: marks and tetrahedra.
ghost use Rattle.std.specs.Prelude.{◌≡◌, pos, true, ◌∷◌, [], ◌++◌, All, IfOk, OnOk, codes, flat_map, int_lt};
ghost use Rattle.std.specs.Fmt.{decimal, signed_decimal};
ghost use Rattle.std.specs.List.{filter};
ghost use Rattle.std.specs.List.Sorted.{IsStrictlySortedBy};
ghost use Rattle.ma_geom.specs.Coordinates.{place_cmp};
ghost use Rattle.ma_geom.specs.Volume.{vol6};
ghost use Rattle.ma_cells.specs.Cells.{corners_of};
ghost use Rattle.msh_write.specs.Text.{element_line, is_tagged, kind_of, number_among, oriented};

use crate::nodes::number_of;
use crate::words::{put_bytes, put_number, put_word};
use ma_cells::{Cell, Mark, Tet};
use ma_geom::{Memory, Place, vol6};
use std::alloc::Global;

fn put_tags(out: &mut Vec<u8>, tags: &[i32]) -> Result<(), Memory>
    ensures { OnOk result (out.new.items ≡ out.old.items ++ flat_map (λ tag. 32 ∷ signed_decimal tag) tags.now) }
{
    for tag in tags {
        put_word(out, *tag)?;
    }
    Ok(())
}

fn put_corners(out: &mut Vec<u8>, nodes: &[Place], corners: &[Place]) -> Result<(), Memory>
    requires { IsStrictlySortedBy place_cmp nodes.now }
    ensures { OnOk result (out.new.items ≡ out.old.items ++ flat_map (λ corner. 32 ∷ decimal (number_among nodes.now corner)) corners.now) }
{
    for corner in corners {
        put_word(out, number_of(nodes, *corner))?;
    }
    Ok(())
}

fn put_element(
    out: &mut Vec<u8>,
    nodes: &[Place],
    number: usize,
    kind: u8,
    tags: &[i32],
    corners: &[Place],
) -> Result<(), Memory>
    requires { IsStrictlySortedBy place_cmp nodes.now }
    ensures { OnOk result (out.new.items ≡ out.old.items ++ (element_line nodes.now number (record { kind = kind; tags = tags.now; corners = corners.now }) ++ codes "\n")) }
{
    put_number(out, number)?;
    put_word(out, kind)?;
    put_word(out, tags.len())?;
    put_tags(out, tags)?;
    put_corners(out, nodes, corners)?;
    put_bytes(out, b"\n")
}

/// Writes the line of a mark on this cell.
pub(crate) fn put_cell(
    out: &mut Vec<u8>,
    nodes: &[Place],
    number: usize,
    cell: Cell,
    tags: &[i32],
) -> Result<(), Memory>
    requires { IsStrictlySortedBy place_cmp nodes.now }
    ensures { OnOk result (out.new.items ≡ out.old.items ++ (element_line nodes.now number (record { kind = kind_of cell; tags = tags.now; corners = corners_of cell }) ++ codes "\n")) }
{
    match cell {
        Cell::Point(place) => put_element(out, nodes, number, 15, tags, &[place]),
        Cell::Seg(ends) => put_element(out, nodes, number, 1, tags, &ends),
        Cell::Tri(corners) => put_element(out, nodes, number, 2, tags, &corners),
    }
}

fn is_negative(a: Place, b: Place, c: Place, d: Place) -> bool
    ensures { result ≡ int_lt (vol6 a b c d) (pos 0) }
{
    vol6(a, b, c, d) < 0
}

/// The corners in an order in which the volume is positive.
fn oriented(corners: [Place; 4]) -> [Place; 4]
    ensures { result ≡ oriented corners }
{
    if is_negative(corners[0], corners[1], corners[2], corners[3]) {
        [corners[0], corners[1], corners[3], corners[2]]
    } else {
        corners
    }
}

/// Writes the line of a tetrahedron.
pub(crate) fn put_tet(
    out: &mut Vec<u8>,
    nodes: &[Place],
    number: usize,
    tet: Tet,
    tags: &[i32],
) -> Result<(), Memory>
    requires { IsStrictlySortedBy place_cmp nodes.now }
    ensures { OnOk result (out.new.items ≡ out.old.items ++ (element_line nodes.now number (record { kind = 4; tags = tags.now; corners = oriented tet.corners }) ++ codes "\n")) }
{
    put_element(out, nodes, number, 4, tags, &oriented(tet.corners()))
}

/// Whether a mark has another tag than 0 0, with which it isn't written.
pub fn is_tagged(mark: &Mark) -> bool
    ensures { result ≡ is_tagged mark.now }
{
    mark.phys() != 0 || mark.elem() != 0
}

/// The marks that are written.
pub(crate) fn tagged(alloc: Global, marks: &[Mark]) -> Result<Vec<Mark>, Memory>
    ensures { IfOk result (λ tagged. tagged.items ≡ filter is_tagged marks.now) }
{
    let mut tagged = Vec::new(alloc);
    for mark in marks {
        if is_tagged(mark) {
            tagged.push(*mark)?;
        }
    }
    Ok(tagged)
}
