// Values that were worked out by hand.
ghost use Rattle.std.specs.Prelude.{◌≡◌, ◌↔◌, IsTrue};

use super::*;
use ma_geom::Place;
use std::test::Fail;

fn place(x: i32, y: i32, z: i32) -> Result<Place, Fail> {
    Ok(Place::new(x, y, z).ok_or("a coordinate is out of range")?)
}

fn tet(corners: [Place; 4], phys: i32, elem: i32) -> Result<Tet, Fail> {
    Ok(Tet::new(corners, phys, elem).ok_or("the corners are flat")?)
}

#[test]
fn a_tetrahedron_sorts_its_corners(rt: HostRuntime) -> Result<(), Fail> {
    let (o, x, y, z) = (
        place(0, 0, 0)?,
        place(8, 0, 0)?,
        place(0, 8, 0)?,
        place(0, 0, 8)?,
    );
    let t = tet([x, z, o, y], 3, -4)?;
    assert_eq!(rt; t.corners(), [o, z, y, x]);
    assert_eq!(rt; t.phys(), 3);
    assert_eq!(rt; t.elem(), -4);
    Ok(())
}

#[test]
fn flat_corners_are_no_tetrahedron(rt: HostRuntime) -> Result<(), Fail> {
    let (o, x, y) = (place(0, 0, 0)?, place(8, 0, 0)?, place(0, 8, 0)?);
    assert!(rt; Tet::new([o, x, y, place(8, 8, 0)?], 0, 1).is_none());
    assert!(rt; Tet::new([o, x, y, x], 0, 1).is_none());
    Ok(())
}

#[test]
fn the_default_tetrahedron_has_unit_edges_at_the_origin(rt: HostRuntime) -> Result<(), Fail> {
    let corners = [
        place(0, 0, 0)?,
        place(0, 0, 1)?,
        place(0, 1, 0)?,
        place(1, 0, 0)?,
    ];
    assert_eq!(rt; Tet::default(), tet(corners, 0, 0)?);
    Ok(())
}

#[test]
fn marks_are_ordered_by_dimension_then_corners_then_tag(rt: HostRuntime) -> Result<(), Fail> {
    let (o, z, y) = (place(0, 0, 0)?, place(0, 0, 8)?, place(0, 8, 0)?);
    let point = Mark::new(Cell::Point(y), 9, 9);
    assert_eq!(rt; point.cell(), Cell::Point(y));
    assert!(rt; Cell::Point(y) < Cell::Seg([o, z]));
    assert!(rt; Cell::Seg([z, y]) < Cell::Tri([o, z, y]));
    assert!(rt; Cell::Seg([o, z]) < Cell::Seg([o, y]));
    assert!(rt; Mark::new(Cell::Point(z), 9, 9) < point);
    assert!(rt; Mark::new(Cell::Point(y), 9, 8) < point);
    assert!(rt; Mark::new(Cell::Point(y), 8, 10) < point);
    Ok(())
}

/// Marks are equal where contracts see equal records.
fn are_equal(m: &Mark, n: &Mark) -> bool
    ensures { IsTrue result ↔ (m.now ≡ n.now) }
{
    m == n
}

#[test]
fn marks_with_other_tags_differ(rt: HostRuntime) -> Result<(), Fail> {
    let cell = Cell::Point(place(0, 8, 0)?);
    let mark = Mark::new(cell, 1, 2);
    assert!(rt; are_equal(&mark, &Mark::new(cell, 1, 2)));
    assert!(rt; !are_equal(&mark, &Mark::new(cell, 2, 1)));
    Ok(())
}

#[test]
fn a_batch_is_gathered_in_order_and_without_repeats(rt: HostRuntime) -> Result<(), Fail> {
    let (o, x, y, z) = (
        place(0, 0, 0)?,
        place(8, 0, 0)?,
        place(0, 8, 0)?,
        place(0, 0, 8)?,
    );
    let (first, second) = (tet([o, x, y, z], 0, 1)?, tet([o, x, y, z], 0, 2)?);
    let third = tet([x, y, z, place(8, 8, 8)?], 0, 1)?;
    let tets = vec![in rt.alloc(); third, first, second, first]?;
    let marks = vec![in rt.alloc();
        Mark::new(Cell::Point(x), 1, 1),
        Mark::new(Cell::Point(o), 1, 1),
    ]?;
    let batch = Batch::gather(tets, marks)?;
    assert_eq!(rt; batch.tets.as_slice(), [first, second, third].as_slice());
    assert_eq!(rt; batch.tets.len(), 3);
    assert!(rt; !batch.tets.is_empty());
    assert_eq!(rt;
        batch.marks.as_slice(),
        [
            Mark::new(Cell::Point(o), 1, 1),
            Mark::new(Cell::Point(x), 1, 1)
        ]
        .as_slice()
    );
    Ok(())
}

#[test]
fn an_ascending_list_is_taken_and_given_back(rt: HostRuntime) -> Result<(), Fail> {
    let empty: Ascending<u32> = Ascending::new(rt.alloc());
    assert!(rt; empty.is_empty());
    let given = Ascending::from_vec(Ascending::gather(vec![in rt.alloc(); 5u32, 3, 5]?).into_vec());
    assert_eq!(rt; given.into_vec().as_slice(), [3u32, 5].as_slice());
    Ok(())
}

#[test]
fn faces_and_edges_come_in_the_order_of_their_corners(rt: HostRuntime) -> Result<(), Fail> {
    let (o, z, y, x) = (
        place(0, 0, 0)?,
        place(0, 0, 8)?,
        place(0, 8, 0)?,
        place(8, 0, 0)?,
    );
    let t = tet([x, y, z, o], 0, 1)?;
    assert_eq!(rt; t.faces(), [[o, z, y], [o, z, x], [o, y, x], [z, y, x]]);
    assert_eq!(rt; t.edges(), [[o, z], [o, y], [o, x], [z, y], [z, x], [y, x]]);
    Ok(())
}

#[test]
fn the_cells_of_a_tetrahedron_are_four_points_six_segments_and_four_triangles(
    rt: HostRuntime,
) -> Result<(), Fail> {
    let (o, z, y, x) = (
        place(0, 0, 0)?,
        place(0, 0, 8)?,
        place(0, 8, 0)?,
        place(8, 0, 0)?,
    );
    let cells = tet([x, y, z, o], 0, 1)?.cells();
    assert_eq!(rt; cells[3], Cell::Point(x));
    assert_eq!(rt; cells[4], Cell::Seg([o, z]));
    assert_eq!(rt; cells[9], Cell::Seg([y, x]));
    assert_eq!(rt; cells[10], Cell::Tri([o, z, y]));
    assert_eq!(rt; cells[13], Cell::Tri([z, y, x]));
    Ok(())
}

#[test]
fn a_set_contains_its_items_alone(rt: HostRuntime) -> Result<(), Fail> {
    let set = Ascending::gather(vec![in rt.alloc(); 5, 2, 9, 2]?);
    for item in [2, 5, 9] {
        assert!(rt; set.contains(&item));
    }
    for item in [1, 3, 6, 10] {
        assert!(rt; !set.contains(&item));
    }
    Ok(())
}

#[test]
fn a_set_retains_what_passes(rt: HostRuntime) -> Result<(), Fail> {
    let mut set = Ascending::gather(vec![in rt.alloc(); 1u32, 4, 6, 9]?);
    set.retain(|item| item % 2 == 0);
    assert_eq!(rt; set.as_slice(), [4u32, 6].as_slice());
    Ok(())
}

#[test]
fn a_union_has_the_items_of_both_in_order(rt: HostRuntime) -> Result<(), Fail> {
    let first = Ascending::gather(vec![in rt.alloc(); 1u32, 3, 5, 9]?);
    let second = Ascending::gather(vec![in rt.alloc(); 2u32, 3, 9, 10, 11]?);
    let both = first.union(rt.alloc(), &second)?;
    assert_eq!(rt; both.as_slice(), [1u32, 2, 3, 5, 9, 10, 11].as_slice());
    Ok(())
}

#[test]
fn a_difference_has_what_the_other_lacks(rt: HostRuntime) -> Result<(), Fail> {
    let first = Ascending::gather(vec![in rt.alloc(); 1u32, 3, 5, 9, 12]?);
    let second = Ascending::gather(vec![in rt.alloc(); 2u32, 3, 9]?);
    let rest = first.difference(rt.alloc(), &second)?;
    assert_eq!(rt; rest.as_slice(), [1u32, 5, 12].as_slice());
    Ok(())
}

#[test]
fn a_tetrahedron_holds_its_corners_alone(rt: HostRuntime) -> Result<(), Fail> {
    let (o, z, y, x) = (
        place(0, 0, 0)?,
        place(0, 0, 8)?,
        place(0, 8, 0)?,
        place(8, 0, 0)?,
    );
    let t = tet([o, z, y, x], 0, 1)?;
    assert!(rt; t.holds(&[x, z]));
    assert!(rt; !t.holds(&[z, place(0, 8, 8)?]));
    assert!(rt; t.holds(&[]));
    Ok(())
}

#[test]
fn a_cell_has_one_to_three_different_corners(rt: HostRuntime) -> Result<(), Fail> {
    let (o, z, y, x) = (
        place(0, 0, 0)?,
        place(0, 0, 8)?,
        place(0, 8, 0)?,
        place(8, 0, 0)?,
    );
    assert!(rt; Cell::new(&[]).is_none());
    assert_eq!(rt; Cell::new(&[y]), Some(Cell::Point(y)));
    assert_eq!(rt; Cell::new(&[y, z]), Some(Cell::Seg([z, y])));
    assert_eq!(rt; Cell::new(&[x, o, y]), Some(Cell::Tri([o, y, x])));
    assert!(rt; Cell::new(&[o, z, y, x]).is_none());
    assert!(rt; Cell::new(&[z, z]).is_none());
    assert!(rt; Cell::new(&[z, o, z]).is_none());
    Ok(())
}

#[test]
fn a_mesh_keeps_its_order_and_its_count_of_loose_marks(rt: HostRuntime) -> Result<(), Fail> {
    let (o, z, y, x) = (
        place(0, 0, 0)?,
        place(0, 0, 8)?,
        place(0, 8, 0)?,
        place(8, 0, 0)?,
    );
    let t = tet([o, z, y, x], 0, 1)?;
    let mark = Mark::new(Cell::Point(y), 9, 9);
    let marks = Ascending::gather(vec![in rt.alloc(); mark]?);
    let mesh = Mesh::new(vec![in rt.alloc(); t]?, marks, 3);
    assert_eq!(rt; mesh.tets(), [t].as_slice());
    assert_eq!(rt; mesh.marks(), [mark].as_slice());
    assert_eq!(rt; mesh.loose(), 3);
    Ok(())
}

#[test]
fn ghosts_are_ordered_by_tetrahedron_then_label(rt: HostRuntime) -> Result<(), Fail> {
    let (o, z, y, x) = (
        place(0, 0, 0)?,
        place(0, 0, 8)?,
        place(0, 8, 0)?,
        place(8, 0, 0)?,
    );
    let (first, second) = (tet([o, z, y, x], 0, 1)?, tet([o, z, y, x], 0, 2)?);
    let own = vec![in rt.alloc(); second]?;
    let ghosts = vec![in rt.alloc(); (second, 1u8), (first, 3), (first, 2), (first, 3)]?;
    let view = View::gather(4, own, ghosts, Vec::new(rt.alloc()));
    assert_eq!(rt; view.part, 4);
    assert_eq!(rt; view.own.as_slice(), [second].as_slice());
    assert_eq!(rt;
        view.ghosts.as_slice(),
        [(first, 2u8), (first, 3), (second, 1)].as_slice()
    );
    assert!(rt; view.marks.is_empty());
    Ok(())
}
