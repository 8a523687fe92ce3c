//! The parts of a mesh, before their first round.
ghost use Rattle.std.specs.Prelude.{◌≡◌, ◌<◌, ◌≤◌, true, filter, length, map, IfOk};
ghost use Rattle.std.specs.List.{AllByRecursion, zip};
ghost use Rattle.ma_cells.specs.Cells.{is_cell};
ghost use Rattle.ma_cells.specs.Tetrahedron.{are_corners};
ghost use Rattle.part_core.specs.Parts.{first_part};
ghost use Rattle.part_store.specs.Labelled.{has_label, own_of, tet_of};
ghost use Rattle.world_run.specs.Meshes.{labelled_mesh};
ghost use Rattle.world_run.specs.Replay.{first_parts};

use ma_cells::{Label, Mark, Mesh, Tet};
use ma_geom::Memory;
use part_core::Part;
use part_rules::Course;
use std::alloc::Global;

/// The tetrahedra with a label, in the order in which they stand.
fn own_tets(
    alloc: Global,
    tets: &[Tet],
    labels: &[Label],
    number: Label,
) -> Result<Vec<Tet>, Memory>
    requires { length labels.now ≡ length tets.now }
    ensures { IfOk result (λ own. own.items ≡ map tet_of (filter (has_label number) (zip tets.now labels.now))) }
{
    let mut own = Vec::new(alloc);
    for (place, tet) in tets.iter().enumerate() {
        if labels[place] == number {
            own.push(*tet)?;
        }
    }
    Ok(own)
}

/// An equal course.
fn copied(alloc: Global, course: &Course) -> Result<Course, Memory>
    ensures { IfOk result (λ copy. copy ≡ course.now) }
{
    let field = course.field.copy(alloc)?;
    Ok(Course {
        parts: course.parts,
        grid: course.grid,
        collapse: course.collapse,
        swap: course.swap,
        field,
    })
}

/// A part of a mesh, before its first round.
fn start_part(
    alloc: Global,
    course: &Course,
    mesh: &Mesh,
    labels: &[Label],
    number: Label,
) -> Result<Part, Memory>
    requires parts { course.now.parts ≤ 64 }
    requires grid { course.now.grid ≤ 30 }
    requires collapses { course.now.collapse ≤ 16 }
    requires swaps { course.now.swap ≤ 16 }
    requires each { length labels.now ≡ length mesh.now.tets }
    requires number { number < course.now.parts }
    ensures { IfOk result (λ part. part ≡ first_part number course.now (own_of (labelled_mesh mesh.now labels.now) number) (labelled_mesh mesh.now labels.now).marks) }
{
    let own = own_tets(alloc, mesh.tets(), labels, number)?;
    let copy = copied(alloc, course)?;
    Part::start(alloc, number, copy, &own, mesh.marks())
}

/// That each mark of a mesh is on a cell, which its type tells of each alone. Takes no memory.
pub fn tell_cells(marks: &[Mark])
    ensures { AllByRecursion (λ mark. is_cell mark.cell ≡ true) marks.now }
{
    for mark in marks {
        let _cell = mark.cell();
    }
}

/// That no tetrahedron is flat, which its type tells of each alone. Takes no memory.
pub fn tell_solid(tets: &[Tet])
    ensures { AllByRecursion (λ tet. are_corners tet.corners ≡ true) tets.now }
{
    for tet in tets {
        let _corners = tet.corners();
    }
}

/// The parts of a mesh, in ascending order.
pub fn start_all(
    alloc: Global,
    course: &Course,
    mesh: &Mesh,
    labels: &[Label],
) -> Result<Vec<Part>, Memory>
    requires parts { course.now.parts ≤ 64 }
    requires grid { course.now.grid ≤ 30 }
    requires collapses { course.now.collapse ≤ 16 }
    requires swaps { course.now.swap ≤ 16 }
    requires each { length labels.now ≡ length mesh.now.tets }
    ensures { IfOk result (λ parts. parts.items ≡ first_parts course.now (labelled_mesh mesh.now labels.now)) }
{
    let mut parts = Vec::with_capacity(alloc, course.parts as usize)?;
    for number in 0..course.parts {
        let part = start_part(alloc, course, mesh, labels, number)?;
        parts.push(part)?;
    }
    Ok(parts)
}
