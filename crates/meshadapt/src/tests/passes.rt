// Whole runs over parts whose rounds have passes, on two and on three tetrahedra.
use super::parts::EMPTY;
use super::{ALONG, LINES, Left, ONE_LINE, RING, SWAPPED, file_of, named, words_in};
use crate::top::meshadapt;
use carrier::QueueCarrier;
use ma_io::{MemDepot, MemSink, names_differ};
use std::alloc::Global;
use std::process::Abort;
use std::test::Fail;

/// What a round with these options leaves of a mesh, where these are the lines of its partition and
/// of its schedule.
fn run(
    rt: &impl Abort,
    alloc: Global,
    options: &str,
    mesh: &str,
    partition: &str,
    schedule: &str,
) -> Result<Left, Fail> {
    let mut files = Vec::new(alloc);
    files.push(named(alloc, "m.msh", mesh)?)?;
    files.push(named(alloc, "p", partition)?)?;
    files.push(named(alloc, "q", schedule)?)?;
    assert!(rt; names_differ(files.as_slice()));
    let line = format!(in alloc; "--mesh m.msh {options} --out x")?;
    let words = words_in(alloc, line.as_str())?;
    let mut depot = MemDepot::new(alloc, files, Vec::new(alloc), Vec::new(alloc));
    let mut carrier = QueueCarrier::new(alloc, Vec::new(alloc), Vec::new(alloc));
    let mut sink = MemSink::new(alloc, Vec::new(alloc));
    let status = meshadapt(alloc, words.as_slice(), &mut depot, &mut carrier, &mut sink);
    Ok(Left {
        status,
        depot,
        sink,
    })
}

/// Whether a run is done, and printed these lines.
fn prints(left: &Left, lines: &str) -> bool {
    left.status.code() == 0 && left.sink.bytes() == lines.as_bytes()
}

fn has_stored(left: &Left, name: &str, text: &str) -> bool {
    left.depot.bytes_of(name) == Some(text.as_bytes())
}

/// The tetrahedron and the line of part 0 that are left.
const FIRST: &str =
    "$MeshFormat\n2.2 0 8\n$EndMeshFormat\n$Nodes\n4\n1 0 0 0\n2 0 0 8\n3 0 8 0\n4 8 0 0\n$EndNodes\n$Elements\n2\n1 1 4 0 5 1 1 1 4\n2 4 4 0 1 1 1 1 2 4 3\n$EndElements\n";

// Round 0 has a letter from each part to the other in each of 3 phases, and round 1 in each of 10.
#[test]
fn a_vertex_between_two_parts_goes_along_its_marked_line_into_the_first(
    rt: HostRuntime,
) -> Result<(), Fail> {
    let options =
        "--uniform 64 --parts 2 --partition p --schedule q --rounds 1 --collapse 1 --swap 0";
    let left = run(&rt, rt.alloc(), options, LINES, "1\n0\n", "")?;
    let lines =
        "mesh: tets 2 nodes 5 marks 2 loose 0\nround 1: tets 1 nodes 4 worst 390451572\ndone: parts 2 letters 26\n";
    assert!(rt; prints(&left, lines));
    assert!(rt; has_stored(&left, "x.msh", ONE_LINE));
    assert!(rt; has_stored(&left, "x.p0.msh", FIRST));
    assert!(rt; has_stored(&left, "x.p1.msh", EMPTY));
    Ok(())
}

#[test]
fn an_edge_between_two_parts_is_swapped_into_the_first(rt: HostRuntime) -> Result<(), Fail> {
    let options =
        "--uniform 16 --parts 2 --partition p --schedule q --rounds 1 --collapse 0 --swap 1";
    let [nodes, tets] = RING;
    let mesh = file_of(rt.alloc(), nodes, tets)?;
    let left = run(
        &rt,
        rt.alloc(),
        options,
        mesh.as_str(),
        "1\n0\n1\n",
        "3\n1\n",
    )?;
    let lines =
        "mesh: tets 3 nodes 5 marks 0 loose 0\nround 1: tets 2 nodes 5 worst 390451572\ndone: parts 2 letters 26\n";
    let [nodes, tets] = SWAPPED;
    let whole = file_of(rt.alloc(), nodes, tets)?;
    assert!(rt; prints(&left, lines));
    assert!(rt; has_stored(&left, "x.msh", whole.as_str()));
    assert!(rt; has_stored(&left, "x.p1.msh", EMPTY));
    Ok(())
}

/// Whether two passes over three parts with these lines leave one of three tetrahedra along the x axis.
fn leaves_one(
    rt: &impl Abort,
    alloc: Global,
    partition: &str,
    schedule: &str,
) -> Result<bool, Fail> {
    let options =
        "--uniform 64 --parts 3 --partition p --schedule q --rounds 1 --collapse 2 --swap 0";
    let [nodes, tets] = ALONG;
    let mesh = file_of(alloc, nodes, tets)?;
    let left = run(rt, alloc, options, mesh.as_str(), partition, schedule)?;
    let lines =
        "mesh: tets 3 nodes 6 marks 0 loose 0\nround 1: tets 1 nodes 4 worst 402653184\ndone: parts 3 letters 120\n";
    let whole = file_of(alloc, "0 0 0;0 0 12;0 12 0;12 0 0", "1 2 4 3")?;
    Ok(prints(&left, lines) && has_stored(&left, "x.msh", whole.as_str()))
}

#[test]
fn two_passes_over_three_parts_leave_the_same_mesh_whatever_the_parts_and_the_order_of_letters(
    rt: HostRuntime,
) -> Result<(), Fail> {
    for partition in [
        "0\n0\n0\n",
        "0\n1\n2\n",
        "2\n1\n0\n",
        "1\n0\n1\n",
        "0\n0\n1\n",
        "1\n2\n0\n",
    ] {
        assert!(rt; leaves_one(&rt, rt.alloc(), partition, "")?, "{partition}");
        assert!(rt;
            leaves_one(&rt, rt.alloc(), partition, "2\n1\n0\n5\n3\n")?,
            "{partition}"
        );
    }
    Ok(())
}
