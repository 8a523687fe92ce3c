// Whole runs over files in memory.
mod parts;
mod passes;

use crate::status::Status;
use crate::top::meshadapt;
use carrier::QueueCarrier;
use ma_io::{MemDepot, MemSink, names_differ};
use std::alloc::Global;
use std::process::Abort;
use std::test::Fail;

const WORDS: &str = "--plain --mesh m.msh --uniform 4 --rounds 0 --collapse 0 --swap 0 --out x";

const ONE_ROUND: &str = "--plain --mesh m.msh --uniform 4 --rounds 1 --collapse 0 --swap 0 --out x";

/// Four nodes and a tetrahedron.
const MESH: &str =
    "$MeshFormat\n2.2 0 8\n$EndMeshFormat\n$Nodes\n4\n1 0 0 0\n2 8 0 0\n3 0 8 0\n4 0 0 8\n$EndNodes\n$Elements\n1\n1 4 2 0 1 1 2 3 4\n$EndElements\n";

/// What is stored for it.
const TETRAHEDRON: &str =
    "$MeshFormat\n2.2 0 8\n$EndMeshFormat\n$Nodes\n4\n1 0 0 0\n2 0 0 8\n3 0 8 0\n4 8 0 0\n$EndNodes\n$Elements\n1\n1 4 2 0 1 1 2 4 3\n$EndElements\n";

/// Two tetrahedra with a node inside of an edge, on which a line lies.
const SPLIT: &str =
    "$MeshFormat\n2.2 0 8\n$EndMeshFormat\n$Nodes\n5\n1 0 0 0\n2 4 0 0\n3 8 0 0\n4 0 8 0\n5 0 0 8\n$EndNodes\n$Elements\n3\n1 1 2 0 5 1 3\n2 4 2 0 1 1 2 4 5\n3 4 2 0 1 2 3 4 5\n$EndElements\n";

/// Size 64 but at the origin.
const SIZES: &str = "default 64\nbox 0 0 0 0 0 0 4\n";

const MESH_LINE: &str = "mesh: tets 1 nodes 4 marks 0 loose 0\n";

/// The numbers of the fetches, stores and puts that fail.
type Fails<'a> = (&'a [u64], &'a [u64], &'a [u64]);

/// What a run left.
#[derive(Drop)]
struct Left {
    status: Status,
    depot: MemDepot,
    sink: MemSink,
}

fn words_in(alloc: Global, line: &str) -> Result<Vec<String>, Fail> {
    let mut words = Vec::new(alloc);
    for word in line.split(' ') {
        words.push(String::from_str(alloc, word)?)?;
    }
    Ok(words)
}

fn named(alloc: Global, name: &str, text: &str) -> Result<(String, Vec<u8>), Fail> {
    let name = String::from_str(alloc, name)?;
    Ok((name, Vec::from_slice(alloc, text.as_bytes())?))
}

fn depot_of(
    rt: &impl Abort,
    alloc: Global,
    text: &str,
    fetches: &[u64],
    stores: &[u64],
) -> Result<MemDepot, Fail> {
    let mut files = Vec::new(alloc);
    files.push(named(alloc, "m.msh", text)?)?;
    files.push(named(alloc, "s.size", SIZES)?)?;
    files.push(named(alloc, "zero.size", "default 4\n\nbox 0 0 0 1 1 1 0\n")?)?;
    files.push(named(alloc, "one.part", "0\n")?)?;
    files.push(named(alloc, "two.part", "0\n0\n")?)?;
    files.push(named(alloc, "big.part", "1\n")?)?;
    files.push(named(alloc, "bad.schedule", "0\nx\n")?)?;
    assert!(rt; names_differ(files.as_slice()));
    let fetches = Vec::from_slice(alloc, fetches)?;
    let stores = Vec::from_slice(alloc, stores)?;
    Ok(MemDepot::new(alloc, files, fetches, stores))
}

/// Runs over this mesh.
fn run(
    rt: &impl Abort,
    alloc: Global,
    words: &str,
    text: &str,
    fails: Fails<'_>,
) -> Result<Left, Fail> {
    let words = words_in(alloc, words)?;
    let mut depot = depot_of(rt, alloc, text, fails.0, fails.1)?;
    let mut sink = MemSink::new(alloc, Vec::from_slice(alloc, fails.2)?);
    let mut carrier = QueueCarrier::new(alloc, Vec::new(alloc), Vec::new(alloc));
    let status = meshadapt(alloc, words.as_slice(), &mut depot, &mut carrier, &mut sink);
    Ok(Left {
        status,
        depot,
        sink,
    })
}

fn is_stored(depot: &MemDepot, text: &str) -> bool {
    match depot.bytes_of("x.msh") {
        Some(bytes) => bytes == text.as_bytes(),
        None => text.is_empty(),
    }
}

/// Whether a run has this status, prints these lines and stores this text, where nothing is stored if
/// it is empty.
fn leaves(
    rt: &impl Abort,
    alloc: Global,
    words: &str,
    text: &str,
    fails: Fails<'_>,
    code: u8,
    lines: &str,
    stored: &str,
) -> Result<bool, Fail> {
    let left = run(rt, alloc, words, text, fails)?;
    Ok(
        left.status.code() == code
            && left.sink.bytes() == lines.as_bytes()
            && is_stored(&left.depot, stored),
    )
}

/// Whether a run over a file is done, prints these lines and stores this text.
fn becomes(
    rt: &impl Abort,
    alloc: Global,
    words: &str,
    text: &str,
    lines: &str,
    stored: &str,
) -> Result<bool, Fail> {
    leaves(rt, alloc, words, text, (&[], &[], &[]), 0, lines, stored)
}

/// Whether a run over a file is done, and prints these lines.
fn prints(
    rt: &impl Abort,
    alloc: Global,
    words: &str,
    text: &str,
    lines: &str,
) -> Result<bool, Fail> {
    let left = run(rt, alloc, words, text, (&[], &[], &[]))?;
    Ok(left.status.code() == 0 && left.sink.bytes() == lines.as_bytes())
}

/// Whether a run over a file is refused for this.
fn is_refused(
    rt: &impl Abort,
    alloc: Global,
    words: &str,
    text: &str,
    reason: &str,
) -> Result<bool, Fail> {
    let line = format!(in alloc; "refused: {reason}\n")?;
    leaves(
        rt,
        alloc,
        words,
        text,
        (&[], &[], &[]),
        4,
        line.as_str(),
        "",
    )
}

/// The mesh with this in place of one of its lines, which are counted from 1.
fn with_line(alloc: Global, number: usize, line: &str) -> Result<String, Fail> {
    let mut text = String::new(alloc);
    for (index, old) in MESH.lines().enumerate() {
        writeln!(text, "{}", if index + 1 == number { line } else { old })?;
    }
    Ok(text)
}

#[test]
fn a_tetrahedron_is_stored_in_canonical_order(rt: HostRuntime) -> Result<(), Fail> {
    let lines = "mesh: tets 1 nodes 4 marks 0 loose 0\ndone: plain\n";
    assert!(rt; becomes(&rt, rt.alloc(), WORDS, MESH, lines, TETRAHEDRON)?);
    Ok(())
}

#[test]
fn corners_in_another_order_are_stored_alike(rt: HostRuntime) -> Result<(), Fail> {
    let lines = "mesh: tets 1 nodes 4 marks 0 loose 0\ndone: plain\n";
    let file = with_line(rt.alloc(), 13, "1 4 2 0 1 1 3 2 4")?;
    assert!(rt; becomes(&rt, rt.alloc(), WORDS, file.as_str(), lines, TETRAHEDRON)?);
    Ok(())
}

/// Words of another form, those of a run in each line, and none in the first.
const OTHER_WORDS: &str =
    "\n--mesh m.msh --plain --uniform 4 --rounds 0 --collapse 0 --swap 0 --out x\n--plain --mesh m.msh --uniform 99999999999999999999 --rounds 0 --collapse 0 --swap 0 --out x\n--plain --mesh m.msh --uniform 4 --rounds 31 --collapse 0 --swap 0 --out x\n--plain --mesh m.msh --uniform 4 --rounds 0 --collapse 0 --swap 0 --out x y\n";

#[test]
fn other_words_are_answered_with_usage(rt: HostRuntime) -> Result<(), Fail> {
    let none: Fails<'_> = (&[], &[], &[]);
    for words in OTHER_WORDS.lines() {
        assert!(rt;
            leaves(&rt, rt.alloc(), words, TETRAHEDRON, none, 1, "usage\n", "")?,
            "{words}"
        );
    }
    Ok(())
}

#[test]
fn a_mesh_that_is_not_there_is_missing(rt: HostRuntime) -> Result<(), Fail> {
    let words = "--plain --mesh n.msh --uniform 4 --rounds 0 --collapse 0 --swap 0 --out x";
    assert!(rt; is_refused(&rt, rt.alloc(), words, TETRAHEDRON, "mesh: missing")?);
    Ok(())
}

/// So many lines of the mesh.
fn front_of(alloc: Global, lines: usize) -> Result<String, Fail> {
    let mut text = String::new(alloc);
    for line in MESH.lines().take(lines) {
        writeln!(text, "{line}")?;
    }
    Ok(text)
}

/// What is missing after so many lines.
fn missing_after(lines: u8) -> &'static str {
    match lines {
        0 => "no format",
        3 => "no nodes",
        10 => "no elements",
        _ => "truncated",
    }
}

/// Whether so many lines of the mesh are refused for the next.
fn is_cut(rt: &impl Abort, alloc: Global, lines: u8) -> Result<bool, Fail> {
    let next = u32::from(lines) + 1;
    let reason = format!(in alloc; "mesh line {next}: {}", missing_after(lines))?;
    let front = front_of(alloc, usize::from(lines))?;
    is_refused(rt, alloc, WORDS, front.as_str(), reason.as_str())
}

#[test]
fn a_file_that_is_cut_after_a_line_is_refused_at_the_next(rt: HostRuntime) -> Result<(), Fail> {
    for lines in 0..14 {
        assert!(rt; is_cut(&rt, rt.alloc(), lines)?, "{lines}");
    }
    assert_eq!(rt; MESH.lines().count(), 14);
    Ok(())
}

/// Whether the mesh with this line in place of another is refused for this.
fn is_told(
    rt: &impl Abort,
    alloc: Global,
    number: usize,
    line: &str,
    reason: &str,
) -> Result<bool, Fail> {
    let file = with_line(alloc, number, line)?;
    is_refused(rt, alloc, WORDS, file.as_str(), reason)
}

#[test]
fn a_coordinate_out_of_range_is_told(rt: HostRuntime) -> Result<(), Fail> {
    assert!(rt;
        is_told(
            &rt,
            rt.alloc(),
            6,
            "1 1073741825 0 0",
            "mesh line 6: out of range"
        )?
    );
    Ok(())
}

#[test]
fn a_coordinate_that_is_not_whole_is_told(rt: HostRuntime) -> Result<(), Fail> {
    assert!(rt; is_told(&rt, rt.alloc(), 6, "1 12.5 0 0", "mesh line 6: not whole")?);
    assert!(rt; is_told(&rt, rt.alloc(), 6, "1 1e3 0 0", "mesh line 6: not whole")?);
    Ok(())
}

#[test]
fn an_element_of_another_type_is_told(rt: HostRuntime) -> Result<(), Fail> {
    let reason = "mesh line 13: element type 11";
    assert!(rt; is_told(&rt, rt.alloc(), 13, "1 11 2 0 1 1 2 3 4", reason)?);
    Ok(())
}

#[test]
fn a_line_past_a_node_is_loose(rt: HostRuntime) -> Result<(), Fail> {
    let lines = "mesh: tets 2 nodes 5 marks 0 loose 1\ndone: plain\n";
    assert!(rt; prints(&rt, rt.alloc(), WORDS, SPLIT, lines)?);
    Ok(())
}

#[test]
fn a_fetch_that_fails_is_a_read_fault(rt: HostRuntime) -> Result<(), Fail> {
    let fails: Fails<'_> = (&[1], &[], &[]);
    let lines = "read fault: m.msh\n";
    assert!(rt; leaves(&rt, rt.alloc(), WORDS, TETRAHEDRON, fails, 2, lines, "")?);
    Ok(())
}

#[test]
fn a_store_that_fails_is_a_write_fault(rt: HostRuntime) -> Result<(), Fail> {
    let fails: Fails<'_> = (&[], &[1], &[]);
    let lines = "mesh: tets 1 nodes 4 marks 0 loose 0\nwrite fault: x.msh\n";
    assert!(rt; leaves(&rt, rt.alloc(), WORDS, TETRAHEDRON, fails, 3, lines, "")?);
    Ok(())
}

#[test]
fn nothing_follows_a_first_line_that_cannot_be_put(rt: HostRuntime) -> Result<(), Fail> {
    let fails: Fails<'_> = (&[], &[], &[1]);
    assert!(rt; leaves(&rt, rt.alloc(), ONE_ROUND, TETRAHEDRON, fails, 3, "", "")?);
    Ok(())
}

#[test]
fn nothing_follows_a_round_whose_line_cannot_be_put(rt: HostRuntime) -> Result<(), Fail> {
    let fails: Fails<'_> = (&[], &[], &[2]);
    assert!(rt;
        leaves(
            &rt,
            rt.alloc(),
            ONE_ROUND,
            TETRAHEDRON,
            fails,
            3,
            MESH_LINE,
            ""
        )?
    );
    Ok(())
}

#[test]
fn a_last_line_that_cannot_be_put_leaves_the_file(rt: HostRuntime) -> Result<(), Fail> {
    let fails: Fails<'_> = (&[], &[], &[2]);
    assert!(rt;
        leaves(
            &rt,
            rt.alloc(),
            WORDS,
            TETRAHEDRON,
            fails,
            3,
            MESH_LINE,
            TETRAHEDRON
        )?
    );
    Ok(())
}

/// Adds a section of lines, which are numbered from 1 and have a ';' between them.
fn put_section(text: &mut String, name: &str, front: &str, lines: &str) -> Result<(), Fail> {
    writeln!(text, "${name}\n{}", lines.split(';').count())?;
    for (index, line) in lines.split(';').enumerate() {
        writeln!(text, "{} {front}{line}", index + 1)?;
    }
    writeln!(text, "$End{name}")?;
    Ok(())
}

/// A file with these nodes and tetrahedra, whose tags are 0 1.
fn file_of(alloc: Global, nodes: &str, tets: &str) -> Result<String, Fail> {
    let mut text = String::from_str(alloc, "$MeshFormat\n2.2 0 8\n$EndMeshFormat\n")?;
    put_section(&mut text, "Nodes", "", nodes)?;
    put_section(&mut text, "Elements", "4 2 0 1 ", tets)?;
    Ok(text)
}

#[test]
fn two_tetrahedra_that_overlap_are_refused(rt: HostRuntime) -> Result<(), Fail> {
    let nodes = "0 0 0;8 0 0;0 8 0;0 0 8;1 1 1;9 1 1;1 9 1;1 1 9";
    let file = file_of(rt.alloc(), nodes, "1 2 3 4;5 6 7 8")?;
    let reason = "mesh: tetrahedra 1 and 2 overlap";
    assert!(rt; is_refused(&rt, rt.alloc(), WORDS, file.as_str(), reason)?);
    Ok(())
}

/// Whether a round makes a mesh of these nodes and tetrahedra, and prints these lines.
fn is_bisected(
    rt: &impl Abort,
    alloc: Global,
    text: &str,
    nodes: &str,
    tets: &str,
    lines: &str,
) -> Result<bool, Fail> {
    let refined = file_of(alloc, nodes, tets)?;
    becomes(rt, alloc, ONE_ROUND, text, lines, refined.as_str())
}

#[test]
fn a_round_bisects_a_tetrahedron_into_eight(rt: HostRuntime) -> Result<(), Fail> {
    let nodes = "0 0 0;0 0 4;0 0 8;0 4 0;0 4 4;0 8 0;4 0 0;4 0 4;4 4 0;8 0 0";
    let tets = "1 2 8 5;1 4 5 9;1 5 8 7;1 5 7 9;2 3 8 5;4 5 9 6;5 7 10 8;5 7 9 10";
    let lines =
        "mesh: tets 1 nodes 4 marks 0 loose 0\nround 1: tets 8 nodes 10 worst 79536431\ndone: plain\n";
    assert!(rt; is_bisected(&rt, rt.alloc(), TETRAHEDRON, nodes, tets, lines)?);
    Ok(())
}

#[test]
fn two_tetrahedra_are_bisected_alike_on_their_common_face(rt: HostRuntime) -> Result<(), Fail> {
    let file = file_of(
        rt.alloc(),
        "0 0 0;8 0 0;0 8 0;0 0 8;8 8 8",
        "1 2 3 4;2 3 4 5",
    )?;
    let nodes =
        "0 0 0;0 0 4;0 0 8;0 4 0;0 4 4;0 8 0;4 0 0;4 0 4;4 4 0;4 4 8;4 8 4;8 0 0;8 4 4;8 8 8";
    let tets =
        "1 2 8 5;1 4 5 9;1 5 8 7;1 5 7 9;2 3 8 5;3 5 10 8;4 5 9 6;5 6 11 9;5 7 12 8;5 7 9 12;5 8 14 10;5 8 12 13;5 8 13 14;5 9 11 14;5 9 13 12;5 9 14 13";
    let lines =
        "mesh: tets 2 nodes 5 marks 0 loose 0\nround 1: tets 16 nodes 14 worst 79536431\ndone: plain\n";
    assert!(rt; is_bisected(&rt, rt.alloc(), file.as_str(), nodes, tets, lines)?);
    Ok(())
}

#[test]
fn both_sides_of_a_crack_are_bisected_on_their_own(rt: HostRuntime) -> Result<(), Fail> {
    let nodes = "0 0 0;4 0 0;8 0 0;0 8 0;0 0 8;0 0 -8";
    let file = file_of(rt.alloc(), nodes, "1 3 4 5;1 2 4 6;2 3 4 6")?;
    let lines =
        "mesh: tets 3 nodes 6 marks 0 loose 0\nround 1: tets 20 nodes 16 worst 79536431\ndone: plain\n";
    assert!(rt; prints(&rt, rt.alloc(), ONE_ROUND, file.as_str(), lines)?);
    Ok(())
}

#[test]
fn longer_edges_at_a_crack_are_bisected_on_their_own(rt: HostRuntime) -> Result<(), Fail> {
    let nodes = "0 0 0;16 0 0;0 16 0;0 0 16;0 0 -16;8 0 0";
    let file = file_of(rt.alloc(), nodes, "1 2 3 4;1 6 3 5;6 2 3 5")?;
    let lines =
        "mesh: tets 3 nodes 6 marks 0 loose 0\nround 1: tets 24 nodes 18 worst 37675151\ndone: plain\n";
    assert!(rt; prints(&rt, rt.alloc(), ONE_ROUND, file.as_str(), lines)?);
    Ok(())
}

const FOUR_ROUNDS: &str =
    "--plain --mesh m.msh --uniform 4 --rounds 4 --collapse 0 --swap 0 --out x";

#[test]
fn more_rounds_than_the_grid_halves_are_refused(rt: HostRuntime) -> Result<(), Fail> {
    assert!(rt; is_refused(&rt, rt.alloc(), FOUR_ROUNDS, TETRAHEDRON, "rounds 4 grid 3")?);
    Ok(())
}

#[test]
fn a_file_that_is_no_mesh_is_refused_before_the_rounds(rt: HostRuntime) -> Result<(), Fail> {
    assert!(rt;
        is_refused(
            &rt,
            rt.alloc(),
            FOUR_ROUNDS,
            "no mesh",
            "mesh line 1: bad line"
        )?
    );
    Ok(())
}

/// The status of a run over a file.
fn status_of(rt: &impl Abort, alloc: Global, words: &str, text: &str) -> Result<u8, Fail> {
    let left = run(rt, alloc, words, text, (&[], &[], &[]))?;
    Ok(left.status.code())
}

#[test]
fn as_many_rounds_as_the_grid_halves_are_run(rt: HostRuntime) -> Result<(), Fail> {
    let words = "--plain --mesh m.msh --uniform 4 --rounds 3 --collapse 0 --swap 0 --out x";
    assert_eq!(rt; status_of(&rt, rt.alloc(), words, TETRAHEDRON)?, 0);
    Ok(())
}

/// Whether a line begins so.
fn has_line(bytes: &[u8], front: &[u8]) -> bool {
    bytes
        .split(|byte| *byte == b'\n')
        .any(|line| line.starts_with(front))
}

/// Whether a run over a file ends behind its fifth round.
fn ends_past_a_million(
    rt: &impl Abort,
    alloc: Global,
    words: &str,
    text: &str,
) -> Result<bool, Fail> {
    let left = run(rt, alloc, words, text, (&[], &[], &[]))?;
    let bytes = left.sink.bytes();
    Ok(
        left.status.code() == 5
            && has_line(bytes, b"round 5: tets 131072 nodes ")
            && bytes.ends_with(b"\ntoo many: round 6 stage 0 tets 1048576\n")
            && is_stored(&left.depot, ""),
    )
}

#[test]
fn a_million_tetrahedra_are_too_many(rt: HostRuntime) -> Result<(), Fail> {
    let nodes = "0 0 0;0 0 64;64 0 0;0 64 0;-64 0 0;0 -64 0";
    let file = file_of(rt.alloc(), nodes, "1 2 3 4;1 2 4 5;1 2 5 6;1 2 6 3")?;
    let words = "--plain --mesh m.msh --uniform 1 --rounds 6 --collapse 0 --swap 0 --out x";
    assert!(rt; ends_past_a_million(&rt, rt.alloc(), words, file.as_str())?);
    Ok(())
}

/// Whether a round with sizes from this file is refused for this.
fn is_unsized(
    rt: &impl Abort,
    alloc: Global,
    name: &str,
    text: &str,
    reason: &str,
) -> Result<bool, Fail> {
    let words = format!(in alloc;
        "--plain --mesh m.msh --size {name} --rounds 4 --collapse 0 --swap 0 --out x"
    )?;
    is_refused(rt, alloc, words.as_str(), text, reason)
}

#[test]
fn a_size_file_is_refused_behind_the_mesh_and_before_the_rounds(
    rt: HostRuntime,
) -> Result<(), Fail> {
    let split = file_of(rt.alloc(), "0 0 0;8 0 0;0 8 0;8 8 0", "1 2 3 4")?;
    let flat = "mesh: tetrahedron 1 flat";
    assert!(rt; is_unsized(&rt, rt.alloc(), "none", split.as_str(), flat)?);
    assert!(rt; is_unsized(&rt, rt.alloc(), "none", MESH, "size: missing")?);
    assert!(rt;
        is_unsized(
            &rt,
            rt.alloc(),
            "zero.size",
            MESH,
            "size line 3: out of range"
        )?
    );
    assert!(rt; is_unsized(&rt, rt.alloc(), "s.size", MESH, "rounds 4 grid 3")?);
    Ok(())
}

/// Words of a run over parts of another form, those of a run in each line.
const OTHER_PARTS: &str =
    "--mesh m.msh --uniform 4 --parts 0 --partition one.part --schedule q --rounds 0 --collapse 0 --swap 0 --out x\n--mesh m.msh --uniform 4 --parts 65 --partition one.part --schedule q --rounds 0 --collapse 0 --swap 0 --out x\n--mesh m.msh --uniform 4 --parts 1 --schedule q --partition one.part --rounds 0 --collapse 0 --swap 0 --out x\n--mesh m.msh --uniform 4 --parts 1 --partition one.part --schedule q --rounds 31 --collapse 0 --swap 0 --out x\n--mesh m.msh --uniform 4 --parts 1 --partition one.part --schedule q --rounds 1 --collapse 17 --swap 0 --out x\n--mesh m.msh --uniform 4 --parts 1 --partition one.part --schedule q --rounds 1 --collapse 0 --swap 17 --out x\n";

#[test]
fn other_words_over_parts_are_answered_with_usage(rt: HostRuntime) -> Result<(), Fail> {
    let none: Fails<'_> = (&[], &[], &[]);
    for words in OTHER_PARTS.lines() {
        assert!(rt;
            leaves(&rt, rt.alloc(), words, MESH, none, 1, "usage\n", "")?,
            "{words}"
        );
    }
    Ok(())
}

/// Whether a run over one part with these files is refused for this.
fn is_undivided(rt: &impl Abort, alloc: Global, files: &str, reason: &str) -> Result<bool, Fail> {
    let words = format!(in alloc; "--mesh m.msh {files} --rounds 0 --collapse 0 --swap 0 --out x")?;
    is_refused(rt, alloc, words.as_str(), MESH, reason)
}

/// Sizes, a partition and a schedule of one part, and what they are refused for, line by line.
const DIVISIONS: &str =
    "--uniform 4 --parts 1 --partition none --schedule none;partition: missing\n--uniform 4 --parts 1 --partition two.part --schedule none;partition: 2 lines for 1 tetrahedra\n--size none --parts 1 --partition big.part --schedule none;partition line 1: part too big\n--size zero.size --parts 1 --partition one.part --schedule none;size line 3: out of range\n--uniform 4 --parts 1 --partition one.part --schedule none;schedule: missing\n--uniform 4 --parts 1 --partition one.part --schedule bad.schedule;schedule line 2: bad line\n";

#[test]
fn a_partition_is_refused_before_the_sizes_and_a_schedule_behind_them(
    rt: HostRuntime,
) -> Result<(), Fail> {
    for line in DIVISIONS.lines() {
        if let Some((files, reason)) = line.split_once(';') {
            assert!(rt; is_undivided(&rt, rt.alloc(), files, reason)?, "{line}");
        }
    }
    Ok(())
}

#[test]
fn only_the_edges_at_the_origin_are_long(rt: HostRuntime) -> Result<(), Fail> {
    let words = "--plain --mesh m.msh --size s.size --rounds 1 --collapse 0 --swap 0 --out x";
    let nodes = "0 0 0;0 0 4;0 0 8;0 4 0;0 8 0;4 0 0;8 0 0";
    let refined = file_of(rt.alloc(), nodes, "1 2 6 4;2 3 7 5;2 4 5 7;2 4 7 6")?;
    let lines =
        "mesh: tets 1 nodes 4 marks 0 loose 0\nround 1: tets 4 nodes 7 worst 97612893\ndone: plain\n";
    assert!(rt; becomes(&rt, rt.alloc(), words, MESH, lines, refined.as_str())?);
    Ok(())
}

#[test]
fn a_fetch_of_sizes_that_fails_is_a_read_fault(rt: HostRuntime) -> Result<(), Fail> {
    let words = "--plain --mesh m.msh --size s.size --rounds 0 --collapse 0 --swap 0 --out x";
    let fails: Fails<'_> = (&[2], &[], &[]);
    assert!(rt;
        leaves(
            &rt,
            rt.alloc(),
            words,
            MESH,
            fails,
            2,
            "read fault: s.size\n",
            ""
        )?
    );
    Ok(())
}

/// Whether a run over a mesh of these nodes and tetrahedra makes one of those, and prints these lines.
fn is_adapted(
    rt: &impl Abort,
    alloc: Global,
    words: &str,
    before: [&str; 2],
    lines: &str,
    after: [&str; 2],
) -> Result<bool, Fail> {
    let file = file_of(alloc, before[0], before[1])?;
    let stored = file_of(alloc, after[0], after[1])?;
    becomes(rt, alloc, words, file.as_str(), lines, stored.as_str())
}

/// Three tetrahedra along the x axis.
const ALONG: [&str; 2] = [
    "0 0 0;4 0 0;8 0 0;12 0 0;0 12 0;0 0 12",
    "1 2 5 6;2 3 5 6;3 4 5 6",
];

#[test]
fn of_two_collapses_that_meet_the_one_of_the_lesser_vertex_is_made(
    rt: HostRuntime,
) -> Result<(), Fail> {
    let words = "--plain --mesh m.msh --uniform 64 --rounds 1 --collapse 1 --swap 0 --out x";
    let lines =
        "mesh: tets 3 nodes 6 marks 0 loose 0\nround 1: tets 2 nodes 5 worst 134217728\ndone: plain\n";
    let after = ["0 0 0;0 0 12;0 12 0;8 0 0;12 0 0", "1 2 4 3;2 3 5 4"];
    assert!(rt; is_adapted(&rt, rt.alloc(), words, ALONG, lines, after)?);
    Ok(())
}

#[test]
fn a_second_pass_collapses_what_the_first_one_left(rt: HostRuntime) -> Result<(), Fail> {
    let words = "--plain --mesh m.msh --uniform 64 --rounds 1 --collapse 2 --swap 0 --out x";
    let lines =
        "mesh: tets 3 nodes 6 marks 0 loose 0\nround 1: tets 1 nodes 4 worst 402653184\ndone: plain\n";
    let after = ["0 0 0;0 0 12;0 12 0;12 0 0", "1 2 4 3"];
    assert!(rt; is_adapted(&rt, rt.alloc(), words, ALONG, lines, after)?);
    Ok(())
}

/// Three tetrahedra around an edge, and the two that are left when it is swapped.
const RING: [&str; 2] = ["0 0 0;8 8 8;8 8 0;8 0 8;0 8 8", "1 2 3 4;1 2 4 5;1 2 5 3"];

const SWAPPED: [&str; 2] = ["0 0 0;0 8 8;8 0 8;8 8 0;8 8 8", "1 2 3 4;2 3 4 5"];

#[test]
fn three_tetrahedra_around_an_edge_are_swapped_for_two(rt: HostRuntime) -> Result<(), Fail> {
    let words = "--plain --mesh m.msh --uniform 16 --rounds 1 --collapse 0 --swap 1 --out x";
    let lines =
        "mesh: tets 3 nodes 5 marks 0 loose 0\nround 1: tets 2 nodes 5 worst 390451572\ndone: plain\n";
    assert!(rt; is_adapted(&rt, rt.alloc(), words, RING, lines, SWAPPED)?);
    Ok(())
}

/// Two tetrahedra along two marked lines, and what is left when their common node goes.
const LINES: &str =
    "$MeshFormat\n2.2 0 8\n$EndMeshFormat\n$Nodes\n5\n1 0 0 0\n2 4 0 0\n3 8 0 0\n4 0 8 0\n5 0 0 8\n$EndNodes\n$Elements\n4\n1 1 2 0 5 1 2\n2 1 2 0 5 2 3\n3 4 2 0 1 1 2 4 5\n4 4 2 0 1 2 3 4 5\n$EndElements\n";

const ONE_LINE: &str =
    "$MeshFormat\n2.2 0 8\n$EndMeshFormat\n$Nodes\n4\n1 0 0 0\n2 0 0 8\n3 0 8 0\n4 8 0 0\n$EndNodes\n$Elements\n2\n1 1 2 0 5 1 4\n2 4 2 0 1 1 2 4 3\n$EndElements\n";

#[test]
fn a_vertex_goes_along_its_marked_line(rt: HostRuntime) -> Result<(), Fail> {
    let words = "--plain --mesh m.msh --uniform 64 --rounds 1 --collapse 1 --swap 0 --out x";
    let lines =
        "mesh: tets 2 nodes 5 marks 2 loose 0\nround 1: tets 1 nodes 4 worst 390451572\ndone: plain\n";
    assert!(rt; becomes(&rt, rt.alloc(), words, LINES, lines, ONE_LINE)?);
    Ok(())
}
