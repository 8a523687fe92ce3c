// Whole runs over parts, on two tetrahedra with a common face.
use super::{Left, named, words_in};
use crate::top::meshadapt;
use carrier::{Carrier, Change, QueueCarrier, TestCarrier};
use ma_io::{MemDepot, MemSink, names_differ};
use std::alloc::Global;
use std::process::Abort;
use std::test::Fail;

const MESH: &str =
    "$MeshFormat\n2.2 0 8\n$EndMeshFormat\n$Nodes\n5\n1 0 0 0\n2 8 0 0\n3 0 8 0\n4 0 0 8\n5 8 8 8\n$EndNodes\n$Elements\n2\n1 4 2 0 1 1 2 3 4\n2 4 2 0 1 2 3 4 5\n$EndElements\n";

/// The same in canonical order, up to its elements.
const NODES: &str =
    "$MeshFormat\n2.2 0 8\n$EndMeshFormat\n$Nodes\n5\n1 0 0 0\n2 0 0 8\n3 0 8 0\n4 8 0 0\n5 8 8 8\n$EndNodes\n$Elements\n2\n";

/// What is stored in `x.msh`, `x.p0.msh` and `x.p1.msh` where each part has one of the tetrahedra, and
/// nothing where a file isn't stored.
type Elements<'a> = [&'a str; 3];

const ALL: Elements<'_> = [
    "1 4 2 0 1 1 2 4 3\n2 4 2 0 1 2 3 5 4\n",
    "1 4 4 0 1 1 1 1 2 4 3\n2 4 5 0 1 2 2 -1 2 3 5 4\n",
    "1 4 5 0 1 2 1 -2 1 2 4 3\n2 4 4 0 1 1 2 2 3 5 4\n",
];

const NONE: Elements<'_> = ["", "", ""];

const NAMES: [&str; 3] = ["x.msh", "x.p0.msh", "x.p1.msh"];

/// The words of a job with these options over so many parts and rounds.
fn words_with(
    alloc: Global,
    mesh: &str,
    size: &str,
    parts: u8,
    partition: &str,
    schedule: &str,
    rounds: u8,
) -> Result<Vec<String>, Fail> {
    let line = format!(in alloc;
        "--mesh {mesh} --uniform {size} --parts {parts} --partition {partition} --schedule {schedule} --rounds {rounds} --collapse 0 --swap 0 --out x"
    )?;
    words_in(alloc, line.as_str())
}

/// The words of a job without rounds.
fn words_of(
    alloc: Global,
    mesh: &str,
    parts: u8,
    partition: &str,
    schedule: &str,
) -> Result<Vec<String>, Fail> {
    words_with(alloc, mesh, "4", parts, partition, schedule, 0)
}

/// The files of a run, of whose stores these fail.
fn depot_of(rt: &impl Abort, alloc: Global, stores: &[u64]) -> Result<MemDepot, Fail> {
    let mut files = Vec::new(alloc);
    files.push(named(alloc, "m.msh", MESH)?)?;
    files.push(named(alloc, "apart", "0\n1\n")?)?;
    files.push(named(alloc, "first", "0\n0\n")?)?;
    files.push(named(alloc, "far", "0\n2\n")?)?;
    files.push(named(alloc, "oldest", "")?)?;
    files.push(named(alloc, "second", "0\n1\n0\n")?)?;
    files.push(named(alloc, "ones", "1\n1\n1\n1\n")?)?;
    files.push(named(alloc, "large", "18446744073709551615\n")?)?;
    assert!(rt; names_differ(files.as_slice()));
    let stores = Vec::from_slice(alloc, stores)?;
    Ok(MemDepot::new(alloc, files, Vec::new(alloc), stores))
}

fn run<C: Carrier>(
    rt: &impl Abort,
    alloc: Global,
    words: &[String],
    stores: &[u64],
    carrier: &mut C,
) -> Result<Left, Fail> {
    let mut depot = depot_of(rt, alloc, stores)?;
    let mut sink = MemSink::new(alloc, Vec::new(alloc));
    let status = meshadapt(alloc, words, &mut depot, carrier, &mut sink);
    Ok(Left {
        status,
        depot,
        sink,
    })
}

/// Whether the mesh with these elements is stored under a name, or nothing is if there are none.
fn is_stored(alloc: Global, depot: &MemDepot, name: &str, elements: &str) -> Result<bool, Fail> {
    let text = format!(in alloc; "{NODES}{elements}$EndElements\n")?;
    match depot.bytes_of(name) {
        Some(bytes) => Ok(bytes == text.as_bytes()),
        None => Ok(elements.is_empty()),
    }
}

fn are_stored(alloc: Global, depot: &MemDepot, all: Elements<'_>) -> Result<bool, Fail> {
    for (name, elements) in NAMES.iter().zip(all.iter()) {
        if !is_stored(alloc, depot, name, elements)? {
            return Ok(false);
        }
    }
    Ok(true)
}

/// Whether a run over two parts, each with one of the tetrahedra, ends so, of whose stores these fail.
fn leaves<C: Carrier>(
    rt: &impl Abort,
    alloc: Global,
    schedule: &str,
    stores: &[u64],
    carrier: &mut C,
    ended: (u8, &str),
    all: Elements<'_>,
) -> Result<bool, Fail> {
    let words = words_of(alloc, "m.msh", 2, "apart", schedule)?;
    let left = run(rt, alloc, words.as_slice(), stores, carrier)?;
    let printed = format!(in alloc; "mesh: tets 2 nodes 5 marks 0 loose 0\n{}\n", ended.1)?;
    Ok(
        left.status.code() == ended.0
            && left.sink.bytes() == printed.as_bytes()
            && are_stored(alloc, &left.depot, all)?,
    )
}

/// A carrier whose takes of these numbers fail.
fn queue(alloc: Global, takes: &[u64]) -> Result<QueueCarrier, Fail> {
    let takes = Vec::from_slice(alloc, takes)?;
    Ok(QueueCarrier::new(alloc, Vec::new(alloc), takes))
}

/// The same over a carrier that alters the letter of this number.
fn leaves_altered(
    rt: &impl Abort,
    alloc: Global,
    number: u64,
    change: Change,
    ended: (u8, &str),
    all: Elements<'_>,
) -> Result<bool, Fail> {
    let mut carrier = TestCarrier::new(queue(alloc, &[])?, number, change);
    leaves(rt, alloc, "oldest", &[], &mut carrier, ended, all)
}

const DONE: (u8, &str) = (0, "done: parts 2 letters 6");

#[test]
fn each_part_stores_its_own_tetrahedron_and_the_ghost_beside_it_in_any_order_of_letters(
    rt: HostRuntime,
) -> Result<(), Fail> {
    for schedule in ["oldest", "second", "ones", "large"] {
        let mut carrier = queue(rt.alloc(), &[])?;
        assert!(rt;
            leaves(&rt, rt.alloc(), schedule, &[], &mut carrier, DONE, ALL)?,
            "{schedule}"
        );
    }
    Ok(())
}

// The letter of number 5 gives the second part its ghost, whose tag is at byte 70.
#[test]
fn a_ghost_that_is_altered_on_its_way_is_seen_by_its_part_and_not_in_the_whole(
    rt: HostRuntime,
) -> Result<(), Fail> {
    let [whole, first, _] = ALL;
    let altered = [
        whole,
        first,
        "1 4 5 7 1 2 1 -2 1 2 4 3\n2 4 4 0 1 1 2 2 3 5 4\n",
    ];
    let change = Change::Byte {
        place: 70,
        value: 7,
    };
    assert!(rt; leaves_altered(&rt, rt.alloc(), 5, change, DONE, altered)?);
    Ok(())
}

#[test]
fn a_letter_without_its_last_byte_ends_the_run(rt: HostRuntime) -> Result<(), Fail> {
    let ended = (8, "bad letter: 66 bytes");
    assert!(rt; leaves_altered(&rt, rt.alloc(), 1, Change::Cut, ended, NONE)?);
    Ok(())
}

#[test]
fn a_letter_that_is_lost_starves_the_first_part(rt: HostRuntime) -> Result<(), Fail> {
    let ended = (9, "starved: part 0 phase 1");
    assert!(rt; leaves_altered(&rt, rt.alloc(), 1, Change::Lose, ended, NONE)?);
    Ok(())
}

#[test]
fn a_take_that_fails_is_a_link_fault(rt: HostRuntime) -> Result<(), Fail> {
    let mut carrier = queue(rt.alloc(), &[3])?;
    let ended = (7, "link fault");
    assert!(rt; leaves(&rt, rt.alloc(), "oldest", &[], &mut carrier, ended, NONE)?);
    Ok(())
}

#[test]
fn the_files_before_a_store_that_fails_are_whole(rt: HostRuntime) -> Result<(), Fail> {
    let mut carrier = queue(rt.alloc(), &[])?;
    let [whole, first, _] = ALL;
    let ended = (3, "write fault: x.p1.msh");
    assert!(rt;
        leaves(
            &rt,
            rt.alloc(),
            "oldest",
            &[3],
            &mut carrier,
            ended,
            [whole, first, ""]
        )?
    );
    Ok(())
}

/// Whether a run over two parts is refused for this.
fn is_refused(
    rt: &impl Abort,
    alloc: Global,
    mesh: &str,
    partition: &str,
    reason: &str,
) -> Result<bool, Fail> {
    let words = words_of(alloc, mesh, 2, partition, "oldest")?;
    let mut carrier = queue(alloc, &[])?;
    let left = run(rt, alloc, words.as_slice(), &[], &mut carrier)?;
    let printed = format!(in alloc; "refused: {reason}\n")?;
    Ok(
        left.status.code() == 4
            && left.sink.bytes() == printed.as_bytes()
            && are_stored(alloc, &left.depot, NONE)?
            && carrier.waiting() == 0,
    )
}

#[test]
fn nothing_is_posted_for_a_job_that_is_refused(rt: HostRuntime) -> Result<(), Fail> {
    assert!(rt; is_refused(&rt, rt.alloc(), "n.msh", "apart", "mesh: missing")?);
    assert!(rt;
        is_refused(
            &rt,
            rt.alloc(),
            "m.msh",
            "far",
            "partition line 2: part too big"
        )?
    );
    Ok(())
}

/// The file of a part without tetrahedra.
pub const EMPTY: &str =
    "$MeshFormat\n2.2 0 8\n$EndMeshFormat\n$Nodes\n0\n$EndNodes\n$Elements\n0\n$EndElements\n";

#[test]
fn a_part_without_tetrahedra_sees_none(rt: HostRuntime) -> Result<(), Fail> {
    let words = words_of(rt.alloc(), "m.msh", 2, "first", "oldest")?;
    let mut carrier = queue(rt.alloc(), &[])?;
    let left = run(&rt, rt.alloc(), words.as_slice(), &[], &mut carrier)?;
    let [whole, ..] = ALL;
    assert!(rt; is_stored(rt.alloc(), &left.depot, "x.msh", whole)?);
    assert!(rt; left.depot.bytes_of("x.p1.msh") == Some(EMPTY.as_bytes()));
    Ok(())
}

// One part sends no letter.
#[test]
fn one_part_takes_nothing_from_its_carrier(rt: HostRuntime) -> Result<(), Fail> {
    let words = words_of(rt.alloc(), "m.msh", 1, "first", "oldest")?;
    let mut carrier = queue(rt.alloc(), &[1])?;
    let left = run(&rt, rt.alloc(), words.as_slice(), &[], &mut carrier)?;
    let lines = "mesh: tets 2 nodes 5 marks 0 loose 0\ndone: parts 1 letters 0\n";
    assert!(rt; left.status.code() == 0 && left.sink.bytes() == lines.as_bytes());
    Ok(())
}

/// A run of this size and so many rounds without parts.
fn run_plainly(rt: &impl Abort, alloc: Global, size: &str, rounds: u8) -> Result<Left, Fail> {
    let line = format!(in alloc;
        "--plain --mesh m.msh --uniform {size} --rounds {rounds} --collapse 0 --swap 0 --out x"
    )?;
    let words = words_in(alloc, line.as_str())?;
    let mut carrier = queue(alloc, &[])?;
    run(rt, alloc, words.as_slice(), &[], &mut carrier)
}

/// A run over two parts.
fn run_divided(
    rt: &impl Abort,
    alloc: Global,
    size: &str,
    partition: &str,
    schedule: &str,
    rounds: u8,
) -> Result<Left, Fail> {
    let words = words_with(alloc, "m.msh", size, 2, partition, schedule, rounds)?;
    let mut carrier = queue(alloc, &[])?;
    run(rt, alloc, words.as_slice(), &[], &mut carrier)
}

/// Whether a run over parts printed what a run without parts did, but for this last line, and stored
/// the same mesh.
fn is_as_plain(left: &Left, plain: &Left, last: &str) -> bool {
    let lines = left.sink.bytes().strip_suffix(last.as_bytes());
    let bytes = left.depot.bytes_of("x.msh");
    left.status.code() == 0
        && lines.is_some()
        && lines == plain.sink.bytes().strip_suffix(b"done: plain\n")
        && bytes.is_some()
        && bytes == plain.depot.bytes_of("x.msh")
}

/// Whether two runs printed the same and stored the same.
fn are_alike(left: &Left, other: &Left) -> bool {
    left.sink.bytes() == other.sink.bytes()
        && NAMES.iter().all(|name| left.depot.bytes_of(name) == other.depot.bytes_of(name))
}

/// Whether a round of this size over two parts makes what one makes without parts, in any order of letters.
fn is_the_same_in_any_order(rt: &impl Abort, alloc: Global, size: &str) -> Result<bool, Fail> {
    let plain = run_plainly(rt, alloc, size, 1)?;
    let left = run_divided(rt, alloc, size, "apart", "oldest", 1)?;
    for schedule in ["second", "ones", "large"] {
        let other = run_divided(rt, alloc, size, "apart", schedule, 1)?;
        if !are_alike(&left, &other) {
            return Ok(false);
        }
    }
    Ok(is_as_plain(&left, &plain, "done: parts 2 letters 12\n"))
}

// A size of 4 bisects all edges, and one of 10 the diagonals alone.
#[test]
fn a_round_over_two_parts_makes_the_mesh_that_one_makes_in_any_order_of_letters(
    rt: HostRuntime,
) -> Result<(), Fail> {
    assert!(rt; is_the_same_in_any_order(&rt, rt.alloc(), "4")?);
    assert!(rt; is_the_same_in_any_order(&rt, rt.alloc(), "10")?);
    Ok(())
}

#[test]
fn three_rounds_over_two_parts_make_the_mesh_that_one_makes(rt: HostRuntime) -> Result<(), Fail> {
    let plain = run_plainly(&rt, rt.alloc(), "3", 3)?;
    let left = run_divided(&rt, rt.alloc(), "3", "apart", "second", 3)?;
    assert!(rt; is_as_plain(&left, &plain, "done: parts 2 letters 24\n"));
    Ok(())
}

#[test]
fn a_part_without_tetrahedra_goes_through_a_round(rt: HostRuntime) -> Result<(), Fail> {
    let plain = run_plainly(&rt, rt.alloc(), "4", 1)?;
    let left = run_divided(&rt, rt.alloc(), "4", "first", "ones", 1)?;
    assert!(rt; is_as_plain(&left, &plain, "done: parts 2 letters 12\n"));
    assert!(rt; left.depot.bytes_of("x.p1.msh") == Some(EMPTY.as_bytes()));
    Ok(())
}

/// Whether a run of one round over two parts whose letter of this number is lost ends so.
fn starves_at(rt: &impl Abort, alloc: Global, number: u64, lines: &str) -> Result<bool, Fail> {
    let words = words_with(alloc, "m.msh", "4", 2, "apart", "oldest", 1)?;
    let mut carrier = TestCarrier::new(queue(alloc, &[])?, number, Change::Lose);
    let left = run(rt, alloc, words.as_slice(), &[], &mut carrier)?;
    Ok(
        left.status.code() == 9
            && left.sink.bytes() == lines.as_bytes()
            && left.depot.bytes_of("x.msh").is_none(),
    )
}

// Round 0 takes the first six letters.
#[test]
fn a_letter_that_is_lost_in_round_1_leaves_no_line_of_it(rt: HostRuntime) -> Result<(), Fail> {
    let lines = "mesh: tets 2 nodes 5 marks 0 loose 0\nstarved: part 0 phase 0\n";
    assert!(rt; starves_at(&rt, rt.alloc(), 8, lines)?);
    Ok(())
}
