// Files that were written by hand.
use super::*;
use arrayvec::ArrayVec;
use ma_geom::Place;
use std::alloc::{AllocError, Global};
use std::process::Abort;
use std::test::Fail;

/// Four nodes and their tetrahedron, in lines 1 to 14.
const FOUR: &str =
    "$MeshFormat\n2.2 0 8\n$EndMeshFormat\n$Nodes\n4\n1 0 0 0\n2 8 0 0\n3 0 8 0\n4 0 0 8\n$EndNodes\n$Elements\n1\n1 4 2 0 1 1 2 3 4\n$EndElements\n";

/// All that a file may have: other sections, blank lines, tabs, carriage returns, names, and elements
/// of each type with fewer and with more tags than two.
const ALL: &[u8] =
    b"$Comments\r\n$Nodes\r\n$EndComments\r\n\r\n\t$MeshFormat\r\n2.2\t0 8\r\n$EndMeshFormat\r\n$PhysicalNames\r\n4\r\n3 7 \"b \xff\"\r\n  2\t-5   \"\"\t\r\n3 +7 \"a\"\r\n03 7 \"b \xff\"\r\n$EndPhysicalNames\r\n$Nodes\r\n4\r\n20 0 0 0\r\n10 8 0 8.000\r\n 5 0. +8 0\r\n2147483647 -0 1073741824 -1073741824\r\n$EndNodes \r\n$Elements\r\n5\r\n1 15 0 10\r\n1 1 1 9 5 20\r\n3 2 3 -1 2147483647 4 5 10 20\r\n4 4 2 0 1 2147483647 5 10 20\r\n5 4 0 20 10 5 2147483647\r\n$EndElements\r\n$Other\r\n$EndOther";

fn coordinates(alloc: Global, nodes: &[Place]) -> Result<Vec<[i32; 3]>, AllocError> {
    nodes
        .iter()
        .map(|node| [node.x(), node.y(), node.z()])
        .collect(alloc)
}

#[test]
fn numbers_of_nodes_become_positions(rt: HostRuntime) -> Result<(), Fail> {
    let mesh = read_msh(rt.alloc(), ALL)?;
    let nodes = coordinates(rt.alloc(), mesh.nodes.as_slice())?;
    let most = 1 << 30;
    assert!(rt; nodes.as_slice() == [[0, 0, 0], [8, 0, 8], [0, 8, 0], [0, most, -most]].as_slice());
    let first = RawTet {
        at: [3, 2, 1, 0],
        phys: 0,
        elem: 1,
    };
    let second = RawTet {
        at: [0, 1, 2, 3],
        phys: 0,
        elem: 0,
    };
    assert!(rt; mesh.tets.as_slice() == [first, second].as_slice());
    Ok(())
}

fn mark(at: &[u32], phys: i32, elem: i32) -> Result<RawMark, Fail> {
    let at = ArrayVec::try_from(at)?;
    Ok(RawMark { at, phys, elem })
}

#[test]
fn marks_have_the_first_two_tags(rt: HostRuntime) -> Result<(), Fail> {
    let mesh = read_msh(rt.alloc(), ALL)?;
    let marks = [
        mark(&[1], 0, 0)?,
        mark(&[2, 0], 9, 0)?,
        mark(&[2, 1, 0], -1, i32::MAX)?,
    ];
    assert!(rt; mesh.marks.as_slice() == marks.as_slice());
    Ok(())
}

fn name(alloc: Global, dimension: u8, number: i32, text: &[u8]) -> Result<Name, Fail> {
    let text = Vec::from_slice(alloc, text)?;
    Ok(Name {
        dimension,
        number,
        text,
    })
}

#[test]
fn names_are_a_set(rt: HostRuntime) -> Result<(), Fail> {
    let mesh = read_msh(rt.alloc(), ALL)?;
    let names = [
        name(rt.alloc(), 2, -5, b"")?,
        name(rt.alloc(), 3, 7, b"a")?,
        name(rt.alloc(), 3, 7, b"b \xff")?,
    ];
    assert!(rt; mesh.names.as_slice() == names.as_slice());
    Ok(())
}

/// Tests the fault of a file.
fn expect(rt: &impl Abort, alloc: Global, file: &[u8], line: u64, kind: MshKind) {
    let fault = read_msh(alloc, file).err();
    assert!(rt;
        fault == Some(MshFault::At { line, kind }),
        "line {line}: {kind:?}"
    );
}

#[test]
fn a_file_without_one_of_its_sections(rt: HostRuntime) {
    let files: [(&[u8], u64, MshKind); 5] = [
        (b"", 1, MshKind::NoFormat),
        (b"\n\n$Elements\n", 3, MshKind::NoFormat),
        (b"$MeshFormat\n2.2 0 8\n", 3, MshKind::Truncated),
        (
            b"$MeshFormat\n2.2 0 8\n$EndMeshFormat\n \n",
            5,
            MshKind::NoNodes,
        ),
        (
            b"$MeshFormat\n2.2 0 8\n$EndMeshFormat\n$Nodes\n1\n1 0 0 0\n$EndNodes",
            8,
            MshKind::NoElements,
        ),
    ];
    for (file, line, kind) in files {
        expect(&rt, rt.alloc(), file, line, kind);
    }
}

/// Tests the fault of the four nodes' file with other text in place of one part.
fn expect_altered(
    rt: &impl Abort,
    alloc: Global,
    part: &str,
    text: &str,
    line: u64,
    kind: MshKind,
) -> Result<(), Fail> {
    let (before, after) = FOUR.split_once(part).ok_or("the part is not there")?;
    let file = format!(in alloc; "{before}{text}{after}")?;
    expect(rt, alloc, file.as_bytes(), line, kind);
    Ok(())
}

#[test]
fn a_section_that_is_wrong(rt: HostRuntime) -> Result<(), Fail> {
    let alterations = [
        ("2.2 0 8", "4.1 1 8", 2, MshKind::OtherVersion),
        ("2.2 0 8", "2.2 1 4", 2, MshKind::Binary),
        ("$Nodes", "$Elements", 4, MshKind::NoNodes),
        ("$Elements", "$Nodes", 11, MshKind::BadLine),
        ("4\n1 0", "0\n1 0", 5, MshKind::NoNodes),
        ("4\n1 0", "\n5\n1 0", 11, MshKind::BadCount),
        ("4\n1 0", "3\n1 0", 9, MshKind::BadCount),
        ("1\n1 4", "0\n1 4", 12, MshKind::NoElements),
        ("$EndElements\n", "", 14, MshKind::Truncated),
        ("$EndElements", "$EndElements\n1", 15, MshKind::BadLine),
    ];
    for (part, text, line, kind) in alterations {
        expect_altered(&rt, rt.alloc(), part, text, line, kind)?;
    }
    Ok(())
}

#[test]
fn an_entry_that_is_wrong(rt: HostRuntime) -> Result<(), Fail> {
    let alterations = [
        ("2 8 0 0", "0 8.5 0 0", 7, MshKind::BadLine),
        ("2 8 0 0", "+01 8.5 0 0", 7, MshKind::NodeTwice),
        ("2 8 0 0", "2 8.001 1073741825 0", 7, MshKind::NotWhole),
        ("2 8 0 0", "2 1073741825 0.5 0", 7, MshKind::OutOfRange),
        ("1 4 2", "1 5 2", 13, MshKind::OtherKind(5)),
        ("1 4 2", "1 11 2", 13, MshKind::OtherKind(11)),
        ("1 2 3 4", "1 1 3 5", 13, MshKind::NoSuchNode),
        ("1 2 3 4", "1 2 3 3", 13, MshKind::BadLine),
        ("0 1 1 2", "0 2147483648 1 2", 13, MshKind::BadLine),
        (
            "$Nodes",
            "$PhysicalNames\n1\n4 1 \"a\"\n",
            6,
            MshKind::BadLine,
        ),
    ];
    for (part, text, line, kind) in alterations {
        expect_altered(&rt, rt.alloc(), part, text, line, kind)?;
    }
    Ok(())
}
