// Files that were read by hand.
use super::*;
use carrier::Schedule;
use ma_geom::Place;
use size_marks::SizeField;
use std::alloc::Global;
use std::test::Fail;

/// The fault that was told, and want of memory where there was none.
fn fault<T: Drop>(read: Result<T, JobFault>) -> JobFault {
    match read {
        Ok(_) => JobFault::Memory,
        Err(fault) => fault,
    }
}

fn size_fault(alloc: Global, bytes: &[u8]) -> JobFault {
    fault(read_size(alloc, bytes))
}

fn part_fault(alloc: Global, bytes: &[u8]) -> JobFault {
    fault(read_partition(alloc, bytes, 2, 2))
}

fn pick_fault(alloc: Global, bytes: &[u8]) -> JobFault {
    fault(read_schedule(alloc, bytes))
}

/// The sizes at 0, 4 and 8 on the x axis.
fn sizes(field: &SizeField) -> [u32; 3] {
    let size = |x: i32| match Place::new(x, 0, 0) {
        Some(place) => field.size_at(place),
        None => 0,
    };
    [size(0), size(4), size(8)]
}

#[test]
fn the_later_box_decides_and_a_turned_one_never_does(rt: HostRuntime) -> Result<(), Fail> {
    let plain = b"default 64\nbox 0 0 0 0 0 0 4\n";
    assert!(rt; sizes(&read_size(rt.alloc(), plain)?) == [4, 64, 64]);
    let boxes =
        b"\n\tdefault +9\r\nbox -1 0 -0 4 0 0 3\n \t\nbox\t4 0 0 8 00 0 5\nbox 8 0 0 0 0 0 7";
    assert!(rt; sizes(&read_size(rt.alloc(), boxes)?) == [3, 5, 5]);
    Ok(())
}

#[test]
fn the_first_line_of_a_size_file_that_is_wrong_is_told(rt: HostRuntime) {
    assert_eq!(rt; size_fault(rt.alloc(), b""), JobFault::BadLine(1));
    assert_eq!(rt; size_fault(rt.alloc(), b" \n\t\n"), JobFault::BadLine(1));
    assert_eq!(rt;
        size_fault(rt.alloc(), b"default 0"),
        JobFault::SizeOutOfRange(1)
    );
    assert_eq!(rt;
        size_fault(rt.alloc(), b"default 1073741825"),
        JobFault::SizeOutOfRange(1)
    );
    assert_eq!(rt;
        size_fault(rt.alloc(), b"\ndefault -99999999999999999999"),
        JobFault::SizeOutOfRange(2)
    );
    assert_eq!(rt;
        size_fault(rt.alloc(), b"default 4.0"),
        JobFault::BadLine(1)
    );
    assert_eq!(rt;
        size_fault(rt.alloc(), b"box 0 0 0 1 1 1 4"),
        JobFault::BadLine(1)
    );
}

#[test]
fn a_wrong_word_of_a_box_comes_before_its_size(rt: HostRuntime) {
    assert_eq!(rt;
        size_fault(rt.alloc(), b"default 4\nbox 0 0 0 1 1 1 0\nbox"),
        JobFault::SizeOutOfRange(2)
    );
    assert_eq!(rt;
        size_fault(rt.alloc(), b"default 4\nbox 0 0 0 1 1 1073741825 0"),
        JobFault::BadLine(2)
    );
    assert_eq!(rt;
        size_fault(rt.alloc(), b"default 4\nbox 0 0 0 1 1 x 0"),
        JobFault::BadLine(2)
    );
    assert_eq!(rt;
        size_fault(rt.alloc(), b"default 4\nbox 0 0 0 1 1 1 4 4"),
        JobFault::BadLine(2)
    );
}

/// A default, 10,000 boxes and one more line.
fn many_boxes(alloc: Global, last: &[u8]) -> Result<JobFault, Fail> {
    let mut bytes = Vec::from_slice(alloc, b"default 4\n")?;
    for _ in 0..10_000 {
        bytes.extend_from_slice(b"box 0 0 0 1 1 1 5\n")?;
    }
    bytes.extend_from_slice(last)?;
    Ok(size_fault(alloc, &bytes))
}

#[test]
fn ten_thousand_boxes_are_taken_and_no_more(rt: HostRuntime) -> Result<(), Fail> {
    assert_eq!(rt; many_boxes(rt.alloc(), b"")?, JobFault::Memory);
    assert_eq!(rt;
        many_boxes(rt.alloc(), b"box x")?,
        JobFault::TooManyBoxes(10_002)
    );
    assert_eq!(rt;
        many_boxes(rt.alloc(), b"boxes")?,
        JobFault::BadLine(10_002)
    );
    Ok(())
}

#[test]
fn a_partition_has_a_part_for_each_tetrahedron(rt: HostRuntime) -> Result<(), Fail> {
    let parts = read_partition(rt.alloc(), b"-0\r\n\n +1", 2, 2)?;
    assert!(rt; parts.as_slice() == [0, 1].as_slice());
    assert_eq!(rt; part_fault(rt.alloc(), b"0\n2\n"), JobFault::PartTooBig(2));
    assert_eq!(rt;
        part_fault(rt.alloc(), b"0\n99999999999999999999\n"),
        JobFault::PartTooBig(2)
    );
    assert_eq!(rt; part_fault(rt.alloc(), b"0\n-1\n"), JobFault::BadLine(2));
    assert_eq!(rt; part_fault(rt.alloc(), b"0 1\n"), JobFault::BadLine(1));
    assert_eq!(rt; part_fault(rt.alloc(), b"0\n"), JobFault::WrongCount(1, 2));
    assert_eq!(rt;
        part_fault(rt.alloc(), b"0\n1\n0\n"),
        JobFault::WrongCount(3, 2)
    );
    Ok(())
}

/// The first three picks.
fn three(mut schedule: Schedule) -> [u64; 3] {
    [
        schedule.next_pick(),
        schedule.next_pick(),
        schedule.next_pick(),
    ]
}

#[test]
fn a_schedule_has_picks_of_64_bits_or_none(rt: HostRuntime) -> Result<(), Fail> {
    assert!(rt;
        three(read_schedule(rt.alloc(), b"18446744073709551615\n\n+7")?) == [u64::MAX, 7, 0]
    );
    assert!(rt; three(read_schedule(rt.alloc(), b"")?) == [0, 0, 0]);
    assert_eq!(rt; pick_fault(rt.alloc(), b"x"), JobFault::BadLine(1));
    assert_eq!(rt;
        pick_fault(rt.alloc(), b"1\n18446744073709551616"),
        JobFault::BadLine(2)
    );
    assert_eq!(rt; pick_fault(rt.alloc(), b"1\n-1"), JobFault::BadLine(2));
    Ok(())
}
