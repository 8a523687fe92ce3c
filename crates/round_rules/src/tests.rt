// Phases whose kind and pass were counted by hand.
ghost use Rattle.std.specs.Prelude.{◌≡◌};

use crate::{is_of_kind, last_phase, pass_kind, passes_before, phase_kind};
use cavity_rank::Kind;
use letters::{Body, LetterKind};
use ma_cells::Ascending;
use part_rules::Course;
use size_marks::SizeField;
use std::alloc::Global;

/// Two passes of collapses and one of swaps in each round.
fn course(alloc: Global) -> Course
    ensures collapses { result.collapse ≡ 2 }
    ensures swaps { result.swap ≡ 1 }
{
    Course {
        parts: 2,
        grid: 3,
        collapse: 2,
        swap: 1,
        field: SizeField::uniform(alloc, 8),
    }
}

#[test]
fn the_deliveries_of_the_second_pass_come_in_phase_13(rt: HostRuntime) {
    assert!(rt; phase_kind(13) == LetterKind::Deliver);
    assert!(rt; passes_before(13) == 1);
}

#[test]
fn what_the_second_pass_leaves_is_posted_in_phase_14(rt: HostRuntime) {
    assert!(rt; phase_kind(14) == LetterKind::Post);
    assert!(rt; passes_before(14) == 2);
}

#[test]
fn three_passes_end_with_the_ghosts_of_phase_23(rt: HostRuntime) {
    assert!(rt; last_phase(&course(rt.alloc()), 1) == 23);
    assert!(rt; last_phase(&course(rt.alloc()), 0) == 2);
}

#[test]
fn collapses_come_before_swaps(rt: HostRuntime) {
    assert!(rt; pass_kind(&course(rt.alloc()), 1) == Kind::Collapse);
    assert!(rt; pass_kind(&course(rt.alloc()), 2) == Kind::Swap);
}

#[test]
fn votes_are_no_proposals(rt: HostRuntime) {
    let body = Body::Vote(Ascending::new(rt.alloc()));
    assert!(rt; is_of_kind(LetterKind::Vote, &body));
    assert!(rt; !is_of_kind(LetterKind::Propose, &body));
}
