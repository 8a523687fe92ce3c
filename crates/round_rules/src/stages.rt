// What each phase of a round is for.
ghost use Rattle.std.specs.Prelude.{◌≡◌, ◌≤◌};
ghost use Rattle.round_rules.specs.Stages.{last_phase, pass_kind, passes_before, passes_in, phase_kind};

use cavity_rank::Kind;
use letters::LetterKind;
use part_rules::Course;

/// The kind of the letters of a phase, counted from 0.
pub fn phase_kind(phase: u32) -> LetterKind
    ensures { result ≡ phase_kind phase }
{
    match phase % 7 {
        0 => LetterKind::Post,
        1 => LetterKind::Reply,
        2 => LetterKind::Ghosts,
        3 => LetterKind::Propose,
        4 => LetterKind::Vote,
        5 => LetterKind::Order,
        _ => LetterKind::Deliver,
    }
}

/// How many passes of a round are over before a phase.
pub fn passes_before(phase: u32) -> u32
    ensures { result ≡ passes_before phase }
{
    phase / 7
}

/// The last phase of a round.
pub fn last_phase(course: &Course, round: u32) -> u32
    requires collapses { course.now.collapse ≤ 16 }
    requires swaps { course.now.swap ≤ 16 }
    ensures value { result ≡ last_phase (passes_in course.now round) }
    ensures few { result ≤ 226 }
{
    if round == 0 {
        2
    } else {
        7 * (course.collapse + course.swap) + 2
    }
}

/// What the pass behind so many others does.
pub fn pass_kind(course: &Course, before: u32) -> Kind
    ensures { result ≡ pass_kind course.now before }
{
    if before < course.collapse {
        Kind::Collapse
    } else {
        Kind::Swap
    }
}
