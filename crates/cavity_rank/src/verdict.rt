// What is said of an operation.
ghost use Rattle.std.specs.Prelude.{◌≡◌};
ghost use Rattle.cavity_rank.specs.Verdicts.{verdict_of};

/// Which operations a pass makes: collapses of edges, or swaps of edges and faces.
#[derive(Clone, Copy, Debug, PartialEq, Eq)]
pub enum Kind {
    Collapse,
    Swap,
}

/// Whether an operation is legal: the least quality of the tetrahedra that fill its cavity, or the
/// number, from 1, of the first test that it fails.
#[derive(Clone, Copy, Debug, PartialEq, Eq)]
pub enum Verdict {
    Legal { worst: u32 },
    Illegal(u8),
}

/// The verdict from the number of the first test that fails, if one does. Takes no memory.
pub fn verdict_of(worst: u32, failing: Option<u8>) -> Verdict
    ensures { result ≡ verdict_of worst failing }
{
    match failing {
        Some(number) => Verdict::Illegal(number),
        None => Verdict::Legal { worst },
    }
}
