// The kinds of bodies.
ghost use Rattle.std.specs.Prelude.{◌≡◌};
ghost use Rattle.round_rules.specs.Bodies.{is_of_kind};

use letters::{Body, LetterKind};

/// Whether a body is of a kind. Takes no memory.
pub fn is_of_kind(kind: LetterKind, body: &Body) -> bool
    ensures { result ≡ is_of_kind kind body.now }
{
    match (kind, body) {
        (LetterKind::Post, Body::Post(_)) => true,
        (LetterKind::Reply, Body::Reply(_)) => true,
        (LetterKind::Ghosts, Body::Ghosts(_)) => true,
        (LetterKind::Propose, Body::Propose(_)) => true,
        (LetterKind::Vote, Body::Vote(_)) => true,
        (LetterKind::Order, Body::Order(_)) => true,
        (LetterKind::Deliver, Body::Deliver(_)) => true,
        _ => false,
    }
}
