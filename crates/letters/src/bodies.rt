// What letters carry, as it is read.
ghost use Rattle.std.specs.Prelude.{◌≡◌};
ghost use Rattle.letters.specs.Bodies.{batch, body_of, kind, kind_at, list_of, operations, post, reply};
ghost use Rattle.letters.specs.Entries.{mark, mark_before, operation, operation_before, shared, tet, tet_before};
ghost use Rattle.letters.specs.Fields.{place, place_before};
ghost use Rattle.letters.specs.Letters.{Gives};
ghost use Rattle.letters.specs.Sharing.{shared_before};

use crate::fault::LetterFault;
use crate::fields::{between_at, word_at};
use crate::letter::{Body, LetterKind, Post, Reply};
use crate::lists::list_at;
use crate::shared::SharedPlaces;
use cavity_rank::Operation;
use ma_cells::{Ascending, Batch, Mark, Tet};
use ma_geom::Place;
use std::alloc::Global;

fn places_at(
    alloc: Global,
    end: usize,
    bytes: &[u8],
) -> Result<(Ascending<Place>, &[u8]), LetterFault>
    ensures { Gives (λ x. (x.0, x.1.now)) result ((list_of place_before place).reading end bytes.now) }
{
    let (places, rest) = list_at(alloc, end, bytes)?;
    Ok((Ascending::from_vec(places), rest))
}

fn marks_at(
    alloc: Global,
    end: usize,
    bytes: &[u8],
) -> Result<(Ascending<Mark>, &[u8]), LetterFault>
    ensures { Gives (λ x. (x.0, x.1.now)) result ((list_of mark_before mark).reading end bytes.now) }
{
    let (marks, rest) = list_at(alloc, end, bytes)?;
    Ok((Ascending::from_vec(marks), rest))
}

fn tets_at(alloc: Global, end: usize, bytes: &[u8]) -> Result<(Ascending<Tet>, &[u8]), LetterFault>
    ensures { Gives (λ x. (x.0, x.1.now)) result ((list_of tet_before tet).reading end bytes.now) }
{
    let (tets, rest) = list_at(alloc, end, bytes)?;
    Ok((Ascending::from_vec(tets), rest))
}

fn operations_at(
    alloc: Global,
    end: usize,
    bytes: &[u8],
) -> Result<(Ascending<Operation>, &[u8]), LetterFault>
    ensures { Gives (λ x. (x.0, x.1.now)) result (operations.reading end bytes.now) }
{
    let (operations, rest) = list_at(alloc, end, bytes)?;
    Ok((Ascending::from_vec(operations), rest))
}

fn shared_at(alloc: Global, end: usize, bytes: &[u8]) -> Result<(SharedPlaces, &[u8]), LetterFault>
    ensures { Gives (λ x. (x.0, x.1.now)) result ((list_of shared_before shared).reading end bytes.now) }
{
    let (shared, rest) = list_at(alloc, end, bytes)?;
    Ok((SharedPlaces::from_vec(shared), rest))
}

fn post_at(alloc: Global, end: usize, bytes: &[u8]) -> Result<(Post, &[u8]), LetterFault>
    ensures { Gives (λ x. (x.0, x.1.now)) result (post.reading end bytes.now) }
{
    let (count, rest) = word_at(bytes)?;
    let (places, rest) = match places_at(alloc, end, rest) {
        Ok(read) => read,
        Err(fault) => return Err(fault),
    };
    let (marks, rest) = match marks_at(alloc, end, rest) {
        Ok(read) => read,
        Err(fault) => return Err(fault),
    };
    Ok((
        Post {
            count,
            places,
            marks,
        },
        rest,
    ))
}

fn reply_at(alloc: Global, end: usize, bytes: &[u8]) -> Result<(Reply, &[u8]), LetterFault>
    ensures { Gives (λ x. (x.0, x.1.now)) result (reply.reading end bytes.now) }
{
    let (shared, rest) = match shared_at(alloc, end, bytes) {
        Ok(read) => read,
        Err(fault) => return Err(fault),
    };
    let (marks, rest) = match marks_at(alloc, end, rest) {
        Ok(read) => read,
        Err(fault) => return Err(fault),
    };
    Ok((Reply { shared, marks }, rest))
}

fn batch_at(alloc: Global, end: usize, bytes: &[u8]) -> Result<(Batch, &[u8]), LetterFault>
    ensures { Gives (λ x. (x.0, x.1.now)) result (batch.reading end bytes.now) }
{
    let (tets, rest) = match tets_at(alloc, end, bytes) {
        Ok(read) => read,
        Err(fault) => return Err(fault),
    };
    let (marks, rest) = match marks_at(alloc, end, rest) {
        Ok(read) => read,
        Err(fault) => return Err(fault),
    };
    Ok((Batch { tets, marks }, rest))
}

fn kind_from(n: u8) -> LetterKind
    ensures { result ≡ kind_at n }
{
    match n {
        1 => LetterKind::Post,
        2 => LetterKind::Reply,
        3 => LetterKind::Ghosts,
        4 => LetterKind::Propose,
        5 => LetterKind::Vote,
        6 => LetterKind::Order,
        _ => LetterKind::Deliver,
    }
}

pub(crate) fn kind_of_letter(end: usize, bytes: &[u8]) -> Result<(LetterKind, &[u8]), LetterFault>
    ensures { Gives (λ x. (x.0, x.1.now)) result (kind.reading end bytes.now) }
{
    let (n, rest) = between_at(1, 7, end, bytes)?;
    Ok((kind_from(n), rest))
}

pub(crate) fn body_at(
    alloc: Global,
    kind: LetterKind,
    end: usize,
    bytes: &[u8],
) -> Result<(Body, &[u8]), LetterFault>
    ensures { Gives (λ x. (x.0, x.1.now)) result ((body_of kind).reading end bytes.now) }
{
    match kind {
        LetterKind::Post => match post_at(alloc, end, bytes) {
            Ok((post, rest)) => Ok((Body::Post(post), rest)),
            Err(fault) => Err(fault),
        },
        LetterKind::Reply => match reply_at(alloc, end, bytes) {
            Ok((reply, rest)) => Ok((Body::Reply(reply), rest)),
            Err(fault) => Err(fault),
        },
        LetterKind::Ghosts => match batch_at(alloc, end, bytes) {
            Ok((batch, rest)) => Ok((Body::Ghosts(batch), rest)),
            Err(fault) => Err(fault),
        },
        LetterKind::Propose => match operations_at(alloc, end, bytes) {
            Ok((operations, rest)) => Ok((Body::Propose(operations), rest)),
            Err(fault) => Err(fault),
        },
        LetterKind::Vote => match operations_at(alloc, end, bytes) {
            Ok((operations, rest)) => Ok((Body::Vote(operations), rest)),
            Err(fault) => Err(fault),
        },
        LetterKind::Order => match operations_at(alloc, end, bytes) {
            Ok((operations, rest)) => Ok((Body::Order(operations), rest)),
            Err(fault) => Err(fault),
        },
        LetterKind::Deliver => match batch_at(alloc, end, bytes) {
            Ok((batch, rest)) => Ok((Body::Deliver(batch), rest)),
            Err(fault) => Err(fault),
        },
    }
}
