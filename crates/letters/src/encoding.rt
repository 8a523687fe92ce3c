// Letters as they are spelled.
ghost use Rattle.std.specs.Prelude.{◌≡◌, ◌++◌, true, IfOk, OnOk};
ghost use Rattle.letters.specs.Bodies.{batch, body_of, kind, kind_number, kind_of, list_of, operations, post, reply};
ghost use Rattle.letters.specs.Entries.{mark, mark_before, operation, operation_before, shared, tet, tet_before};
ghost use Rattle.letters.specs.Fields.{place, place_before};
ghost use Rattle.letters.specs.Grammar.{number};
ghost use Rattle.letters.specs.Letters.{IsLetter, head_spelling, spelling};

use crate::letter::{Body, Letter, Post, Reply};
use crate::lists::put_list;
use crate::spelling::{put_byte, put_word};
use cavity_rank::Operation;
use ma_cells::{Ascending, Batch, Mark, Tet};
use ma_geom::{Memory, Place};
use std::alloc::Global;

fn put_places(out: &mut Vec<u8>, places: &Ascending<Place>) -> Result<(), Memory>
    ensures text { OnOk result (out.new.items ≡ out.old.items ++ (list_of place_before place).spelling places.now) }
    ensures fits { OnOk result ((list_of place_before place).fits places.now ≡ true) }
{
    put_list(out, places.as_slice())
}

fn put_marks(out: &mut Vec<u8>, marks: &Ascending<Mark>) -> Result<(), Memory>
    ensures text { OnOk result (out.new.items ≡ out.old.items ++ (list_of mark_before mark).spelling marks.now) }
    ensures fits { OnOk result ((list_of mark_before mark).fits marks.now ≡ true) }
{
    put_list(out, marks.as_slice())
}

fn put_tets(out: &mut Vec<u8>, tets: &Ascending<Tet>) -> Result<(), Memory>
    ensures text { OnOk result (out.new.items ≡ out.old.items ++ (list_of tet_before tet).spelling tets.now) }
    ensures fits { OnOk result ((list_of tet_before tet).fits tets.now ≡ true) }
{
    put_list(out, tets.as_slice())
}

fn put_operations(out: &mut Vec<u8>, list: &Ascending<Operation>) -> Result<(), Memory>
    ensures text { OnOk result (out.new.items ≡ out.old.items ++ operations.spelling list.now) }
    ensures fits { OnOk result (operations.fits list.now ≡ true) }
{
    put_list(out, list.as_slice())
}

fn put_post(out: &mut Vec<u8>, carried: &Post) -> Result<(), Memory>
    ensures text { OnOk result (out.new.items ≡ out.old.items ++ post.spelling carried.now) }
    ensures fits { OnOk result (post.fits carried.now ≡ true) }
{
    put_word(out, carried.count)?;
    put_places(out, &carried.places)?;
    put_marks(out, &carried.marks)
}

fn put_reply(out: &mut Vec<u8>, carried: &Reply) -> Result<(), Memory>
    ensures text { OnOk result (out.new.items ≡ out.old.items ++ reply.spelling carried.now) }
    ensures fits { OnOk result (reply.fits carried.now ≡ true) }
{
    put_list(out, carried.shared.as_slice())?;
    put_marks(out, &carried.marks)
}

fn put_batch(out: &mut Vec<u8>, carried: &Batch) -> Result<(), Memory>
    ensures text { OnOk result (out.new.items ≡ out.old.items ++ batch.spelling carried.now) }
    ensures fits { OnOk result (batch.fits carried.now ≡ true) }
{
    put_tets(out, &carried.tets)?;
    put_marks(out, &carried.marks)
}

fn number_of(body: &Body) -> u8
    ensures { result ≡ kind_number (kind_of body.now) }
{
    match body {
        Body::Post(_) => 1,
        Body::Reply(_) => 2,
        Body::Ghosts(_) => 3,
        Body::Propose(_) => 4,
        Body::Vote(_) => 5,
        Body::Order(_) => 6,
        Body::Deliver(_) => 7,
    }
}

fn put_body(out: &mut Vec<u8>, body: &Body) -> Result<(), Memory>
    ensures text { OnOk result (out.new.items ≡ out.old.items ++ (body_of (kind_of body.now)).spelling body.now) }
    ensures fits { OnOk result ((body_of (kind_of body.now)).fits body.now ≡ true) }
{
    match body {
        Body::Post(carried) => put_post(out, carried),
        Body::Reply(carried) => put_reply(out, carried),
        Body::Ghosts(carried) | Body::Deliver(carried) => put_batch(out, carried),
        Body::Propose(list) | Body::Vote(list) | Body::Order(list) => put_operations(out, list),
    }
}

/// What stands before the body.
fn put_head(out: &mut Vec<u8>, letter: &Letter) -> Result<(), Memory>
    ensures text { OnOk result (out.new.items ≡ out.old.items ++ head_spelling letter.now) }
    ensures round { OnOk result ((number 4).fits letter.now.round ≡ true) }
    ensures phase { OnOk result ((number 4).fits letter.now.phase ≡ true) }
    ensures sender { OnOk result ((number 1).fits letter.now.sender ≡ true) }
    ensures target { OnOk result ((number 1).fits letter.now.target ≡ true) }
{
    put_byte(out, number_of(&letter.body))?;
    put_word(out, letter.round)?;
    put_word(out, letter.phase)?;
    put_byte(out, letter.sender)?;
    put_byte(out, letter.target)
}

/// The one spelling of a letter. Every letter has one.
pub fn encode(alloc: Global, letter: &Letter) -> Result<Vec<u8>, Memory>
    ensures text { IfOk result (λ bytes. bytes.items ≡ spelling letter.now) }
    ensures letter { OnOk result (IsLetter letter.now) }
{
    let mut out = Vec::new(alloc);
    put_head(&mut out, letter)?;
    put_body(&mut out, &letter.body)?;
    Ok(out)
}
