//! Letters that wait, kept in blocks, so that one is taken out of many without moving the others.
//!
//! Of n letters a take walks over the lengths of about n / 1,024 blocks and moves the handles of at
//! most 1,023 letters. A block that is empty is removed.
ghost use Rattle.std.specs.Prelude.{◌≡◌, ◌+◌, ◌<◌, ◌^◌, ◌∷◌, ◌++◌, [], IfOk, OnErr, OnOk, length, slice_index_or, slice_set};
ghost use Rattle.std.specs.List.{remove};
ghost use Rattle.carrier.specs.steps.Kept.{IsAt, all_of};

use std::alloc::{AllocError, Global};
use std::marker::Model;

/// A letter that waits, and its number among the posted ones.
#[derive(Debug, Drop)]
pub struct Waiting {
    number: usize,
    bytes: Vec<u8>,
}

impl Model for Waiting {
    ghost use Rattle.carrier.specs.steps.Kept.{Kept};

    ghost Value = { Kept };

    ghost view = { λ w. record { number = w.number; bytes = w.bytes.items } };
}

impl Waiting {
    pub fn new(number: usize, bytes: Vec<u8>) -> Waiting
        ensures { result ≡ record { number = number; bytes = bytes.items } }
    {
        Waiting { number, bytes }
    }

    pub fn into_parts(self) -> (usize, Vec<u8>)
        ensures number { result.0 ≡ self.number }
        ensures bytes { result.1.items ≡ self.bytes }
    {
        let Waiting { number, bytes } = self;
        (number, bytes)
    }
}

/// Some letters that wait one behind the other.
#[derive(Debug, Drop)]
struct Block {
    letters: Vec<Waiting>,
}

impl Model for Block {
    ghost use Rattle.std.specs.Prelude.{List};
    ghost use Rattle.carrier.specs.steps.Kept.{Kept};

    ghost Value = { List Kept };

    ghost view = { λ b. b.letters.items };
}

impl Block {
    fn of(alloc: Global, waiting: Waiting) -> Result<Block, AllocError>
        ensures { IfOk result (λ block. block ≡ waiting ∷ []) }
    {
        let mut letters = Vec::new(alloc);
        letters.push(waiting)?;
        Ok(Block { letters })
    }

    fn len(&self) -> usize
        ensures { result ≡ length self.now }
    {
        self.letters.len()
    }

    fn push(&mut self, waiting: Waiting) -> Result<(), AllocError>
        ensures done { OnOk result (self.new ≡ self.old ++ waiting ∷ []) }
        ensures memory { OnErr result (self.new ≡ self.old) }
    {
        self.letters.push(waiting)?;
        Ok(())
    }

    fn remove(&mut self, place: usize) -> Waiting
        requires { place < length self.old }
        ensures letter { result ≡ slice_index_or self.old place result }
        ensures rest { self.new ≡ remove self.old place }
    {
        self.letters.remove(place)
    }
}

/// The letters that wait, from the oldest on.
#[derive(Debug, Drop)]
pub struct WaitingLetters {
    blocks: Vec<Block>,
    count: usize,
}

impl Model for WaitingLetters {
    ghost use Rattle.std.specs.Prelude.{◌≡◌, List, length};
    ghost use Rattle.carrier.specs.steps.Kept.{Kept, all_of};

    ghost Value = { List Kept };

    ghost view = { λ l. all_of l.blocks.items };

    ghost invariant = { λ l. l.count ≡ length (all_of l.blocks.items) };
}

/// How many letters a block has at most.
const BLOCK: usize = 1024;

/// Puts a letter behind all others: into the last block, or into one of its own where that is full.
fn push_into(alloc: Global, blocks: &mut Vec<Block>, waiting: Waiting) -> Result<(), AllocError>
    ensures done { OnOk result (all_of blocks.new.items ≡ all_of blocks.old.items ++ waiting ∷ []) }
    ensures memory { OnErr result (all_of blocks.new.items ≡ all_of blocks.old.items) }
{
    let count = blocks.len();
    if count > 0 {
        let last = &mut blocks[count - 1];
        if last.len() < BLOCK {
            last.push(waiting)?;
            return Ok(());
        }
    }
    blocks.push(Block::of(alloc, waiting)?)?;
    Ok(())
}

/// In which block a place lies, and where in it.
fn find(blocks: &[Block], place: usize) -> (usize, usize)
    requires { place < length (all_of blocks.now) }
    ensures { IsAt blocks.now place result.0 result.1 }
{
    let mut left = place;
    for (number, block) in blocks.iter().enumerate() {
        let count = block.len();
        if left < count {
            return (number, left);
        }
        left -= count;
    }
    unreachable!()
}

/// Takes the letter out that stands at a place of a block.
fn remove_from(blocks: &mut Vec<Block>, number: usize, within: usize) -> Waiting
    requires block { number < length blocks.old.items }
    requires place { within < length (slice_index_or blocks.old.items number []) }
    ensures letter { result ≡ slice_index_or (slice_index_or blocks.old.items number []) within result }
    ensures rest { all_of blocks.new.items ≡ all_of (slice_set blocks.old.items number (remove (slice_index_or blocks.old.items number []) within)) }
{
    let block = &mut blocks[number];
    let waiting = block.remove(within);
    if block.len() == 0 {
        let _empty = blocks.remove(number);
    }
    waiting
}

impl WaitingLetters {
    pub fn new(alloc: Global) -> WaitingLetters
        ensures { result ≡ [] }
    {
        WaitingLetters {
            blocks: Vec::new(alloc),
            count: 0,
        }
    }

    pub fn len(&self) -> usize
        ensures { result ≡ length self.now }
    {
        self.count
    }

    /// Puts a letter behind all others.
    pub fn push(&mut self, alloc: Global, waiting: Waiting) -> Result<(), AllocError>
        requires { length self.old + 1 < 2 ^ 64 }
        ensures done { OnOk result (self.new ≡ self.old ++ waiting ∷ []) }
        ensures memory { OnErr result (self.new ≡ self.old) }
    {
        push_into(alloc, &mut self.blocks, waiting)?;
        self.count += 1;
        Ok(())
    }

    /// Takes the letter out that stands at a place.
    pub fn remove(&mut self, place: usize) -> Waiting
        requires { place < length self.old }
        ensures letter { result ≡ slice_index_or self.old place result }
        ensures rest { self.new ≡ remove self.old place }
    {
        let (number, within) = find(&self.blocks, place);
        let waiting = remove_from(&mut self.blocks, number, within);
        self.count -= 1;
        waiting
    }
}
