// The entries of lists: places, tetrahedra, marks, operations and shared places.
ghost use Rattle.std.specs.Prelude.{◌≡◌, ◌++◌, ◌≤◌, true, List, length, FitsSigned, IfOk, OnOk};
ghost use Rattle.std.specs.Int.{w32};
ghost use Rattle.std.specs.List.{flat_map, list_all};
ghost use Rattle.std.specs.List.Sorted.{IsStrictlySortedBy};
ghost use Rattle.std.specs.Ordering.{nat_cmp};
ghost use Rattle.ma_geom.specs.Coordinates.{place_cmp};
ghost use Rattle.ma_cells.specs.Ascending.{are_ascending};
ghost use Rattle.ma_cells.specs.Cells.{corners_of, is_cell};
ghost use Rattle.cavity_rank.specs.Operations.{is_spot};
ghost use Rattle.letters.specs.Entries.{cell_at, corner_count, mark, mark_before, operation, operation_before, shared, solid_tet, tet, tet_before};
ghost use Rattle.letters.specs.Fields.{between, part_before, place, place_before, signed};
ghost use Rattle.letters.specs.Grammar.{are_behind, comes_behind, counted, entries, last_of, number, ◌then◌};
ghost use Rattle.letters.specs.Letters.{Gives};
ghost use Rattle.letters.specs.Sharing.{are_sharers, shared_before};

use crate::fault::LetterFault;
use crate::fields::{between_at, byte_at, corner_count_at, place_at, place_of, signed_at, word_at};
use crate::lists::{Entry, entries, put_entries};
use crate::shared::Shared;
use crate::spelling::{put_byte, put_place, put_places, put_signed, put_word};
use arrayvec::ArrayVec;
use cavity_rank::Operation;
use ma_cells::{Ascending, Cell, Label, Mark, Tet};
use ma_geom::{Memory, Place};
use std::alloc::Global;

impl Entry for Place {
    ghost grammar = { place };

    ghost before = { place_before };

    fn read(_alloc: Global, end: usize, bytes: &[u8]) -> Result<(Place, &[u8]), LetterFault> {
        place_at(end, bytes)
    }

    fn put(&self, out: &mut Vec<u8>) -> Result<(), Memory> {
        put_place(out, *self)
    }

    fn comes_before(&self, next: &Place) -> bool {
        self < next
    }
}

fn comes_before(last: Place, next: Place) -> bool
    ensures { result ≡ place_before last next }
{
    last < next
}

/// Whether a place stands behind all of a list.
fn is_behind(places: &[Place], p: Place) -> bool
    ensures { result ≡ comes_behind place_before (last_of places.now) p }
{
    match places {
        [.., last] => comes_before(*last, p),
        [] => true,
    }
}

/// Places, at most four of them, each behind the one before it.
fn places_at(
    count: u8,
    end: usize,
    bytes: &[u8],
) -> Result<(ArrayVec<Place, 4>, &[u8]), LetterFault>
    requires { count ≤ 4 }
    ensures gives { Gives (λ x. (x.0.items, x.1.now)) result ((entries place_before place count).reading end bytes.now) }
    ensures count { IfOk result (λ x. length x.0.items ≡ count) }
    ensures rises { IfOk result (λ x. are_ascending place_cmp x.0.items ≡ true) }
{
    let mut places = ArrayVec::new();
    let mut rest = bytes;
    for _ in 0..count {
        let (p, after) = match place_at(end, rest) {
            Ok(read) => read,
            Err(fault) => return Err(fault),
        };
        if !is_behind(&places, p) {
            return Err(LetterFault::BadField(place_of(end, rest)));
        }
        places.push(p);
        rest = after;
    }
    Ok((places, rest))
}

/// The dimension of a cell and its corners.
fn put_corners(out: &mut Vec<u8>, corners: &[Place]) -> Result<(), Memory>
    requires least { 1 ≤ length corners.now }
    requires most { length corners.now ≤ 3 }
    requires rises { are_ascending place_cmp corners.now ≡ true }
    ensures text { OnOk result (out.new.items ≡ out.old.items ++ (counted corner_count place_before place).spelling corners.now) }
    ensures fits { OnOk result ((counted corner_count place_before place).fits corners.now ≡ true) }
{
    put_byte(out, corners.len() as u8 - 1)?;
    put_places(out, corners)
}

fn put_cell(out: &mut Vec<u8>, cell: &Cell) -> Result<(), Memory>
    requires { is_cell cell.now ≡ true }
    ensures text { OnOk result (out.new.items ≡ out.old.items ++ (counted corner_count place_before place).spelling (corners_of cell.now)) }
    ensures fits { OnOk result ((counted corner_count place_before place).fits (corners_of cell.now) ≡ true) }
{
    match cell {
        Cell::Point(p) => put_corners(out, &[*p]),
        Cell::Seg(ends) => put_corners(out, ends),
        Cell::Tri(corners) => put_corners(out, corners),
    }
}

/// The number of these places and the places.
fn put_spot(out: &mut Vec<u8>, at: &[Place]) -> Result<(), Memory>
    requires { is_spot at.now ≡ true }
    ensures text { OnOk result (out.new.items ≡ out.old.items ++ (counted (between 1 3) place_before place).spelling at.now) }
    ensures fits { OnOk result ((counted (between 1 3) place_before place).fits at.now ≡ true) }
{
    put_byte(out, at.len() as u8)?;
    put_places(out, at)
}

/// The number of these parts and the parts.
fn put_parts(out: &mut Vec<u8>, parts: &[Label]) -> Result<(), Memory>
    requires sharers { are_sharers parts.now ≡ true }
    requires rises { IsStrictlySortedBy nat_cmp parts.now }
    ensures text { OnOk result (out.new.items ≡ out.old.items ++ (counted (between 2 64) part_before (number 1)).spelling parts.now) }
    ensures fits { OnOk result ((counted (between 2 64) part_before (number 1)).fits parts.now ≡ true) }
{
    put_byte(out, parts.len() as u8)?;
    put_entries(out, parts)
}

/// The two numbers of a region or a tag.
fn tag_at(bytes: &[u8]) -> Result<((i32, i32), &[u8]), LetterFault>
    ensures gives { Gives (λ x. (x.0, x.1.now)) result ((signed then signed).reading 0 bytes.now) }
    ensures phys { IfOk result (λ x. FitsSigned w32 x.0.0) }
    ensures elem { IfOk result (λ x. FitsSigned w32 x.0.1) }
{
    let (phys, rest) = signed_at(bytes)?;
    let (elem, rest) = signed_at(rest)?;
    Ok(((phys, elem), rest))
}

fn put_tag(out: &mut Vec<u8>, phys: i32, elem: i32) -> Result<(), Memory>
    ensures text { OnOk result (out.new.items ≡ out.old.items ++ (signed then signed).spelling (phys, elem)) }
    ensures fits { (signed then signed).fits (phys, elem) ≡ true }
{
    put_signed(out, phys)?;
    put_signed(out, elem)?;
    Ok(())
}

fn four_of(places: &[Place]) -> [Place; 4]
    requires { length places.now ≡ 4 }
    ensures { result ≡ places.now }
{
    match places {
        [a, b, c, d] => [*a, *b, *c, *d],
        _ => unreachable!(),
    }
}

/// The tetrahedron with these corners, which ascend, and this region, unless it is flat.
fn tet_of(corners: &[Place], phys: i32, elem: i32) -> Option<Tet>
    requires four { length corners.now ≡ 4 }
    requires rises { are_ascending place_cmp corners.now ≡ true }
    ensures { result ≡ solid_tet corners.now (phys, elem) }
{
    Tet::new(four_of(corners), phys, elem)
}

fn tet_at(end: usize, bytes: &[u8]) -> Result<(Tet, &[u8]), LetterFault>
    ensures { Gives (λ x. (x.0, x.1.now)) result (tet.reading end bytes.now) }
{
    let (corners, rest) = match places_at(4, end, bytes) {
        Ok(read) => read,
        Err(fault) => return Err(fault),
    };
    let ((phys, elem), rest) = tag_at(rest)?;
    match tet_of(&corners, phys, elem) {
        Some(t) => Ok((t, rest)),
        None => Err(LetterFault::BadField(place_of(end, bytes))),
    }
}

/// The mark on the cell with these corners, which ascend.
fn mark_of(corners: &[Place], phys: i32, elem: i32) -> Mark
    requires least { 1 ≤ length corners.now }
    requires most { length corners.now ≤ 3 }
    requires rises { are_ascending place_cmp corners.now ≡ true }
    ensures { result ≡ record { cell = cell_at corners.now; phys = phys; elem = elem } }
{
    match Cell::new(corners) {
        Some(cell) => Mark::new(cell, phys, elem),
        None => unreachable!(),
    }
}

fn mark_at(end: usize, bytes: &[u8]) -> Result<(Mark, &[u8]), LetterFault>
    ensures { Gives (λ x. (x.0, x.1.now)) result (mark.reading end bytes.now) }
{
    let (count, rest) = corner_count_at(end, bytes)?;
    let (corners, rest) = match places_at(count, end, rest) {
        Ok(read) => read,
        Err(fault) => return Err(fault),
    };
    let ((phys, elem), rest) = tag_at(rest)?;
    Ok((mark_of(&corners, phys, elem), rest))
}

/// The operation at these places, which ascend.
fn operation_of(at: &[Place], apex: Place, worst: u32) -> Operation
    requires least { 1 ≤ length at.now }
    requires most { length at.now ≤ 3 }
    requires rises { are_ascending place_cmp at.now ≡ true }
    ensures { result ≡ record { at = at.now; apex = apex; worst = worst } }
{
    match Operation::new(at, apex, worst) {
        Some(operation) => operation,
        None => unreachable!(),
    }
}

fn operation_at(end: usize, bytes: &[u8]) -> Result<(Operation, &[u8]), LetterFault>
    ensures { Gives (λ x. (x.0, x.1.now)) result (operation.reading end bytes.now) }
{
    let (count, rest) = between_at(1, 3, end, bytes)?;
    let (at, rest) = match places_at(count, end, rest) {
        Ok(read) => read,
        Err(fault) => return Err(fault),
    };
    let (apex, rest) = match place_at(end, rest) {
        Ok(read) => read,
        Err(fault) => return Err(fault),
    };
    let (worst, rest) = word_at(rest)?;
    Ok((operation_of(&at, apex, worst), rest))
}

impl Entry for Label {
    ghost grammar = { number 1 };

    ghost before = { part_before };

    fn read(_alloc: Global, _end: usize, bytes: &[u8]) -> Result<(Label, &[u8]), LetterFault> {
        byte_at(bytes)
    }

    fn put(&self, out: &mut Vec<u8>) -> Result<(), Memory> {
        put_byte(out, *self)
    }

    fn comes_before(&self, next: &Label) -> bool {
        self < next
    }
}

/// The place with these parts, which ascend.
fn shared_of(place: Place, parts: Vec<Label>) -> Shared
    requires least { 2 ≤ length parts.items }
    requires most { length parts.items ≤ 64 }
    requires behind { are_behind part_before None parts.items ≡ true }
    ensures { result ≡ record { place = place; parts = parts.items } }
{
    match Shared::new(place, Ascending::from_vec(parts)) {
        Some(shared) => shared,
        None => unreachable!(),
    }
}

fn shared_at(alloc: Global, end: usize, bytes: &[u8]) -> Result<(Shared, &[u8]), LetterFault>
    ensures { Gives (λ x. (x.0, x.1.now)) result (shared.reading end bytes.now) }
{
    let (place, rest) = match place_at(end, bytes) {
        Ok(read) => read,
        Err(fault) => return Err(fault),
    };
    let (count, rest) = between_at(2, 64, end, rest)?;
    let (parts, rest) = entries(alloc, u64::from(count), end, rest)?;
    Ok((shared_of(place, parts), rest))
}

impl Entry for Tet {
    ghost grammar = { tet };

    ghost before = { tet_before };

    fn read(_alloc: Global, end: usize, bytes: &[u8]) -> Result<(Tet, &[u8]), LetterFault> {
        tet_at(end, bytes)
    }

    fn put(&self, out: &mut Vec<u8>) -> Result<(), Memory> {
        put_places(out, &self.corners())?;
        put_tag(out, self.phys(), self.elem())
    }

    fn comes_before(&self, next: &Tet) -> bool {
        self.cmp(next).is_lt()
    }
}

impl Entry for Mark {
    ghost grammar = { mark };

    ghost before = { mark_before };

    fn read(_alloc: Global, end: usize, bytes: &[u8]) -> Result<(Mark, &[u8]), LetterFault> {
        mark_at(end, bytes)
    }

    fn put(&self, out: &mut Vec<u8>) -> Result<(), Memory> {
        put_cell(out, &self.cell())?;
        put_tag(out, self.phys(), self.elem())
    }

    fn comes_before(&self, next: &Mark) -> bool {
        self.cmp(next).is_lt()
    }
}

impl Entry for Operation {
    ghost grammar = { operation };

    ghost before = { operation_before };

    fn read(_alloc: Global, end: usize, bytes: &[u8]) -> Result<(Operation, &[u8]), LetterFault> {
        operation_at(end, bytes)
    }

    fn put(&self, out: &mut Vec<u8>) -> Result<(), Memory> {
        put_spot(out, self.at())?;
        put_place(out, self.apex())?;
        put_word(out, self.worst())
    }

    fn comes_before(&self, next: &Operation) -> bool {
        self.cmp(next).is_lt()
    }
}

impl Entry for Shared {
    ghost grammar = { shared };

    ghost before = { shared_before };

    fn read(alloc: Global, end: usize, bytes: &[u8]) -> Result<(Shared, &[u8]), LetterFault> {
        shared_at(alloc, end, bytes)
    }

    fn put(&self, out: &mut Vec<u8>) -> Result<(), Memory> {
        put_place(out, self.place())?;
        put_parts(out, self.parts())
    }

    fn comes_before(&self, next: &Shared) -> bool {
        comes_before(self.place(), next.place())
    }
}
