// A field of sizes over places.
ghost use Rattle.std.specs.Prelude.{◌≡◌, ◌&&◌, ◌≤◌, ◌*◌, ◌^◌, ◌*ℤ◌, pos, int_lt, min, unsigned_abs, [], ◌∷◌, ◌++◌, true, IfOk, OnErr, OnOk};
ghost use Rattle.size_marks.specs.Field.{greatest_size, holds, is_long, is_short, is_size, is_in_extent, size_along, size_at};

use crate::looking::{BoxIndex, size_by_index};
use ma_geom::{Memory, Place, squared_length};
use std::alloc::Global;
use std::marker::Model;

/// The places from `low` to `high` in each coordinate, both included, with a size. Where a
/// coordinate of `low` is greater than that of `high`, it holds no place.
#[derive(Clone, Copy, Debug, PartialEq, Eq)]
pub struct SizeBox {
    low: Place,
    high: Place,
    size: u32,
}

impl Model for SizeBox {
    ghost use Rattle.std.specs.Prelude.{◌≡◌, true};
    ghost use Rattle.size_marks.specs.Field.{BoxedSize, is_size};

    ghost Value = { BoxedSize };

    ghost view = { λ b. record { low = b.low; high = b.high; size = b.size } };

    ghost invariant = { λ b. is_size b.size ≡ true };

    ghost inverse = { λ b. record { low = b.low; high = b.high; size = b.size } };
}

fn is_in_extent(low: i32, high: i32, c: i32) -> bool
    ensures { result ≡ is_in_extent low high c }
{
    low <= c && c <= high
}

fn are_true(x: bool, y: bool, z: bool) -> bool
    ensures { result ≡ (x && (y && z)) }
{
    x && y && z
}

impl SizeBox {
    pub fn new(low: Place, high: Place, size: u32) -> SizeBox
        requires { is_size size ≡ true }
        ensures { result ≡ record { low = low; high = high; size = size } }
    {
        SizeBox { low, high, size }
    }

    pub fn size(&self) -> u32
        ensures value { result ≡ self.now.size }
        ensures range { is_size result ≡ true }
    {
        self.size
    }

    pub(crate) fn low(&self) -> Place
        ensures { result ≡ self.now.low }
    {
        self.low
    }

    pub(crate) fn high(&self) -> Place
        ensures { result ≡ self.now.high }
    {
        self.high
    }

    /// Whether the place is in the box.
    pub fn holds(&self, p: Place) -> bool
        ensures { result ≡ holds self.now p }
    {
        let (low, high) = (self.low, self.high);
        let x = is_in_extent(low.x(), high.x(), p.x());
        let y = is_in_extent(low.y(), high.y(), p.y());
        let z = is_in_extent(low.z(), high.z(), p.z());
        are_true(x, y, z)
    }
}

/// A size for all places, and boxes with sizes of their own. Sizes are 1 to 2^30. Where the boxes
/// are indexed, the size at a place is found in a step for every 64 boxes and few more; without an
/// index in a step for every box.
#[derive(Debug, Drop)]
pub struct SizeField {
    default: u32,
    boxes: Vec<SizeBox>,
    index: Option<BoxIndex>,
}

impl Model for SizeField {
    ghost use Rattle.std.specs.Prelude.{◌≡◌, true};
    ghost use Rattle.size_marks.specs.Field.{Field, is_size};
    ghost use Rattle.size_marks.specs.steps.Slabs.{IsIndexOf};

    ghost Value = { Field };

    ghost view = { λ f. record { default = f.default; boxes = f.boxes.items } };

    ghost invariant = { λ f. (is_size f.default ≡ true) × IsIndexOf f.boxes.items f.index };
}

/// A place with a size: what a field has there is looked up once for all edges that end at it.
#[derive(Clone, Copy, Debug, PartialEq, Eq)]
pub struct SizedPlace {
    place: Place,
    size: u32,
}

impl Model for SizedPlace {
    ghost use Rattle.std.specs.Prelude.{◌≡◌, true};
    ghost use Rattle.size_marks.specs.Field.{PlaceAndSize, is_size};

    ghost Value = { PlaceAndSize };

    ghost view = { λ s. record { place = s.place; size = s.size } };

    ghost invariant = { λ s. is_size s.size ≡ true };

    ghost inverse = { λ s. record { place = s.place; size = s.size } };
}

/// The size of the last of these boxes that holds the place, else the default.
fn size_among(default: u32, boxes: &[SizeBox], p: Place) -> u32
    requires { is_size default ≡ true }
    ensures range { is_size result ≡ true }
    ensures value { result ≡ size_at (record { default = default; boxes = boxes.now }) p }
{
    let mut before = boxes;
    while let [rest @ .., last] = before {
        if last.holds(p) {
            return last.size();
        }
        before = rest;
    }
    default
}

/// Whether a squared length is past `9/4` of the square of a size. Four times a squared length may
/// be past 64 bits.
fn is_longer(length2: u64, size: u32) -> bool
    requires { size ≤ greatest_size }
    ensures { result ≡ int_lt (pos (9 * (size * size))) (pos 4 *ℤ pos length2) }
{
    let size = u128::from(size);
    9 * (size * size) < 4 * u128::from(length2)
}

/// Whether a squared length is below a quarter of the square of a size.
fn is_shorter(length2: u64, size: u32) -> bool
    requires { size ≤ greatest_size }
    ensures { result ≡ int_lt (pos 4 *ℤ pos length2) (pos (size * size)) }
{
    let size = u128::from(size);
    4 * u128::from(length2) < size * size
}

fn lesser(a: u32, b: u32) -> u32
    requires a_in { is_size a ≡ true }
    requires b_in { is_size b ≡ true }
    ensures value { result ≡ min a b }
    ensures bound { result ≤ greatest_size }
{
    a.min(b)
}

impl SizeField {
    /// One size for all places. Takes no memory.
    pub fn uniform(alloc: Global, size: u32) -> SizeField
        requires { is_size size ≡ true }
        ensures { result ≡ record { default = size; boxes = [] } }
    {
        SizeField {
            default: size,
            boxes: Vec::new(alloc),
            index: None,
        }
    }

    /// Puts a box behind all others. The boxes are without an index then.
    pub fn push_box(&mut self, boxed: SizeBox) -> Result<(), Memory>
        ensures done { OnOk result (self.new ≡ record { default = self.old.default; boxes = self.old.boxes ++ boxed ∷ [] }) }
        ensures memory { OnErr result (self.new ≡ self.old) }
    {
        self.index = None;
        self.boxes.push(boxed)?;
        Ok(())
    }

    /// Indexes the boxes. To be called when the last box is put: it takes some thousand steps for
    /// each box, and memory of some hundred bytes.
    pub fn index_boxes(&mut self, alloc: Global) -> Result<(), Memory>
        ensures { self.new ≡ self.old }
    {
        self.index = Some(BoxIndex::of(alloc, &self.boxes)?);
        Ok(())
    }

    /// An equal field, indexed where this one is.
    pub fn copy(&self, alloc: Global) -> Result<SizeField, Memory>
        ensures { IfOk result (λ copy. copy ≡ self.now) }
    {
        let mut copy = SizeField {
            default: self.default,
            boxes: Vec::from_slice(alloc, &self.boxes)?,
            index: None,
        };
        if self.index.is_some() {
            copy.index_boxes(alloc)?;
        }
        Ok(copy)
    }

    /// The size of the last box that holds the place, else the default.
    pub fn size_at(&self, p: Place) -> u32
        ensures value { result ≡ size_at self.now p }
        ensures range { is_size result ≡ true }
    {
        match &self.index {
            Some(index) => size_by_index(self.default, &self.boxes, index, p),
            None => size_among(self.default, &self.boxes, p),
        }
    }

    /// The place with its size.
    pub fn sized(&self, p: Place) -> SizedPlace
        ensures { result ≡ record { place = p; size = size_at self.now p } }
    {
        SizedPlace {
            place: p,
            size: self.size_at(p),
        }
    }

    /// The lesser size of the two ends of an edge.
    fn size_along(&self, a: Place, b: Place) -> u32
        ensures value { result ≡ size_along self.now a b }
        ensures bound { result ≤ greatest_size }
    {
        lesser(self.size_at(a), self.size_at(b))
    }

    /// Whether the edge is longer than three halves of its size, the lesser one of its two ends.
    #[tactic(auto, unfolding(crate::specs::Field::is_long))]
    pub fn is_long(&self, a: Place, b: Place) -> bool
        ensures { result ≡ is_long self.now a b }
    {
        is_longer(squared_length(a, b), self.size_along(a, b))
    }

    /// The same of places whose sizes in this field are known, so that none is looked up.
    #[tactic(auto, unfolding(crate::specs::Field::is_long))]
    pub fn is_long_between(&self, a: SizedPlace, b: SizedPlace) -> bool
        requires a_sized { a.size ≡ size_at self.now a.place }
        requires b_sized { b.size ≡ size_at self.now b.place }
        ensures { result ≡ is_long self.now a.place b.place }
    {
        is_longer(squared_length(a.place, b.place), lesser(a.size, b.size))
    }

    /// Whether the edge is shorter than half of its size, the lesser one of its two ends.
    #[tactic(auto, unfolding(crate::specs::Field::is_short))]
    pub fn is_short(&self, a: Place, b: Place) -> bool
        ensures { result ≡ is_short self.now a b }
    {
        is_shorter(squared_length(a, b), self.size_along(a, b))
    }
}
