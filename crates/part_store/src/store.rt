// The store of a part.
ghost use Rattle.std.specs.Prelude.{◌≡◌, ◌≢◌, ◌<◌, ◌^◌, ◌∷◌, ◌++◌, [], length, IfOk, OnErr, OnOk};
ghost use Rattle.std.specs.List.{All};
ghost use Rattle.std.specs.List.Sorted.{IsStrictlySortedBy};
ghost use Rattle.ma_cells.specs.Ascending.{ascending_of};
ghost use Rattle.ma_cells.specs.Cells.{mark_cmp};
ghost use Rattle.ma_cells.specs.Stars.{marks_at};
ghost use Rattle.ma_cells.specs.Tetrahedron.{tet_cmp};
ghost use Rattle.ma_cells.specs.Views.{ghost_cmp};
ghost use Rattle.part_store.specs.Agreement.{owner_of, residents_of, star_in};
ghost use Rattle.part_store.specs.Labelled.{corner_set, marks_on};
ghost use Rattle.part_store.specs.Stores.{own_after, replaced, started, view_in, with_ghosts, with_marks, with_shared};

use crate::around::{around, labels_of, owner_of};
use crate::batches::{marks_got, tets_got, tets_of};
use crate::corners::corner_set;
use crate::marks::{mark_set, marks_at, marks_on};
use letters::Shared;
use ma_cells::{Ascending, Batch, Cell, Label, Mark, Tet, View};
use ma_geom::{Memory, Place};
use std::alloc::Global;
use std::marker::Model;

/// The tetrahedra of a part, those of other parts that it was given, with their labels, the marks on
/// cells of both, and the places that it shares with others.
///
/// Each list is sorted. What changes the store takes n log n steps for n entries of it and of what is
/// given. `star`, `marks_at`, `residents` and `owner_of` go through the whole lists. The corners of own
/// tetrahedra and the marks on their cells are kept, so that who asks for them gets a copy.
#[derive(Debug, Drop)]
pub struct Store {
    part: Label,
    own: Ascending<Tet>,
    ghosts: Ascending<(Tet, Label)>,
    marks: Ascending<Mark>,
    shared: Vec<Shared>,
    corners: Ascending<Place>,
    own_marks: Ascending<Mark>,
}

impl Model for Store {
    ghost use Rattle.std.specs.Prelude.{◌≡◌};
    ghost use Rattle.part_store.specs.Labelled.{corner_set, marks_on};
    ghost use Rattle.part_store.specs.Stores.{StoreState};

    ghost Value = { StoreState };

    ghost view = { λ s. record { part = s.part; own = s.own; ghosts = s.ghosts; marks = s.marks; shared = s.shared.items } };

    ghost invariant = { λ s. (s.corners ≡ corner_set s.own) × (s.own_marks ≡ marks_on s.own s.marks) };
}

fn tet_set(tets: Vec<Tet>) -> Ascending<Tet>
    ensures { result ≡ ascending_of tet_cmp tets.items }
{
    Ascending::gather(tets)
}

fn ghost_set(ghosts: Vec<(Tet, Label)>) -> Ascending<(Tet, Label)>
    ensures { result ≡ ascending_of ghost_cmp ghosts.items }
{
    Ascending::gather(ghosts)
}

/// The same set in a list of its own.
fn copy_of<T: Ord + Copy>(alloc: Global, set: &Ascending<T>) -> Result<Ascending<T>, Memory>
    ensures { IfOk result (λ copy. copy ≡ set.now) }
{
    let items = Vec::from_slice(alloc, set.as_slice())?;
    Ok(Ascending::from_vec(items))
}

/// The marks of a set, and of other marks those on cells of these tetrahedra.
fn joined_on(
    alloc: Global,
    marks: &Ascending<Mark>,
    tets: &[Tet],
    others: &[Mark],
) -> Result<Ascending<Mark>, Memory>
    ensures { IfOk result (λ joined. joined ≡ ascending_of mark_cmp (marks.now ++ marks_on tets.now others.now)) }
{
    let kept = mark_set(marks_on(alloc, tets, others)?);
    marks.union(alloc, &kept)
}

impl Store {
    /// The store of a part with these tetrahedra, each once, and the marks on their cells.
    pub fn start(alloc: Global, part: Label, own: &[Tet], marks: &[Mark]) -> Result<Store, Memory>
        ensures { IfOk result (λ store. store ≡ started part own.now marks.now) }
    {
        let tets = tet_set(Vec::from_slice(alloc, own)?);
        let corners = corner_set(alloc, tets.as_slice())?;
        let marks = mark_set(marks_on(alloc, own, marks)?);
        let own_marks = copy_of(alloc, &marks)?;
        Ok(Store {
            part,
            own: tets,
            ghosts: Ascending::new(alloc),
            marks,
            shared: Vec::new(alloc),
            corners,
            own_marks,
        })
    }

    /// The number of the part. Takes no memory.
    pub fn part(&self) -> Label
        ensures { result ≡ self.now.part }
    {
        self.part
    }

    /// How many tetrahedra the part has. Takes no memory.
    pub fn own_count(&self) -> u64
        ensures value { result ≡ length self.now.own }
        ensures few { result < 2 ^ 63 }
    {
        self.own.as_slice().len() as u64
    }

    /// The part's own tetrahedra, in a list of their own.
    pub fn own_tets(&self, alloc: Global) -> Result<Ascending<Tet>, Memory>
        ensures { IfOk result (λ tets. tets ≡ self.now.own) }
    {
        copy_of(alloc, &self.own)
    }

    /// The corners of the part's own tetrahedra, in a list of their own.
    pub fn own_corners(&self, alloc: Global) -> Result<Ascending<Place>, Memory>
        ensures { IfOk result (λ places. places ≡ corner_set self.now.own) }
    {
        copy_of(alloc, &self.corners)
    }

    /// The marks here that are on cells of the part's own tetrahedra, in a list of their own.
    pub fn own_marks(&self, alloc: Global) -> Result<Ascending<Mark>, Memory>
        ensures { IfOk result (λ marks. marks ≡ marks_on self.now.own self.now.marks) }
    {
        copy_of(alloc, &self.own_marks)
    }

    /// The marks here that are on cells of these tetrahedra, in n log n steps.
    pub fn marks_on(&self, alloc: Global, tets: &[Tet]) -> Result<Ascending<Mark>, Memory>
        ensures { IfOk result (λ marks. marks ≡ marks_on tets.now self.now.marks) }
    {
        let kept = marks_on(alloc, tets, self.marks.as_slice())?;
        Ok(Ascending::from_vec(kept))
    }

    /// The places that the part shares with others. Takes no memory.
    pub fn shared(&self) -> &[Shared]
        ensures { result.now ≡ self.now.shared }
    {
        self.shared.as_slice()
    }

    /// The part's tetrahedra and ghosts that have all these places as corners, ascending. Goes
    /// through all of them.
    pub fn star(&self, alloc: Global, corners: &[Place]) -> Result<Vec<(Tet, Label)>, Memory>
        ensures value { IfOk result (λ star. star.items ≡ star_in (view_in self.now) corners.now) }
        ensures rises { IfOk result (λ star. IsStrictlySortedBy ghost_cmp star.items) }
    {
        let found = around(
            alloc,
            self.part,
            self.own.as_slice(),
            self.ghosts.as_slice(),
            corners,
        )?;
        Ok(ghost_set(found).into_vec())
    }

    /// The marks on cells with this corner, ascending. Goes through all marks.
    pub fn marks_at(&self, alloc: Global, corner: Place) -> Result<Vec<Mark>, Memory>
        ensures value { IfOk result (λ marks. marks.items ≡ marks_at (corner ∷ []) self.now.marks) }
        ensures rises { IfOk result (λ marks. IsStrictlySortedBy mark_cmp marks.items) }
    {
        marks_at(alloc, self.marks.as_slice(), corner)
    }

    /// The labels of all tetrahedra here that have a cell, ascending. Goes through all of them.
    pub fn residents(&self, alloc: Global, cell: &Cell) -> Result<Vec<Label>, Memory>
        ensures { IfOk result (λ labels. labels.items ≡ residents_of (view_in self.now) cell.now) }
    {
        let own = self.own.as_slice();
        let ghosts = self.ghosts.as_slice();
        let found = match cell {
            Cell::Point(place) => around(alloc, self.part, own, ghosts, &[*place])?,
            Cell::Seg(ends) => around(alloc, self.part, own, ghosts, ends)?,
            Cell::Tri(corners) => around(alloc, self.part, own, ghosts, corners)?,
        };
        let labels = labels_of(alloc, found.as_slice())?;
        Ok(Ascending::gather(labels).into_vec())
    }

    /// The least label of a tetrahedron here that has a cell. Goes through all of them, and takes no
    /// memory.
    pub fn owner_of(&self, cell: &Cell) -> Option<Label>
        ensures { result ≡ owner_of (view_in self.now) cell.now }
    {
        owner_of(self.part, self.own.as_slice(), self.ghosts.as_slice(), cell)
    }

    /// Puts these places in place of those that the part shared.
    pub fn set_shared(&mut self, shared: Vec<Shared>) -> Result<(), Memory>
        ensures ok { OnOk result (self.new ≡ with_shared self.old shared.items) }
        ensures err { OnErr result (self.new ≡ self.old) }
    {
        self.shared = shared;
        Ok(())
    }

    /// Puts the tetrahedra of these batches, with their labels, in place of the old ghosts, and joins
    /// the marks of the batches to those on cells of own tetrahedra.
    pub fn set_ghosts(&mut self, alloc: Global, ghosts: &[(Label, Batch)]) -> Result<(), Memory>
        requires { All (λ batch. batch.0 ≢ self.old.part) ghosts.now }
        ensures ok { OnOk result (self.new ≡ with_ghosts self.old ghosts.now) }
        ensures err { OnErr result (self.new ≡ self.old) }
    {
        let got = tets_got(alloc, ghosts)?;
        let sent = marks_got(alloc, ghosts)?;
        let own = self.own.as_slice();
        let own_marks = joined_on(alloc, &self.own_marks, own, sent.as_slice())?;
        let others = tets_of(alloc, got.as_slice())?;
        let marks = joined_on(alloc, &own_marks, others.as_slice(), sent.as_slice())?;
        self.ghosts = ghost_set(got);
        self.marks = marks;
        self.own_marks = own_marks;
        Ok(())
    }

    /// Joins marks, and keeps of all marks those on cells of the part's own tetrahedra.
    pub fn add_marks(&mut self, alloc: Global, marks: &[Mark]) -> Result<(), Memory>
        ensures ok { OnOk result (self.new ≡ with_marks self.old marks.now) }
        ensures err { OnErr result (self.new ≡ self.old) }
    {
        let all = joined_on(alloc, &self.own_marks, self.own.as_slice(), marks)?;
        let own_marks = copy_of(alloc, &all)?;
        self.marks = all;
        self.own_marks = own_marks;
        Ok(())
    }

    /// The part's own tetrahedra without some and with others.
    fn own_after(
        &self,
        alloc: Global,
        ended: &[Tet],
        added: &Batch,
    ) -> Result<Ascending<Tet>, Memory>
        ensures { IfOk result (λ own. own ≡ own_after self.now ended.now added.now) }
    {
        let ended = tet_set(Vec::from_slice(alloc, ended)?);
        let rest = self.own.difference(alloc, &ended)?;
        rest.union(alloc, &added.tets)
    }

    /// Takes tetrahedra from the part's own and adds others, with marks. The store then has no
    /// ghosts and no shared places, and only marks on cells of its tetrahedra: those that were added,
    /// and those that were on cells of its own before.
    pub fn replace(&mut self, alloc: Global, ended: &[Tet], added: &Batch) -> Result<(), Memory>
        ensures ok { OnOk result (self.new ≡ replaced self.old ended.now added.now) }
        ensures err { OnErr result (self.new ≡ self.old) }
    {
        let own = self.own_after(alloc, ended, added)?;
        let corners = corner_set(alloc, own.as_slice())?;
        let mut joined = copy_of(alloc, &self.own_marks)?.into_vec();
        joined.extend_from_slice(added.marks.as_slice())?;
        let marks = mark_set(marks_on(alloc, own.as_slice(), joined.as_slice())?);
        let own_marks = copy_of(alloc, &marks)?;
        self.own = own;
        self.ghosts = Ascending::new(alloc);
        self.marks = marks;
        self.shared = Vec::new(alloc);
        self.corners = corners;
        self.own_marks = own_marks;
        Ok(())
    }

    /// What the part sees, in lists of its own.
    pub fn view(&self, alloc: Global) -> Result<View, Memory>
        ensures { IfOk result (λ view. view ≡ view_in self.now) }
    {
        let own = copy_of(alloc, &self.own)?;
        let ghosts = copy_of(alloc, &self.ghosts)?;
        let marks = copy_of(alloc, &self.marks)?;
        Ok(View {
            part: self.part,
            own,
            ghosts,
            marks,
        })
    }
}
