// All parts of a mesh.
ghost use Rattle.std.specs.Prelude.{◌≡◌, ◌+◌, ◌<◌, ◌≤◌, ℕ, true, false, length, slice_index_or, Some, IfOk, IfSome, OnErr, OnOk};
ghost use Rattle.std.specs.List.{All};
ghost use Rattle.ma_cells.specs.Grid.{are_on_grid, marks_are_on_grid};
ghost use Rattle.directory.specs.Posting.{most_told};
ghost use Rattle.part_rules.specs.declared.course.Course.{Course};
ghost use Rattle.part_store.specs.Labelled.{LabelledMesh};
ghost use Rattle.round_laws.specs.Ends.{letters_in};
ghost use Rattle.staged_meshes.specs.Laws.{plan_of};
ghost use Rattle.staged_meshes.specs.Staged.{opened};
ghost use Rattle.world_run.specs.Drawn.{Draws, EndsAlone, IfAllIsTold, IsDrawn, drawn, picks_left, used};
ghost use Rattle.world_run.specs.Meshes.{labelled_mesh};
ghost use Rattle.world_run.specs.Replay.{all_next, first_parts};
ghost use Rattle.world_run.specs.Rounds.{AreDone, HaveAdapted, IsOnce, IsWhole, MayGoOn};
ghost use Rattle.world_run.specs.Told.{HasCause, RunTells, came_to};
ghost use Rattle.world_run.specs.Union.{union_in};
ghost use Rattle.world_run.specs.Views.{seen_at};

use crate::fault::RunFault;
use crate::round::run_next;
use crate::starting::{start_all, tell_cells, tell_solid};
use crate::uniting::reassemble;
use carrier::{Carrier, Schedule};
use ma_cells::{Batch, Label, Mesh, View};
use ma_geom::Memory;
use part_core::Part;
use part_rules::Course;
use std::alloc::Global;
use std::marker::Model;

/// The parts of a mesh, in the order of their numbers.
#[derive(Debug, Drop)]
pub struct World {
    parts: Vec<Part>,
    letters: u64,
    spent: bool,
}

impl Model for World {
    ghost use Rattle.std.specs.Prelude.{◌≡◌, false};
    ghost use Rattle.world_run.specs.Rounds.{AreBetween};
    ghost use Rattle.world_run.specs.Told.{WorldState};

    ghost Value = { WorldState };

    ghost view = { λ w. record { parts = w.parts.items; letters = w.letters; spent = w.spent } };

    ghost invariant = { λ w. w.spent ≡ false → AreBetween (record { parts = w.parts.items; letters = w.letters; spent = w.spent }) };
}

impl World {
    /// Hands the tetrahedra of a mesh out to parts by their labels, and runs round 0: the parts
    /// begin it in ascending order, and then letters are taken by the schedule and handed to the
    /// parts that they name, until all are done. Letters that a part sends by the call after which
    /// all are done aren't posted.
    pub fn start<C: Carrier>(
        alloc: Global,
        course: Course,
        mesh: &Mesh,
        labels: &[Label],
        carrier: &mut C,
        schedule: &mut Schedule,
    ) -> Result<World, RunFault>
        requires some { 1 ≤ course.parts }
        requires parts { course.parts ≤ 64 }
        requires grid { course.grid ≤ 30 }
        requires collapses { course.collapse ≤ 16 }
        requires swaps { course.swap ≤ 16 }
        requires each { length labels.now ≡ length mesh.now.tets }
        requires tets { are_on_grid course.grid mesh.now.tets ≡ true }
        requires marks { marks_are_on_grid course.grid mesh.now.marks ≡ true }
        requires below { All (λ label. label < course.parts) labels.now }
        ensures told { IfSome (C.carried carrier.old).given (λ before. RunTells (all_next (first_parts course (labelled_mesh mesh.now labels.now))) 0 before (C.carried carrier.new).given result) }
        ensures drawn { IfAllIsTold (C.carried carrier.old) (λ before. length mesh.now.tets ≤ most_told → Draws course 0 (labelled_mesh mesh.now labels.now) (drawn course 0 (first_parts course (labelled_mesh mesh.now labels.now)) (picks_left schedule.old)) 0 before (C.carried carrier.new) result) }
        ensures alone { course.parts ≡ 1 → length mesh.now.tets ≤ most_told → EndsAlone course 0 (labelled_mesh mesh.now labels.now) (all_next (first_parts course (labelled_mesh mesh.now labels.now))) (C.carried carrier.old) (C.carried carrier.new) result }
        ensures whole { IfOk result (λ world. IsWhole course (labelled_mesh mesh.now labels.now)) }
        ensures done { IfOk result (λ world. AreDone course 1 world.parts) }
        ensures letters { IfOk result (λ world. world.letters ≡ letters_in course 0) }
        ensures unspent { IfOk result (λ world. world.spent ≡ false) }
        ensures used { IfOk result (λ world. schedule.new ≡ used schedule.old world.letters) }
        ensures faults { (C.carried carrier.old).faults ≤ (C.carried carrier.new).faults }
        ensures dry { (C.carried carrier.old).dry ≤ (C.carried carrier.new).dry }
        ensures cause { HasCause (C.carried carrier.old) (C.carried carrier.new) result }
    {
        tell_cells(mesh.marks());
        tell_solid(mesh.tets());
        let mut parts = start_all(alloc, &course, mesh, labels)?;
        let letters = run_next(alloc, parts.as_mut_slice(), carrier, schedule)?;
        Ok(World {
            parts,
            letters,
            spent: false,
        })
    }

    /// Runs another round, which the parts begin in ascending order: each refines its own of the
    /// mesh by itself. After a fault the world is spent.
    pub fn run_round<C: Carrier>(
        &mut self,
        alloc: Global,
        carrier: &mut C,
        schedule: &mut Schedule,
    ) -> Result<(), RunFault>
        requires may { MayGoOn self.old }
        ensures told { IfSome (C.carried carrier.old).given (λ before. RunTells (all_next self.old.parts) self.old.letters before (C.carried carrier.new).given (came_to self.new result)) }
        ensures drawn { IfAllIsTold (C.carried carrier.old) (λ before. (course : Course) (mesh : LabelledMesh) (round : ℕ) → IsWhole course mesh → IsOnce mesh → HaveAdapted course mesh round self.old.parts → Draws course (round + 1) (opened (plan_of course) mesh (round + 1)) (drawn course (round + 1) self.old.parts (picks_left schedule.old)) self.old.letters before (C.carried carrier.new) (came_to self.new result)) }
        ensures alone { (course : Course) (mesh : LabelledMesh) (round : ℕ) → course.parts ≡ 1 → IsWhole course mesh → IsOnce mesh → HaveAdapted course mesh round self.old.parts → EndsAlone course (round + 1) (opened (plan_of course) mesh (round + 1)) (all_next self.old.parts) (C.carried carrier.old) (C.carried carrier.new) (came_to self.new result) }
        ensures follows { OnOk result (IfAllIsTold (C.carried carrier.old) (λ before. (course : Course) (rounds : ℕ) → AreDone course rounds self.old.parts → IsDrawn (drawn course rounds self.old.parts (picks_left schedule.old)) self.old.letters before (C.carried carrier.new) self.new)) }
        ensures done { OnOk result ((course : Course) (rounds : ℕ) → AreDone course rounds self.old.parts → AreDone course (rounds + 1) self.new.parts) }
        ensures letters { OnOk result ((course : Course) (rounds : ℕ) → AreDone course rounds self.old.parts → self.new.letters ≡ self.old.letters + letters_in course rounds) }
        ensures used { OnOk result ((course : Course) (rounds : ℕ) → AreDone course rounds self.old.parts → schedule.new ≡ used schedule.old (letters_in course rounds)) }
        ensures unspent { OnOk result (self.new.spent ≡ false) }
        ensures spent { OnErr result (self.new.spent ≡ true) }
        ensures faults { (C.carried carrier.old).faults ≤ (C.carried carrier.new).faults }
        ensures dry { (C.carried carrier.old).dry ≤ (C.carried carrier.new).dry }
        ensures cause { HasCause (C.carried carrier.old) (C.carried carrier.new) result }
    {
        self.spent = true;
        let letters = run_next(alloc, self.parts.as_mut_slice(), carrier, schedule)?;
        self.letters += letters;
        self.spent = false;
        Ok(())
    }

    /// A part. Takes no memory.
    pub fn part(&self, number: Label) -> &Part
        requires { number < length self.now.parts }
        ensures { result.now ≡ slice_index_or self.now.parts number result.now }
    {
        &self.parts[number as usize]
    }

    /// What a part sees, in lists of its own.
    pub fn view(&self, alloc: Global, number: Label) -> Result<View, Memory>
        requires { number < length self.now.parts }
        ensures { IfOk result (λ view. seen_at self.now.parts number ≡ Some view) }
    {
        self.part(number).store().view(alloc)
    }

    /// The whole mesh: all own tetrahedra of the parts, and of the marks on their cells those that
    /// the part owns, which is the least one with a tetrahedron that has the cell.
    pub fn reassemble(&self, alloc: Global) -> Result<Batch, Memory>
        ensures { IfOk result (λ batch. batch ≡ union_in self.now.parts) }
    {
        reassemble(alloc, self.parts.as_slice())
    }

    /// How many letters were taken. Takes no memory.
    pub fn letters(&self) -> u64
        ensures { result ≡ self.now.letters }
    {
        self.letters
    }

    /// Whether the run can go on no more, since it was ended by a fault. Takes no memory.
    pub fn is_spent(&self) -> bool
        ensures { result ≡ self.now.spent }
    {
        self.spent
    }
}
