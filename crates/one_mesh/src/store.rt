// A mesh in one piece.
ghost use Rattle.std.specs.Prelude.{ℕ, suc, ◌≡◌, ◌≤◌, false, true, IfOk, OnOk, OnErr, length, nat_lt, if◌then◌else◌};
ghost use Rattle.cavity_rank.specs.declared.verdict.Kind.TheVariants.{Collapse, Swap};
ghost use Rattle.ma_cells.specs.Ascending.{are_ascending};
ghost use Rattle.ma_cells.specs.Cells.{mark_cmp};
ghost use Rattle.ma_cells.specs.Grid.{mesh_is_on_grid};
ghost use Rattle.one_mesh.specs.Holding.{set_of};
ghost use Rattle.ma_cells.specs.Tetrahedron.{are_tetrahedra};
ghost use Rattle.mesh_laws.specs.Adapted.{IsAdapted, IsSoundMesh};
ghost use Rattle.refinement.specs.Laws.{KeepsCover};
ghost use Rattle.refinement.specs.Refinement.{refine};
ghost use Rattle.pass_rules.specs.Passes.{chosen, passed};
ghost use Rattle.one_mesh.specs.Adaptation.{most_passes};
ghost use Rattle.one_mesh.specs.Rounds.{EndsRound};
ghost use Rattle.one_mesh.specs.steps.Stages.{EndsStage};

use crate::fault::OneFault;
use cavity_rank::Kind;
use ma_cells::{Ascending, Batch, Mesh, Tet};
use ma_geom::Memory;
use mesh_passes::pass;
use refinement::refined;
use size_marks::SizeField;
use std::alloc::Global;
use std::marker::Model;

/// How many tetrahedra a mesh may have after a stage.
const MOST_ADAPTED_TETS: usize = 1_000_000;

/// A mesh that is adapted round by round. A round that is refused leaves it spent.
#[derive(Debug, Drop)]
pub struct OneMesh {
    mesh: Batch,
    spent: bool,
}

impl Model for OneMesh {
    ghost use Rattle.std.specs.Prelude.{◌≡◌, true};
    ghost use Rattle.one_mesh.specs.Holding.{Holding};
    ghost use Rattle.ma_cells.specs.Ascending.{are_ascending};
    ghost use Rattle.ma_cells.specs.Cells.{mark_cmp};
    ghost use Rattle.ma_cells.specs.Tetrahedron.{are_tetrahedra};

    ghost Value = { Holding };

    ghost view = { λ m. record { mesh = m.mesh; spent = m.spent } };

    ghost invariant = { λ m. (are_tetrahedra m.mesh.tets ≡ true) × (are_ascending mark_cmp m.mesh.marks ≡ true) };
}

/// The tetrahedra in a list of their own.
fn copied(alloc: Global, tets: &[Tet]) -> Result<Vec<Tet>, Memory>
    ensures items { IfOk result (λ copies. copies.items ≡ tets.now) }
    ensures not_flat { IfOk result (λ copies. are_tetrahedra copies.items ≡ true) }
{
    let mut copies = Vec::with_capacity(alloc, tets.len())?;
    for tet in tets {
        let _corners = tet.corners();
        copies.push(*tet)?;
    }
    Ok(copies)
}

/// What the pass behind so many others does in a round with so many collapse passes.
fn kind_of_pass(collapses: u32, before: u32) -> Kind
    ensures { result ≡ (if nat_lt before collapses then Collapse else Swap) }
{
    if before < collapses {
        Kind::Collapse
    } else {
        Kind::Swap
    }
}

impl OneMesh {
    /// The tetrahedra and marks of a mesh as sets.
    pub fn from_mesh(alloc: Global, mesh: &Mesh) -> Result<OneMesh, Memory>
        ensures { IfOk result (λ one. one ≡ record { mesh = set_of mesh.now; spent = false }) }
    {
        let tets = copied(alloc, mesh.tets())?;
        let marks = Vec::from_slice(alloc, mesh.marks())?;
        Ok(OneMesh {
            mesh: Batch {
                tets: Ascending::gather(tets),
                marks: Ascending::from_vec(marks),
            },
            spent: false,
        })
    }

    /// The mesh as it stands. Takes no memory.
    pub fn batch(&self) -> &Batch
        ensures value { result.now ≡ self.now.mesh }
        ensures not_flat { are_tetrahedra result.now.tets ≡ true }
        ensures ascending { are_ascending mark_cmp result.now.marks ≡ true }
    {
        &self.mesh
    }

    /// Whether a round was refused. Takes no memory.
    pub fn is_spent(&self) -> bool
        ensures { result ≡ self.now.spent }
    {
        self.spent
    }

    /// Bisects each tetrahedron, marked triangle and marked segment at its long edges, the longest
    /// first, in time linear in what comes of it, but for a sort.
    pub fn refine(&mut self, alloc: Global, field: &SizeField) -> Result<(), Memory>
        requires { self.old.spent ≡ false }
        ensures value { OnOk result (self.new ≡ record { mesh = refine field.now self.old.mesh; spent = false }) }
        ensures err { OnErr result (self.new ≡ self.old) }
        ensures cover { OnOk result (KeepsCover self.old.mesh self.new.mesh) }
        ensures adapts { OnOk result (IsSoundMesh self.old.mesh → IsAdapted self.old.mesh self.new.mesh) }
        ensures not_flat { are_tetrahedra self.new.mesh.tets ≡ true }
        ensures grid { OnOk result ((k : ℕ) → mesh_is_on_grid (suc k) self.old.mesh ≡ true → mesh_is_on_grid k self.new.mesh ≡ true) }
    {
        self.mesh = refined(alloc, &self.mesh, field)?;
        Ok(())
    }

    /// Makes the operations of a kind that are chosen, and tells how many they are: of all legal ones
    /// those that are first in rank on each tetrahedron of their cavity.
    pub fn pass(&mut self, alloc: Global, kind: Kind, field: &SizeField) -> Result<u64, Memory>
        requires { self.old.spent ≡ false }
        ensures value { OnOk result (self.new ≡ record { mesh = passed kind field.now self.old.mesh; spent = false }) }
        ensures count { IfOk result (λ count. count ≡ length (chosen kind field.now self.old.mesh)) }
        ensures err { OnErr result (self.new ≡ self.old) }
        ensures adapts { OnOk result (IsSoundMesh self.old.mesh → IsAdapted self.old.mesh self.new.mesh) }
        ensures not_flat { are_tetrahedra self.new.mesh.tets ≡ true }
        ensures grid { OnOk result ((k : ℕ) → mesh_is_on_grid k self.old.mesh ≡ true → mesh_is_on_grid k self.new.mesh ≡ true) }
    {
        let after = pass(alloc, kind, &self.mesh, field)?;
        self.mesh = after.mesh;
        Ok(after.count)
    }

    /// Whether the mesh is within the limit after a stage. The value is spent where it isn't.
    fn within(&mut self, round: u32, stage: u32) -> Result<(), OneFault>
        requires { self.old.spent ≡ false }
        ensures { EndsStage result round stage self.old.mesh self.new }
    {
        let count = self.mesh.tets.len();
        if count > MOST_ADAPTED_TETS {
            self.spent = true;
            return Err(OneFault::Over {
                round,
                stage,
                count: count as u64,
            });
        }
        Ok(())
    }

    /// The first stage of a round.
    fn refine_within(
        &mut self,
        alloc: Global,
        field: &SizeField,
        round: u32,
    ) -> Result<(), OneFault>
        requires { self.old.spent ≡ false }
        ensures { EndsStage result round 0 (refine field.now self.old.mesh) self.new }
    {
        match self.refine(alloc, field) {
            Ok(()) => self.within(round, 0),
            Err(Memory) => {
                self.spent = true;
                Err(OneFault::Memory)
            }
        }
    }

    /// A later stage.
    fn pass_within(
        &mut self,
        alloc: Global,
        kind: Kind,
        field: &SizeField,
        round: u32,
        stage: u32,
    ) -> Result<(), OneFault>
        requires { self.old.spent ≡ false }
        ensures { EndsStage result round stage (passed kind field.now self.old.mesh) self.new }
    {
        match self.pass(alloc, kind, field) {
            Ok(_) => self.within(round, stage),
            Err(Memory) => {
                self.spent = true;
                Err(OneFault::Memory)
            }
        }
    }

    /// One round, whose number is told where it is refused: refinement, then so many passes of
    /// collapses, then so many of swaps. It is refused where the mesh has more than 1,000,000
    /// tetrahedra after one of these stages, or for want of memory, and the mesh is spent then.
    pub fn adapt(
        &mut self,
        alloc: Global,
        field: &SizeField,
        round: u32,
        collapse: u32,
        swap: u32,
    ) -> Result<(), OneFault>
        requires spent { self.old.spent ≡ false }
        requires collapse { collapse ≤ most_passes }
        requires swap { swap ≤ most_passes }
        ensures { EndsRound result round (record { field = field.now; collapses = collapse; swaps = swap }) self.old.mesh self.new }
    {
        self.refine_within(alloc, field, round)?;
        for before in 0..collapse + swap {
            let kind = kind_of_pass(collapse, before);
            self.pass_within(alloc, kind, field, round, before + 1)?;
        }
        Ok(())
    }
}
