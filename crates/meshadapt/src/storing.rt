// Stores the mesh of a run.
ghost use Rattle.std.specs.Prelude.{◌≡◌, ◌++◌, codes, string_bytes};
ghost use Rattle.msh_write.specs.Text.{nodes_of, text_of};
ghost use Rattle.meshadapt.specs.steps.Running.{StoresOne};

use crate::halt::Halt;
use crate::lines::mesh_name;
use ma_cells::{Ascending, Batch};
use ma_geom::Place;
use ma_io::{Depot, StoreFault};
use msh_read::Name;
use msh_write::write_union_with;
use std::alloc::Global;

pub fn store_file<D: Depot>(depot: &mut D, name: String, bytes: &[u8]) -> Result<(), Halt>
    ensures { StoresOne result (string_bytes name) bytes.now (D.held depot.old) (D.held depot.new) }
{
    match depot.store(name.as_str(), bytes) {
        Ok(()) => Ok(()),
        Err(StoreFault::Failed) => Err(Halt::Unstored(name)),
        Err(StoreFault::Memory) => Err(Halt::Memory),
    }
}

/// Stores the text of a mesh with these nodes and names under a name that begins with `out`. Both are made
/// before anything is stored.
pub fn store_mesh<D: Depot>(
    alloc: Global,
    depot: &mut D,
    mesh: &Batch,
    nodes: &Ascending<Place>,
    names: &[Name],
    out: &str,
) -> Result<(), Halt>
    requires { nodes.now ≡ nodes_of mesh.now.tets }
    ensures { StoresOne result (out.now ++ codes ".msh") (text_of mesh.now names.now) (D.held depot.old) (D.held depot.new) }
{
    let name = mesh_name(alloc, out)?;
    let text = write_union_with(alloc, mesh, nodes, names)?;
    store_file(depot, name, text.as_slice())
}
