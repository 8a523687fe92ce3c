// What is told of a mesh: its worst quality, and how many marks it has.
ghost use Rattle.std.specs.Prelude.{◌≡◌, ◌∷◌, map};
ghost use Rattle.std.specs.List.{count_by};
ghost use Rattle.ma_geom.specs.Quality.{quality};
ghost use Rattle.msh_write.specs.Text.{is_tagged};
ghost use Rattle.ma_cells.specs.Worst.{least, worst};

use ma_cells::{Mark, Tet};
use ma_geom::quality;
use msh_write::is_tagged;

fn tet_quality(tet: &Tet) -> u32
    ensures { result ≡ quality tet.now.corners }
{
    quality(tet.corners())
}

/// The least of a number and the qualities of tetrahedra.
fn worst_with(first: u32, tets: &[Tet]) -> u32
    ensures { result ≡ least (first ∷ map (λ tet. quality tet.corners) tets.now) }
{
    let mut worst = first;
    for tet in tets {
        worst = worst.min(tet_quality(tet));
    }
    worst
}

/// The least quality, 0 where there is no tetrahedron.
#[tactic(auto, unfolding(ma_cells::specs::Worst::worst))]
pub fn worst(tets: &[Tet]) -> u32
    ensures { result ≡ worst tets.now }
{
    match tets {
        [first, rest @ ..] => worst_with(tet_quality(first), rest),
        [] => 0,
    }
}

/// How many marks have another tag than 0 0.
pub fn tagged_count(marks: &[Mark]) -> usize
    ensures { result ≡ count_by is_tagged marks.now }
{
    marks.iter().filter(|mark| is_tagged(mark)).count()
}
