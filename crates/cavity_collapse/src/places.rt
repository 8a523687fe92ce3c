// Tests of places.
ghost use Rattle.std.specs.Prelude.{◌≡◌};
ghost use Rattle.ma_geom.specs.Coordinates.{place_cmp};
ghost use Rattle.ma_cells.specs.Ascending.{has};
ghost use Rattle.cavity_collapse.specs.Collapsing.{is_same};

use ma_geom::Place;

pub(crate) fn is_same(p: Place, q: Place) -> bool
    ensures { result ≡ is_same p q }
{
    p == q
}

pub(crate) fn has(places: &[Place], p: Place) -> bool
    ensures { result ≡ has place_cmp p places.now }
{
    places.contains(&p)
}
