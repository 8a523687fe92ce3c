// Tests of places.
ghost use Rattle.std.specs.Prelude.{◌≡◌};
ghost use Rattle.std.specs.Ordering.{is_lt};
ghost use Rattle.ma_geom.specs.Coordinates.{place_cmp};
ghost use Rattle.ma_cells.specs.Ascending.{has};
ghost use Rattle.cavity_collapse.specs.Collapsing.{is_same};
ghost use Rattle.cavity_swap.specs.Rings.{in_order};

use ma_geom::Place;

pub(crate) fn is_same(p: Place, q: Place) -> bool
    ensures { result ≡ is_same p q }
{
    p == q
}

pub(crate) fn has(places: &[Place], p: Place) -> bool
    ensures { result ≡ has place_cmp p places.now }
{
    places.contains(&p)
}

pub(crate) fn is_below(p: Place, q: Place) -> bool
    ensures { result ≡ is_lt (place_cmp p q) }
{
    p < q
}

/// The ends of an edge, the lesser first.
pub(crate) fn in_order(a: Place, b: Place) -> [Place; 2]
    ensures { result ≡ in_order a b }
{
    if is_below(b, a) { [b, a] } else { [a, b] }
}
