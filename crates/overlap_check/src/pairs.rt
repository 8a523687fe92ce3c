// Whether two tetrahedra overlap.
ghost use Rattle.std.specs.Prelude.{◌≡◌, ◌++◌, int_le, map};
ghost use Rattle.std.specs.List.{list_all, list_any};
ghost use Rattle.ma_geom.specs.Volume.{cross, dot};
ghost use Rattle.overlap_check.specs.Forms.{axes, normal_of, normals_of, products, slants, step_of, steps_of, x_axis, y_axis, z_axis};
ghost use Rattle.overlap_check.specs.Overlap.{are_apart, are_separated, is_apart, is_below};

use ma_cells::Tet;
use ma_geom::vectors::{Form, Vector};
use ma_geom::{Place, normal};

/// Whether the number is above none of the others.
fn is_lowest(v: &i128, ws: &[i128]) -> bool
    ensures { result ≡ list_all (λ w. int_le v.now w) ws.now }
{
    ws.iter().all(|w| *v <= *w)
}

/// Whether no number of the first is above one of the second.
fn is_below(vs: &[i128], ws: &[i128]) -> bool
    ensures { result ≡ is_below vs.now ws.now }
{
    vs.iter().all(|v| is_lowest(v, ws))
}

fn are_apart(vs: &[i128], ws: &[i128]) -> bool
    ensures { result ≡ are_apart vs.now ws.now }
{
    is_below(vs, ws) || is_below(ws, vs)
}

/// The x coordinates of the corners.
fn xs(tet: &Tet) -> [i128; 4]
    ensures { result ≡ map (dot x_axis) tet.now.corners }
{
    let [a, b, c, d] = tet.corners();
    [a.x() as i128, b.x() as i128, c.x() as i128, d.x() as i128]
}

/// The y coordinates of the corners.
fn ys(tet: &Tet) -> [i128; 4]
    ensures { result ≡ map (dot y_axis) tet.now.corners }
{
    let [a, b, c, d] = tet.corners();
    [a.y() as i128, b.y() as i128, c.y() as i128, d.y() as i128]
}

/// The z coordinates of the corners.
fn zs(tet: &Tet) -> [i128; 4]
    ensures { result ≡ map (dot z_axis) tet.now.corners }
{
    let [a, b, c, d] = tet.corners();
    [a.z() as i128, b.z() as i128, c.z() as i128, d.z() as i128]
}

/// Whether a coordinate separates them.
fn are_apart_along_an_axis(a: &Tet, b: &Tet) -> bool
    ensures { result ≡ list_any (λ n. is_apart n a.now.corners b.now.corners) axes }
{
    are_apart(&xs(a), &xs(b)) || are_apart(&ys(a), &ys(b)) || are_apart(&zs(a), &zs(b))
}

/// The values of a form at the corners.
fn values(n: Form, tet: &Tet) -> [i128; 4]
    ensures { result ≡ map (dot n) tet.now.corners }
{
    let [a, b, c, d] = tet.corners();
    [n.at(a), n.at(b), n.at(c), n.at(d)]
}

/// Whether this form separates them.
fn is_apart(n: Form, a: &Tet, b: &Tet) -> bool
    ensures { result ≡ is_apart n a.now.corners b.now.corners }
{
    !n.is_zero() && are_apart(&values(n, a), &values(n, b))
}

fn normal_of(face: [Place; 3]) -> Form
    ensures { result ≡ normal_of face }
{
    let [a, b, c] = face;
    normal(a, b, c)
}

/// The vector along an edge.
fn step_of(edge: [Place; 2]) -> Vector
    ensures { result ≡ step_of edge }
{
    let [a, b] = edge;
    Vector::from_to(a, b)
}

/// The normals of the faces of a tetrahedron.
fn normals(tet: &Tet) -> [Form; 4]
    ensures { result ≡ normals_of tet.now.corners }
{
    let [a, b, c, d] = tet.faces();
    [normal_of(a), normal_of(b), normal_of(c), normal_of(d)]
}

/// The vectors along the edges of a tetrahedron.
fn steps(tet: &Tet) -> [Vector; 6]
    ensures { result ≡ steps_of tet.now.corners }
{
    let [a, b, c, d, e, f] = tet.edges();
    [
        step_of(a),
        step_of(b),
        step_of(c),
        step_of(d),
        step_of(e),
        step_of(f),
    ]
}

/// Whether one of these forms separates them.
fn are_apart_by(forms: &[Form], a: &Tet, b: &Tet) -> bool
    ensures { result ≡ list_any (λ n. is_apart n a.now.corners b.now.corners) forms.now }
{
    forms.iter().any(|n| is_apart(*n, a, b))
}

/// Whether the cross product of `u` with one of the others separates them.
fn are_apart_by_product(u: &Vector, vs: &[Vector], a: &Tet, b: &Tet) -> bool
    ensures { result ≡ list_any (λ v. is_apart (cross u.now v) a.now.corners b.now.corners) vs.now }
{
    vs.iter().any(|v| is_apart(u.cross(v), a, b))
}

/// Whether the cross product of a vector of the one list with one of the other separates them.
fn are_apart_by_products(us: &[Vector], vs: &[Vector], a: &Tet, b: &Tet) -> bool
    ensures { result ≡ list_any (λ u. list_any (λ v. is_apart (cross u v) a.now.corners b.now.corners) vs.now) us.now }
{
    us.iter().any(|u| are_apart_by_product(u, vs, a, b))
}

/// Whether the normal of a face separates them.
fn are_apart_by_faces(a: &Tet, b: &Tet) -> bool
    ensures { result ≡ list_any (λ n. is_apart n a.now.corners b.now.corners) (normals_of a.now.corners ++ normals_of b.now.corners) }
{
    are_apart_by(&normals(a), a, b) || are_apart_by(&normals(b), a, b)
}

/// Whether the cross product of an edge of the one with an edge of the other separates them.
fn are_apart_by_edges(a: &Tet, b: &Tet) -> bool
    ensures { result ≡ list_any (λ n. is_apart n a.now.corners b.now.corners) (products (steps_of a.now.corners) (steps_of b.now.corners)) }
{
    are_apart_by_products(&steps(a), &steps(b), a, b)
}

/// Whether a form other than the coordinates separates them.
fn are_apart_aslant(a: &Tet, b: &Tet) -> bool
    ensures { result ≡ list_any (λ n. is_apart n a.now.corners b.now.corners) (slants a.now.corners b.now.corners) }
{
    are_apart_by_faces(a, b) || are_apart_by_edges(a, b)
}

/// Whether a linear form separates two tetrahedra: a coordinate, the normal of a face, or the cross
/// product of an edge of the one with an edge of the other. They may touch. Exact, and takes no
/// memory.
pub fn separated(a: &Tet, b: &Tet) -> bool
    ensures { result ≡ are_separated a.now.corners b.now.corners }
{
    are_apart_along_an_axis(a, b) || are_apart_aslant(a, b)
}
