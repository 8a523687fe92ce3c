//! Laws of inside, cover and soundness, each the contract of a function that does nothing.
ghost use Rattle.ma_cover.specs.Laws.{BisectionKeepsCover, InsideIsOffFaces, LocationIsOne, OffPiecesIsOffWhole, OrderOfCornersIsFree, PiecesAreTetrahedra, SoundInAnyOrder};

/// The order of the corners doesn't matter to what is within a tetrahedron.
pub fn order_of_corners_is_free()
    ensures { OrderOfCornersIsFree }
{}

/// What is within a tetrahedron is on none of its closed faces.
pub fn inside_is_off_faces()
    ensures { InsideIsOffFaces }
{}

/// The pieces of a tetrahedron are tetrahedra.
pub fn pieces_are_tetrahedra()
    ensures { PiecesAreTetrahedra }
{}

/// Bisecting all tetrahedra of a list at an edge keeps their cover, of one region or of all.
pub fn bisection_keeps_cover()
    ensures { BisectionKeepsCover }
{}

/// What is off the closed faces of the pieces is off those of the whole.
pub fn off_pieces_is_off_whole()
    ensures { OffPiecesIsOffWhole }
{}

/// Soundness doesn't depend on the order of the tetrahedra.
pub fn sound_in_any_order()
    ensures { SoundInAnyOrder }
{}

/// What is found of a point is one thing: the relation that `locate` keeps has one answer.
pub fn location_is_one()
    ensures { LocationIsOne }
{}
