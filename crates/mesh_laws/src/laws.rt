//! Each law is the contract of a function that does nothing.
ghost use Rattle.mesh_laws.specs.Adapted.{AdaptedComposes, SoundIsAdapted};
ghost use Rattle.mesh_laws.specs.Covers.{CoverStaysAtMost, RegionsGiveCover, SameCoverIsHandedOn, SameCoverStaysAtMost};
ghost use Rattle.mesh_laws.specs.FivePlaces.{FivePlacesCancel};
ghost use Rattle.mesh_laws.specs.Parity.{HoldersAreListings, SameOddlyPassOddly};
ghost use Rattle.mesh_laws.specs.Points.{OnlyPointsAreInside, PointsMoveOffFaces, PointsMoveOffPlanes};
ghost use Rattle.mesh_laws.specs.Sides.{NoFaceHasThree, OnceLieOnBothSides, OneSideHasCommonPoint, TetrahedronHasPoint};
ghost use Rattle.mesh_laws.specs.Sounds.{ConformingFaceHasTwo, ConformingIsListedOnce, ConformingOddAreMarked, OddMarkedIsSound, SameCoverStaysSound, SoundAsSets, SoundCoversOnce};

/// A point can be moved off planes, and keeps the strict sides that it has.
pub fn points_move_off_planes()
    ensures { PointsMoveOffPlanes }
{}

/// It can be moved off closed faces too, and stays within tetrahedra or without.
pub fn points_move_off_faces()
    ensures { PointsMoveOffFaces }
{}

/// Only what stands for a point is within a tetrahedron.
pub fn only_points_are_inside()
    ensures { OnlyPointsAreInside }
{}

/// What the five tetrahedra of five places enclose cancels.
pub fn five_places_cancel()
    ensures { FivePlacesCancel }
{}

/// A bound of the cover off closed faces bounds it on them too.
pub fn cover_stays_at_most()
    ensures { CoverStaysAtMost }
{}

/// The same cover is handed on from list to list.
pub fn same_cover_is_handed_on()
    ensures { SameCoverIsHandedOn }
{}

/// The covers of all regions give that of whichever together.
pub fn regions_give_cover()
    ensures { RegionsGiveCover }
{}

/// The same cover has the same bounds.
pub fn same_cover_stays_at_most()
    ensures { SameCoverStaysAtMost }
{}

/// Tetrahedra on one side of a face that they share have a common point, off any planes.
pub fn one_side_has_common_point()
    ensures { OneSideHasCommonPoint }
{}

/// A tetrahedron that isn't flat has a point within it.
pub fn tetrahedron_has_point()
    ensures { TetrahedronHasPoint }
{}

/// Tetrahedra that share a face and no point lie on both sides of it.
pub fn once_lie_on_both_sides()
    ensures { OnceLieOnBothSides }
{}

/// So no face is shared by three.
pub fn no_face_has_three()
    ensures { NoFaceHasThree }
{}

/// What is listed twice falls away, where it matters only whether an odd number of faces pass a test.
pub fn same_oddly_pass_oddly()
    ensures { SameOddlyPassOddly }
{}

/// A face is listed among those of a region as often as tetrahedra have it.
pub fn holders_are_listings()
    ensures { HoldersAreListings }
{}

/// No two tetrahedra of a conforming mesh have the same corners.
pub fn conforming_is_listed_once()
    ensures { ConformingIsListedOnce }
{}

/// At most two of its tetrahedra have a face.
pub fn conforming_face_has_two()
    ensures { ConformingFaceHasTwo }
{}

/// A face that an odd number of the tetrahedra of a region have is marked.
pub fn conforming_odd_are_marked()
    ensures { ConformingOddAreMarked }
{}

/// A sound mesh covers each point at most once.
pub fn sound_covers_once()
    ensures { SoundCoversOnce }
{}

/// It is sound as sets.
pub fn sound_as_sets()
    ensures { SoundAsSets }
{}

/// A mesh without a point within two tetrahedra is sound, if such faces are marked and its marks are on cells.
pub fn odd_marked_is_sound()
    ensures { OddMarkedIsSound }
{}

/// So is one that covers the same as a sound mesh.
pub fn same_cover_stays_sound()
    ensures { SameCoverStaysSound }
{}

/// A sound mesh is adapted as it is.
pub fn sound_is_adapted()
    ensures { SoundIsAdapted }
{}

/// What is adapted in one stage after another is adapted.
pub fn adapted_composes()
    ensures { AdaptedComposes }
{}
