//! Each law is the contract of a function that does nothing.
ghost use Rattle.cavity_marks.specs.MarksLeft.{MarksStayOnCells};

/// In a sound mesh the marks of each chosen cavity, as its operation leaves them, are on cells of
/// what fills it.
pub fn marks_stay_on_cells()
    ensures { MarksStayOnCells }
{}
