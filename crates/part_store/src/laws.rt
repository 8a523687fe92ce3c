//! Laws, each the contract of a function that does nothing.
ghost use Rattle.part_store.specs.Agreement.{ViewsAgree};

/// What any two parts see of one mesh is in agreement.
pub fn views_agree()
    ensures { ViewsAgree }
{}
