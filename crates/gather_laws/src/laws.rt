//! Each law is the contract of a function that does nothing.
ghost use Rattle.gather_laws.specs.Gathered.{DeliveriesAreOwed, DeliveriesLeave, NoneIsLeft, PassesAreOne, PassesLead};

/// By the orders that came, a part delivers to each part what it owes it.
pub fn deliveries_are_owed()
    ensures { DeliveriesAreOwed }
{}

/// All deliveries leave it its tetrahedra and marks of the mesh after the pass.
pub fn deliveries_leave()
    ensures { DeliveriesLeave }
{}

/// Without labels, this is the mesh that the pass leaves.
pub fn passes_are_one()
    ensures { PassesAreOne }
{}

/// It is a labelled mesh, and the parts carry its marks.
pub fn passes_lead()
    ensures { PassesLead }
{}

/// None of its tetrahedra has a vertex that was taken away.
pub fn none_is_left()
    ensures { NoneIsLeft }
{}
