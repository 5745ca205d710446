//! The laws. The functions have no bodies: each stands for its clause.

ghost use Rattle.machine_laws.specs.GoingOn.{CallsThatFitAreDecided, EndsAreThere, GrantsAreThere, PassagesAreDecided};

/// Values pass from one domain to another, or one of the two reasons keeps them.
pub fn passages_are_decided()
    ensures { PassagesAreDecided }
{}

/// A call through a capability enters or is refused, where its arguments are wholly there and what arrives fits the locals of the target.
pub fn calls_that_fit_are_decided()
    ensures { CallsThatFitAreDecided }
{}

/// Each request is granted or denied.
pub fn grants_are_there()
    ensures { GrantsAreThere }
{}

/// Each live domain can end.
pub fn ends_are_there()
    ensures { EndsAreThere }
{}
