//! The laws, each the contract of a function that does nothing.
ghost use Rattle.goal_depth.specs.Law.{FormsAreShallow, ListsAreShallow, CanBeNamed};

/// Where it is defined, the canonical form of a formula that is within the limits on depth is within them.
pub fn forms_are_shallow()
    ensures { FormsAreShallow }
{}

/// Where it is defined, the canonical list of formulas that are within the limits on depth is within them.
pub fn lists_are_shallow()
    ensures { ListsAreShallow }
{}

/// A formula that is within the limits on depth can be named by a line of a certificate.
pub fn can_be_named()
    ensures { CanBeNamed }
{}
