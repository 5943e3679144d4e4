//! The law of the places that plans name.
ghost use Rattle.kind_plans.specs.Standing.{NamedKindsStandBefore};

/// Over a good order each kind that a component names has its place before the component, so that none counts as the kind Node.
pub fn named_kinds_stand_before()
    ensures { NamedKindsStandBefore }
{}
