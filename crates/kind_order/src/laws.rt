//! The law of the order of components.
ghost use Rattle.std.specs.Prelude.{List};
ghost use Rattle.folder_rules.specs.declared.component.PathedComponent.{PathedComponent};
ghost use Rattle.kind_order.specs.GoodOrder.{HasNoCycle, IsGoodOrder};
ghost use Rattle.kind_order.specs.Order.{kind_order};

/// Where no component is reached from itself, each stands once in the order, behind its base and the kinds of its child elements where those are
/// components.
pub fn order_is_good()
    ensures { (components : List PathedComponent) → HasNoCycle components → IsGoodOrder components (kind_order components) }
{}
