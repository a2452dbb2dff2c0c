ghost use Rattle.bk_lce.specs.Laws.{StoresSoleCopies, TouchesOneSet};

/// What the table means: a store writes at once only a copy in `E` or `M`, and no operation or message
/// changes a set other than that of the block that it is about.
pub fn laws()
    ensures store { StoresSoleCopies }
    ensures one_set { TouchesOneSet }
{}
