//! Laws over definitions alone: each function is empty, and its contract is the law.

ghost use Rattle.bk_order.specs.Order.{MasksAreOrdered, ObligationsGoDown, FlowIsMonotone, AcceptedImagesCarry};

/// Masks are ordered by `within`, with the union as the least mask above two. What is owed at an instruction, and met by a mask, is met
/// by each mask below it. Where an edge of a mask exists, it exists of each mask above, and leads over it. Obligations and edges do so
/// too for a mask that fits another, which in Closing leaves out owner, others and victim.
pub fn masks()
    ensures ordered { MasksAreOrdered }
    ensures obligations { ObligationsGoDown }
    ensures flow { FlowIsMonotone }
{}

/// In an accepted image a mask that fits the sets of a place meets the obligations there, and what its edge leads to fits the sets of the
/// next place, or of the target, where an instruction stands.
pub fn accepted_images()
    ensures carry { AcceptedImagesCarry }
{}
