//! What holds of every run of the desk.
ghost use Rattle.slot_desk.specs.Laws.{AreServedInOrder, BrokenIsNotUsed, HereOnlyWithoutHosts, LentAsTold, LoansAgree, NobodyWaitsBesideALocalSlot, NobodyWaitsBesideASlot, ServedIfNothingIsLent, WithinHoldsNothing};

/// After every run each entry's slots that are given out are the loans of it, never more than its limit, and the same for local
/// slots.
pub fn loans_agree()
    ensures { LoansAgree }
{}

/// What is lent to a caller is what it was given last, until it ended.
pub fn lent_as_told()
    ensures { LentAsTold }
{}

/// Callers that asked for a local slot are given one in the order in which they asked, those that asked for a host the same, and none more
/// often than it asked.
pub fn served_in_order()
    ensures { AreServedInOrder }
{}

/// A host whose exchange broke is given to nobody before the period has passed.
pub fn broken_is_not_used()
    ensures { BrokenIsNotUsed }
{}

/// Nobody waits while a host that may be used has a free slot, and nobody waits for a local slot while one is free.
pub fn nobody_waits_beside_a_slot()
    ensures hosts { NobodyWaitsBesideASlot }
    ensures local { NobodyWaitsBesideALocalSlot }
{}

/// A caller that asked for a host is lent `Here` only if no host may be used.
pub fn here_only_without_hosts()
    ensures { HereOnlyWithoutHosts }
{}

/// If nothing is lent, one who waits is given a place.
pub fn served_if_nothing_is_lent()
    ensures { ServedIfNothingIsLent }
{}

/// A caller below one that has a slot is answered at once, and holds none.
pub fn within_holds_nothing()
    ensures { WithinHoldsNothing }
{}
