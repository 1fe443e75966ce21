//! What holds of every legal history of calls.
ghost use Rattle.slot_table.specs.Laws.{StateAgrees, DrawsInOrder, HoldsByOwnCalls, PermittedSteps, FreeWhereAllIsBack, TakesTell};

/// What the reply to a take says of the entries in its mask, in any state. One that is got is below its limit and not in back-off. The
/// reply is Down exactly if each of them is in back-off. If it is Full, each one that isn't in back-off has at least as many slots given out
/// as its limit.
pub fn takes_tell()
    ensures { TakesTell }
{}

/// What is outstanding to a caller depends only on its own calls.
pub fn holds_by_own_calls()
    ensures { HoldsByOwnCalls }
{}

/// After every legal history each entry's slots that are given out are its outstanding grants, never more
/// than its limit, and the same for local slots. A local entry is never in back-off.
pub fn state_agrees()
    ensures { StateAgrees }
{}

/// The jobs that a legal history draws are 0 to the state's `next` less 1, in order, each once.
pub fn draws_in_order()
    ensures { DrawsInOrder }
{}

/// After a legal history each call that a caller may make can step, and the history with it is legal.
pub fn permitted_steps()
    ensures { PermittedSteps }
{}

/// After a legal history with nothing outstanding no take is answered Full, and no local slot is refused.
pub fn free_where_all_is_back()
    ensures { FreeWhereAllIsBack }
{}
