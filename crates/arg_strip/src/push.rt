//! A list that may grow by one.

ghost use Rattle.std.specs.Prelude.{◌≡◌, ◌++◌, OnErr, OnOk};
ghost use Rattle.std.specs.Option.{option_to_list};

use farm_types::Items;
use std::alloc::AllocError;

// Adds the item, if there is one, at the end.
pub(crate) fn push_some<T: Drop>(list: &mut Items<T>, item: Option<T>) -> Result<(), AllocError>
    ensures ok { OnOk result (list.new ≡ list.old ++ option_to_list item) }
    ensures err { OnErr result (list.new ≡ list.old) }
{
    match item {
        Some(item) => list.try_push(item),
        None => Ok(()),
    }
}
