ghost use Rattle.std.specs.Prelude.{◌≡◌};
ghost use Rattle.edge_traits.specs.Calls.{one_more};

use edge_traits::raised;

/// Counts one more, up to the greatest u64.
pub fn raise(count: &mut u64)
    ensures { count.new ≡ one_more count.old }
{
    *count = raised(*count);
}
