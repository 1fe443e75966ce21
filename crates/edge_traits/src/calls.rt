ghost use Rattle.std.specs.Prelude.{◌≡◌, []};
ghost use Rattle.edge_traits.specs.Calls.{is_in, names_next, one_more, failed_calls};

use farm_types::Items;

/// Numbers of calls, from 1.
pub type CallNumbers = Items<u64>;

/// How many calls were made, and how many of them failed: exactly those whose number is in the list.
#[derive(Drop)]
pub struct Calls {
    pub fails: CallNumbers,
    pub made: u64,
    pub faults: u64,
    ghost counted: { faults ≡ failed_calls fails made },
}

impl Calls {
    /// How many of the calls failed.
    pub fn faults(&self) -> u64
        ensures { result ≡ failed_calls self.now.fails self.now.made }
    {
        self.faults
    }

    pub fn new(fails: CallNumbers) -> Calls
        ensures fails { result.fails ≡ fails }
        ensures made { result.made ≡ 0 }
    {
        Calls {
            fails,
            made: 0,
            faults: 0,
        }
    }

    /// A count before any call, with an empty list: no call fails.
    pub fn without_fails(self) -> Calls
        ensures fails { result.fails ≡ [] }
        ensures made { result.made ≡ 0 }
    {
        Calls::new(none_of(self.fails))
    }

    /// Whether the list has the number of the next call.
    pub fn names(&self, numbers: &CallNumbers) -> bool
        ensures { result ≡ names_next numbers.now self.now.made }
    {
        self.made < u64::MAX && has_number(numbers, self.made + 1)
    }

    /// Counts a call, and answers whether it fails.
    #[tactic(auto, using(crate::proofs::Counting::counting))]
    pub fn fails_next(&mut self) -> bool
        ensures answer { result ≡ names_next self.old.fails self.old.made }
        ensures fails { self.new.fails ≡ self.old.fails }
        ensures made { self.new.made ≡ one_more self.old.made }
    {
        if self.made == u64::MAX {
            return false;
        }
        self.made += 1;
        if has_number(&self.fails, self.made) {
            self.faults += 1;
            return true;
        }
        false
    }
}

/// Whether the list has the number.
fn has_number(numbers: &CallNumbers, number: u64) -> bool
    ensures { result ≡ is_in number numbers.now }
{
    numbers.as_slice().contains(&number)
}

/// One more, up to the greatest u64.
pub fn raised(count: u64) -> u64
    ensures { result ≡ one_more count }
{
    count.saturating_add(1)
}

/// No numbers, in the memory that some had.
pub fn none_of(numbers: CallNumbers) -> CallNumbers
    ensures { result ≡ [] }
{
    let mut stored = numbers.into_vec();
    stored.clear();
    Items::from_vec(stored)
}
