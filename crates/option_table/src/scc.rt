//! The options of the sample compiler's command line.

ghost use Rattle.std.specs.Prelude.{◌≡◌};
ghost use Rattle.option_table.specs.Scc.{scc_rows};

use crate::held::Held;
use crate::index::LETTERS;
use crate::row::{ConstantRow, Effect, Form, rows};
use crate::table::OptionTable;

/// The table of the sample compiler's options, as docs/command-words.md lists them. It is a constant.
pub fn scc_table() -> OptionTable<6>
    ensures { result ≡ scc_rows }
{
    OptionTable {
        held: Held::Constant {
            rows: &ROWS,
            places: &PLACES,
            starts: &STARTS,
        },
    }
}

static ROWS: [ConstantRow; 6] = rows! {
    "-I" Either Strip;
    "-D" Either Strip;
    "-o" Next Output;
    "-E" None Action;
    "-c" None Action;
    "-S" None Action;
};

// The places of the rows, sorted; `tools/option-index` prints them.
static PLACES: [u32; 6] = [1, 3, 0, 5, 4, 2];

// The place at which the span of each second byte starts; `tools/option-index` prints them.
static STARTS: [u32; LETTERS] = [
    0, 0, 0, 0, 0, 0, 0, 0, 0, 0, 0, 0, 0, 0, 0, 0, 0, 0, 0, 0, 0, 0, 0, 0, 0, 0, 0, 0, 0, 0, 0, 0,
    0, 0, 0, 0, 0, 0, 0, 0, 0, 0, 0, 0, 0, 0, 0, 0, 0, 0, 0, 0, 0, 0, 0, 0, 0, 0, 0, 0, 0, 0, 0, 0,
    0, 0, 0, 0, 0, 1, 2, 2, 2, 2, 3, 3, 3, 3, 3, 3, 3, 3, 3, 3, 4, 4, 4, 4, 4, 4, 4, 4, 4, 4, 4, 4,
    4, 4, 4, 4, 5, 5, 5, 5, 5, 5, 5, 5, 5, 5, 5, 5, 6, 6, 6, 6, 6, 6, 6, 6, 6, 6, 6, 6, 6, 6, 6, 6,
    6, 6, 6, 6, 6, 6, 6, 6, 6, 6, 6, 6, 6, 6, 6, 6, 6, 6, 6, 6, 6, 6, 6, 6, 6, 6, 6, 6, 6, 6, 6, 6,
    6, 6, 6, 6, 6, 6, 6, 6, 6, 6, 6, 6, 6, 6, 6, 6, 6, 6, 6, 6, 6, 6, 6, 6, 6, 6, 6, 6, 6, 6, 6, 6,
    6, 6, 6, 6, 6, 6, 6, 6, 6, 6, 6, 6, 6, 6, 6, 6, 6, 6, 6, 6, 6, 6, 6, 6, 6, 6, 6, 6, 6, 6, 6, 6,
    6, 6, 6, 6, 6, 6, 6, 6, 6, 6, 6, 6, 6, 6, 6, 6, 6, 6, 6, 6, 6, 6, 6, 6, 6, 6, 6, 6, 6, 6, 6, 6,
    6,
];
