use crate::option_rows::{LATER_FORMS, LATER_LONGEST};
use crate::same::{same, same_bytes};
use farm_types::Bytes;
use option_table::{
    Effect, Form, Found, GCC_ROWS, OptionRow, OptionTable, Spelling, TableFault, gcc_table,
    is_listing, scc_table,
};
use std::alloc::{AllocError, Global};
use std::process::Abort;
use std::test::Fail;

/// A word, the row that it fits, and the byte at which its operand begins.
type Fitting = (&'static str, u32, usize);

/// A word, and what is found for it.
type Search = (&'static str, Option<Found>);

const EACH_FORM: &[Fitting] = &[
    ("-c", 0, 2),
    ("-S", 1, 2),
    ("-o", 2, 2),
    ("-o9", 2, 2),
    ("-E", 3, 2),
    ("-M", 4, 2),
    ("-MM", 5, 3),
    ("-MD", 6, 3),
    ("-MMD", 7, 4),
    ("-MP", 8, 3),
    ("-MG", 9, 3),
    ("-MF", 10, 3),
    ("-MF9", 10, 3),
    ("-MT", 11, 3),
    ("-MT9", 11, 3),
    ("-MQ", 12, 3),
    ("-MQ9", 12, 3),
    ("-D", 13, 2),
    ("-D9", 13, 2),
    ("-U", 14, 2),
    ("-U9", 14, 2),
    ("-I", 15, 2),
    ("-I9", 15, 2),
    ("-A", 16, 2),
    ("-A9", 16, 2),
    ("-include", 17, 8),
    ("-include9", 17, 8),
    ("-imacros", 18, 8),
    ("-imacros9", 18, 8),
    ("-iprefix", 19, 8),
    ("-iprefix9", 19, 8),
    ("-iwithprefix", 20, 12),
    ("-iwithprefix9", 20, 12),
    ("-iwithprefixbefore", 21, 18),
    ("-iwithprefixbefore9", 21, 18),
    ("-isystem", 22, 8),
    ("-isystem9", 22, 8),
    ("-iquote", 23, 7),
    ("-iquote9", 23, 7),
    ("-idirafter", 24, 10),
    ("-idirafter9", 24, 10),
    ("-isysroot", 25, 9),
    ("-isysroot9", 25, 9),
    ("-undef", 26, 6),
    ("-nostdinc", 27, 9),
    ("-nostdinc++", 28, 11),
    ("-Wp,", 29, 4),
    ("-Wp,9", 29, 4),
    ("-Xpreprocessor", 30, 14),
    ("-L", 31, 2),
    ("-L9", 31, 2),
    ("-l", 32, 2),
    ("-l9", 32, 2),
    ("-Wl,", 33, 4),
    ("-Wl,9", 33, 4),
    ("-Xlinker", 34, 8),
    ("-T", 35, 2),
    ("-T9", 35, 2),
    ("-u", 36, 2),
    ("-z", 37, 2),
    ("-B", 38, 2),
    ("-B9", 38, 2),
    ("--param", 39, 7),
    ("-target", 40, 7),
    ("-mllvm", 41, 6),
    ("-march=native", 42, 13),
    ("-mtune=native", 43, 13),
    ("-mcpu=native", 44, 12),
    ("-fprofile", 45, 9),
    ("-fprofile9", 45, 9),
    ("-ftest-coverage", 46, 15),
    ("--coverage", 47, 10),
    ("-frepo", 48, 6),
    ("-specs=", 49, 7),
    ("-specs=9", 49, 7),
    ("-x", 50, 2),
    ("-x9", 50, 2),
    ("-save-temps", 51, 11),
    ("-save-temps9", 51, 11),
    ("-d", 52, 2),
    ("-d9", 52, 2),
    ("-fdump-", 53, 7),
    ("-fdump-9", 53, 7),
    ("-Wa,", 54, 4),
    ("-Wa,9", 54, 4),
    ("-Xassembler", 55, 11),
    ("-gsplit-dwarf", 56, 13),
    ("-fplugin", 57, 8),
    ("-fplugin9", 57, 8),
    ("-fsyntax-only", 58, 13),
    ("-fmodules", 59, 9),
    ("-fmodules9", 59, 9),
    ("-wrapper", 60, 8),
    ("-aux-info", 61, 9),
    ("-Xclang", 62, 7),
    ("-arch", 63, 5),
];

const LONGEST: &[Fitting] = &[
    ("-iwithprefixbeforep", 21, 18),
    ("-iwithprefixbefor", 20, 12),
    ("-include", 17, 8),
    ("-includes", 17, 8),
    ("-MFMT", 10, 3),
    ("-MD", 6, 3),
    ("-nostdinc++", 28, 11),
    ("-fdump-rtl", 53, 7),
    ("-dump", 52, 2),
    ("-specs=x", 49, 7),
];

const OTHERS: &[&str] = &[
    "",
    "-",
    "c",
    "x.c",
    "-cc",
    "-E9",
    "-O2",
    "-Wall",
    "-std=c11",
    "-pipe",
    "-g",
    "-march=i386",
    "-target=x",
    "-z9",
    "-wrappers",
];

const SAMPLE_COMPILER: &[Search] = &[
    ("-I", Some(Found { row: 0, joined: 2 })),
    ("-Idir", Some(Found { row: 0, joined: 2 })),
    ("-DN=V", Some(Found { row: 1, joined: 2 })),
    ("-o", Some(Found { row: 2, joined: 2 })),
    ("-ox", None),
    ("-E", Some(Found { row: 3, joined: 2 })),
    ("-c", Some(Found { row: 4, joined: 2 })),
    ("-S", Some(Found { row: 5, joined: 2 })),
    ("-O2", None),
    ("-", None),
];

fn expect_found<R: Abort, const N: usize>(
    rt: &R,
    alloc: Global,
    table: &OptionTable<N>,
    word: &str,
    found: Option<Found>,
) -> Result<(), AllocError> {
    let text = Bytes::from_slice(alloc, word.as_bytes())?;
    same(rt, &table.find(&text), &found, &word);
    Ok(())
}

fn expect_fitting<R: Abort, const N: usize>(
    rt: &R,
    alloc: Global,
    table: &OptionTable<N>,
    rows: &[Fitting],
) -> Result<(), Fail> {
    for (word, row, joined) in rows {
        let found = Found {
            row: *row,
            joined: *joined,
        };
        expect_found(rt, alloc, table, word, Some(found))?;
    }
    Ok(())
}

fn expect_searches<R: Abort, const N: usize>(
    rt: &R,
    alloc: Global,
    table: &OptionTable<N>,
    rows: &[Search],
) -> Result<(), Fail> {
    for (word, found) in rows {
        expect_found(rt, alloc, table, word, *found)?;
    }
    Ok(())
}

fn expect_none<R: Abort, const N: usize>(
    rt: &R,
    alloc: Global,
    table: &OptionTable<N>,
    words: &[&str],
) -> Result<(), Fail> {
    for word in words {
        expect_found(rt, alloc, table, word, None)?;
    }
    Ok(())
}

#[test]
fn each_row_fits_in_each_of_its_forms(rt: HostRuntime) -> Result<(), Fail> {
    expect_fitting(&rt, rt.alloc(), &gcc_table(), EACH_FORM)
}

#[test]
fn each_later_row_fits_in_each_of_its_forms(rt: HostRuntime) -> Result<(), Fail> {
    expect_fitting(&rt, rt.alloc(), &gcc_table(), LATER_FORMS)
}

#[test]
fn other_words_fit_no_row(rt: HostRuntime) -> Result<(), Fail> {
    expect_none(&rt, rt.alloc(), &gcc_table(), OTHERS)
}

#[test]
fn the_longest_spelling_fits(rt: HostRuntime) -> Result<(), Fail> {
    expect_fitting(&rt, rt.alloc(), &gcc_table(), LONGEST)?;
    expect_fitting(&rt, rt.alloc(), &gcc_table(), LATER_LONGEST)
}

#[test]
fn the_sample_compilers_options(rt: HostRuntime) -> Result<(), Fail> {
    expect_searches(&rt, rt.alloc(), &scc_table(), SAMPLE_COMPILER)
}

/// A place in the table, and the row there.
type Placed = (u32, &'static str, Form, Effect);

const PLACED: &[Placed] = &[
    (0, "-c", Form::None, Effect::Action),
    (2, "-o", Form::Either, Effect::Output),
    (21, "-iwithprefixbefore", Form::Either, Effect::Strip),
    (54, "-Wa,", Form::Joined, Effect::Listing),
    (63, "-arch", Form::Next, Effect::Local(21)),
    (64, "--", Form::Joined, Effect::Local(21)),
    (212, "-F", Form::Joined, Effect::Strip),
];

fn expect_row<R: Abort>(rt: &R, row: &OptionRow, placed: &Placed) {
    let (at, spelling, form, effect) = placed;
    same_bytes(rt, row.spelling.as_slice(), spelling.as_bytes(), at);
    same(rt, &row.form, form, at);
    same(rt, &row.effect, effect, at);
}

fn expect_rows<R: Abort>(
    rt: &R,
    table: &OptionTable<GCC_ROWS>,
    rows: &[Placed],
) -> Result<(), Fail> {
    for placed in rows {
        if placed.0 as usize >= GCC_ROWS {
            return Err("the table has no such row".into());
        }
        expect_row(rt, &table.row(placed.0), placed);
    }
    Ok(())
}

#[test]
fn rows_are_copied(rt: HostRuntime) -> Result<(), Fail> {
    expect_rows(&rt, &gcc_table(), PLACED)
}

#[test]
fn spellings(rt: HostRuntime) {
    let text = b"-an-option-of-23-bytes.";
    let longest = Spelling::new(text);
    same(&rt, &longest.len(), &23, &"the longest");
    same_bytes(&rt, longest.copy().as_slice(), text, &"a copy");
    let row = OptionRow::new("", Form::None, Effect::Keep);
    same(&rt, &row.copy().spelling.len(), &0, &"an empty one");
}

/// A word, and whether it asks for a listing.
type Listing = (&'static str, bool);

const LISTINGS: &[Listing] = &[
    ("-Wa,-a", true),
    ("-Wa,-ahl=x.lst", true),
    ("-Wa,--MD,x.d", true),
    ("-Wa,--noexecstack", false),
    ("-Wa,-W", false),
    ("-Wa,a", false),
    ("-Wa,", false),
];

fn expect_listings<R: Abort>(rt: &R, alloc: Global, rows: &[Listing]) -> Result<(), Fail> {
    for (word, wanted) in rows {
        let text = Bytes::from_slice(alloc, word.as_bytes())?;
        same(rt, &is_listing(&text), wanted, word);
    }
    Ok(())
}

#[test]
fn listings(rt: HostRuntime) -> Result<(), Fail> {
    expect_listings(&rt, rt.alloc(), LISTINGS)
}

/// Three spellings, and why their rows make no table.
type Wrong = ([&'static str; 3], Option<TableFault>);

const WRONG: &[Wrong] = &[
    (
        ["-c", "-o", "-c"],
        Some(TableFault::Doubled {
            first: 0,
            second: 2,
        }),
    ),
    (
        ["-c", "-c", "-c"],
        Some(TableFault::Doubled {
            first: 0,
            second: 1,
        }),
    ),
    (
        ["x", "-o", "x"],
        Some(TableFault::Doubled {
            first: 0,
            second: 2,
        }),
    ),
    (["-c", "x", ""], Some(TableFault::Short { row: 1 })),
    (["-c", "-o", "-b"], None),
];

fn plain(spelling: &str) -> Result<OptionRow, Fail> {
    if spelling.len() > 23 {
        return Err("a spelling has at most 23 bytes".into());
    }
    Ok(OptionRow::new(spelling, Form::None, Effect::Keep))
}

fn fault_of(spellings: &[&str; 3]) -> Result<Option<TableFault>, Fail> {
    let [first, second, third] = spellings;
    let made = OptionTable::new([plain(first)?, plain(second)?, plain(third)?]);
    Ok(made.err())
}

fn expect_wrong<R: Abort>(rt: &R, rows: &[Wrong]) -> Result<(), Fail> {
    for (spellings, fault) in rows {
        same(rt, &fault_of(spellings)?, fault, spellings);
    }
    Ok(())
}

#[test]
fn rows_that_make_no_table(rt: HostRuntime) -> Result<(), Fail> {
    expect_wrong(&rt, WRONG)?;
    let two = OptionTable::new([plain("-c")?, plain("x")?]);
    let short = TableFault::Short { row: 1 };
    same(&rt, &two.err(), &Some(short), &"two rows");
    Ok(())
}
