//! The spellings of words that reach further than one compile.

ghost use Rattle.std.specs.Prelude.{◌≡◌};
ghost use Rattle.allowed_options.specs.Served.{reaches_out, loads_more, reads_modules, uses_profiles, writes_reports, reads_sanitizer_lists};

use crate::lists::begins;

/// What a word begins with that asks for a part of a compiler or another program that is loaded or run, or words for one.
const LOADED_FRONTS: [&str; 16] = [
    "-fplugin",
    "-fpass-plugin",
    "-mllvm",
    "-mmlir",
    "-Wp,",
    "-Wl,",
    "-Wa,",
    "-fcas-",
    "-fdepscan",
    "-fsycl",
    "-foffload",
    "-fopenmp-targets",
    "-fembed-offload",
    "-gcc-toolchain",
    "-gnat",
    "-ftrapv-handler",
];

/// What a word begins with that asks for modules, other sources, or the next word.
const MODULE_FRONTS: [&str; 17] = [
    "-fmodule",
    "-fprebuilt-",
    "-fimplicit-module",
    "-module",
    "-main-file",
    "-fintrinsic-modules-path",
    "-fpre-include",
    "-fno-preprocessed",
    "-fdirectives-only",
    "-filelist",
    "-frewrite-map-file",
    "-fbuild-session",
    "-meabi",
    "-mthread-model",
    "-mlink-",
    "-fnew-alignment",
    "-fdebug-compilation-dir",
];

/// What a word begins with that asks for profiles and what a program is measured by, or files that link-time optimisation reads.
const PROFILE_FRONTS: [&str; 15] = [
    "-fprofile",
    "-fauto-profile",
    "-fbranch-probabilities",
    "-fmemory-profile-use",
    "-fcs-profile",
    "-fcodegen-data",
    "-fbasic-block-sections=list",
    "-frandomize-layout-seed-file",
    "-fxray-",
    "-ftest-coverage",
    "-fthinlto-index",
    "-fthin-link-bitcode",
    "-fltrans",
    "-fwpa",
    "-fresolution",
];

/// What a word begins with that asks for files beside the object, or a compile that isn't made once.
const REPORT_FRONTS: [&str; 19] = [
    "-fdump-",
    "-gen-",
    "-gsplit-dwarf",
    "-foptimization-record",
    "-fsave-optimization-record",
    "-fproc-stat-report",
    "-fstack-usage",
    "-fcallgraph-info",
    "-ftime-trace",
    "-fdeps-",
    "-fdiagnostics-format=json-file",
    "-fdiagnostics-format=sarif-file",
    "-fdiagnostics-add-output",
    "-fdiagnostics-set-output",
    "-fcrash-diagnostics-dir",
    "-freport-bug",
    "-fself-test",
    "-fcompare-debug",
    "-fvtv-",
];

/// What a word begins with that asks for lists of what a sanitizer leaves out.
const SANITIZER_LIST_FRONTS: [&str; 9] = [
    "-fsanitize-ignorelist",
    "-fsanitize-blacklist",
    "-fsanitize-system-ignorelist",
    "-fsanitize-system-blacklist",
    "-fsanitize-coverage-allowlist",
    "-fsanitize-coverage-ignorelist",
    "-fsanitize-coverage-whitelist",
    "-fsanitize-coverage-blacklist",
    "-fexperimental-sanitize-metadata-ignorelist",
];

/// Whether the word would have a compiler load or run a program, read or write a file beside its source and its object, take the next word, or compile
/// otherwise than once. None of these is let through.
pub fn reaches_out(word: &[u8]) -> bool
    ensures { result ≡ reaches_out word.now }
{
    loads_more(word)
        || reads_modules(word)
        || uses_profiles(word)
        || writes_reports(word)
        || reads_sanitizer_lists(word)
}

fn loads_more(word: &[u8]) -> bool
    ensures { result ≡ loads_more word.now }
{
    let spellings: [&str; 16] = LOADED_FRONTS;
    begins(spellings.as_slice(), word)
}

fn reads_modules(word: &[u8]) -> bool
    ensures { result ≡ reads_modules word.now }
{
    let spellings: [&str; 17] = MODULE_FRONTS;
    begins(spellings.as_slice(), word)
}

fn uses_profiles(word: &[u8]) -> bool
    ensures { result ≡ uses_profiles word.now }
{
    let spellings: [&str; 15] = PROFILE_FRONTS;
    begins(spellings.as_slice(), word)
}

fn writes_reports(word: &[u8]) -> bool
    ensures { result ≡ writes_reports word.now }
{
    let spellings: [&str; 19] = REPORT_FRONTS;
    begins(spellings.as_slice(), word)
}

fn reads_sanitizer_lists(word: &[u8]) -> bool
    ensures { result ≡ reads_sanitizer_lists word.now }
{
    let spellings: [&str; 9] = SANITIZER_LIST_FRONTS;
    begins(spellings.as_slice(), word)
}
