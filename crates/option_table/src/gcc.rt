//! The options of gcc's and clang's command lines.

ghost use Rattle.std.specs.Prelude.{◌≡◌};
ghost use Rattle.option_table.specs.Gcc.{gcc_rows};

use crate::held::Held;
use crate::index::LETTERS;
use crate::reasons;
use crate::row::{ConstantRow, Effect, Form, rows};
use crate::table::OptionTable;

/// The number of the rows of `gcc_table`.
pub const GCC_ROWS: usize = 213;

/// The table of gcc's and clang's options, as docs/command-words.md lists them. It is a constant.
pub fn gcc_table() -> OptionTable<GCC_ROWS>
    ensures { result ≡ gcc_rows }
{
    OptionTable {
        held: Held::Constant {
            rows: &ROWS,
            places: &PLACES,
            starts: &STARTS,
        },
    }
}

static ROWS: [ConstantRow; GCC_ROWS] = rows! {
    "-c" None Action;
    "-S" None Action;
    "-o" Either Output;
    "-E" None Local(reasons::PREPROCESS);
    "-M" None Local(reasons::DEPEND);
    "-MM" None Local(reasons::DEPEND);
    "-MD" None Strip;
    "-MMD" None Strip;
    "-MP" None Strip;
    "-MG" None Strip;
    "-MF" Either Strip;
    "-MT" Either Strip;
    "-MQ" Either Strip;
    "-D" Either Strip;
    "-U" Either Strip;
    "-I" Either Strip;
    "-A" Either Strip;
    "-include" Either Strip;
    "-imacros" Either Strip;
    "-iprefix" Either Strip;
    "-iwithprefix" Either Strip;
    "-iwithprefixbefore" Either Strip;
    "-isystem" Either Strip;
    "-iquote" Either Strip;
    "-idirafter" Either Strip;
    "-isysroot" Either Strip;
    "-undef" None Strip;
    "-nostdinc" None Strip;
    "-nostdinc++" None Strip;
    "-Wp," Joined Strip;
    "-Xpreprocessor" Next Strip;
    "-L" Either Strip;
    "-l" Either Strip;
    "-Wl," Joined Strip;
    "-Xlinker" Next Strip;
    "-T" Either Strip;
    "-u" Next Strip;
    "-z" Next Strip;
    "-B" Either Keep;
    "--param" Next Keep;
    "-target" Next Keep;
    "-mllvm" Next Keep;
    "-march=native" None Local(reasons::NATIVE);
    "-mtune=native" None Local(reasons::NATIVE);
    "-mcpu=native" None Local(reasons::NATIVE);
    "-fprofile" Joined Local(reasons::PROFILE);
    "-ftest-coverage" None Local(reasons::PROFILE);
    "--coverage" None Local(reasons::PROFILE);
    "-frepo" None Local(reasons::REPO);
    "-specs=" Joined Local(reasons::SPECS);
    "-x" Either Local(reasons::LANGUAGE);
    "-save-temps" Joined Local(reasons::SAVE_TEMPS);
    "-d" Joined Local(reasons::DUMP);
    "-fdump-" Joined Local(reasons::DUMP);
    "-Wa," Joined Listing;
    "-Xassembler" Next Local(reasons::ASM_LISTING);
    "-gsplit-dwarf" None Local(reasons::SIDE_FILE);
    "-fplugin" Joined Local(reasons::SIDE_FILE);
    "-fsyntax-only" None Local(reasons::SIDE_FILE);
    "-fmodules" Joined Local(reasons::SIDE_FILE);
    "-wrapper" Next Local(reasons::SIDE_FILE);
    "-aux-info" Next Local(reasons::SIDE_FILE);
    "-Xclang" Next Local(reasons::SIDE_FILE);
    "-arch" Next Local(reasons::SIDE_FILE);
    // Words with two dashes.
    "--" Joined Local(reasons::SIDE_FILE);
    "--param=" Joined Keep;
    "--sysroot=" Joined Strip;
    "--target=" Joined Keep;
    "--gcc-toolchain=" Joined Keep;
    "--gcc-install-dir=" Joined Keep;
    "--std=" Joined Keep;
    "--stdlib=" Joined Keep;
    "--rtlib=" Joined Keep;
    "--unwindlib=" Joined Keep;
    "--driver-mode=gcc" None Keep;
    "--driver-mode=g++" None Keep;
    "--ansi" None Keep;
    "--pedantic" None Keep;
    "--pedantic-errors" None Keep;
    "--pipe" None Keep;
    "--static" None Keep;
    "--shared" None Keep;
    "--signed-char" None Keep;
    "--unsigned-char" None Keep;
    "--all-warnings" None Keep;
    "--extra-warnings" None Keep;
    "--no-warnings" None Keep;
    "--save-temps" Joined Local(reasons::SAVE_TEMPS);
    "--specs" Joined Local(reasons::SPECS);
    "--config" Joined Local(reasons::SPECS);
    "-specs" Next Local(reasons::SPECS);
    // Words that begin with these letters and aren't known.
    "-a" Joined Local(reasons::SIDE_FILE);
    "-e" Joined Local(reasons::SIDE_FILE);
    "-i" Joined Local(reasons::SIDE_FILE);
    "-X" Joined Local(reasons::SIDE_FILE);
    "-ansi" None Keep;
    "-integrated-as" None Keep;
    "-integrated-cc1" None Keep;
    // Nothing is compiled, or the compiler's own text is printed.
    "-###" None Local(reasons::SIDE_FILE);
    "-help" None Local(reasons::SIDE_FILE);
    "-print-" Joined Local(reasons::SIDE_FILE);
    "-mcpu=help" None Local(reasons::SIDE_FILE);
    "-mtune=help" None Local(reasons::SIDE_FILE);
    "-fdriver-only" None Local(reasons::SIDE_FILE);
    "-v" None Local(reasons::SIDE_FILE);
    "-H" None Local(reasons::SIDE_FILE);
    "-Q" None Local(reasons::SIDE_FILE);
    "-time" Joined Local(reasons::SIDE_FILE);
    "-ftime-report" Joined Local(reasons::SIDE_FILE);
    "-fmem-report" None Local(reasons::SIDE_FILE);
    "-fstats" None Local(reasons::SIDE_FILE);
    "-fpre-ipa-mem-report" None Local(reasons::SIDE_FILE);
    "-fpost-ipa-mem-report" None Local(reasons::SIDE_FILE);
    "-fdbg-cnt" Joined Local(reasons::SIDE_FILE);
    "-mdump-" Joined Local(reasons::SIDE_FILE);
    // A compile of preprocessed text doesn't give the same.
    "-P" None Local(reasons::SIDE_FILE);
    "-C" None Local(reasons::SIDE_FILE);
    "-CC" None Local(reasons::SIDE_FILE);
    "-finput-charset=" Joined Local(reasons::SIDE_FILE);
    "-fno-preprocessed" None Local(reasons::SIDE_FILE);
    "-fdirectives-only" None Local(reasons::SIDE_FILE);
    "-frewrite-" Joined Local(reasons::SIDE_FILE);
    "-fdebug-cpp" None Local(reasons::SIDE_FILE);
    "-fkeep-system-includes" None Local(reasons::SIDE_FILE);
    "-fminimize-whitespace" None Local(reasons::SIDE_FILE);
    "-fdebug-macro" None Local(reasons::SIDE_FILE);
    "-gembed-source" None Local(reasons::SIDE_FILE);
    "-gmodules" None Local(reasons::SIDE_FILE);
    "-frecord-gcc-switches" None Local(reasons::SIDE_FILE);
    "-frecord-command-line" None Local(reasons::SIDE_FILE);
    "-fcanon-prefix-map" None Local(reasons::SIDE_FILE);
    "-fno-working-directory" None Local(reasons::SIDE_FILE);
    "-fsearch-include-path" Joined Local(reasons::SIDE_FILE);
    "-working-directory" Joined Local(reasons::SIDE_FILE);
    "-ObjC" Joined Local(reasons::LANGUAGE);
    "-march=native+" Joined Local(reasons::NATIVE);
    "-mcpu=native+" Joined Local(reasons::NATIVE);
    // Files are written.
    "-gsplit-dwarf=" Joined Local(reasons::SIDE_FILE);
    "-gen-" Joined Local(reasons::SIDE_FILE);
    "-MJ" Either Local(reasons::SIDE_FILE);
    "-fstack-usage" None Local(reasons::SIDE_FILE);
    "-fcallgraph-info" Joined Local(reasons::SIDE_FILE);
    "-fsave-optimization" Joined Local(reasons::SIDE_FILE);
    "-foptimization-record" Joined Local(reasons::SIDE_FILE);
    "-fopt-info" Joined Local(reasons::SIDE_FILE);
    "-ftime-trace" Joined Local(reasons::SIDE_FILE);
    "-fproc-stat-report" Joined Local(reasons::SIDE_FILE);
    "-fthin" Joined Local(reasons::SIDE_FILE);
    "-fdeps-" Joined Local(reasons::SIDE_FILE);
    "-fdepfile-entry=" Joined Local(reasons::SIDE_FILE);
    "-fdiagnostics-format=" Joined Local(reasons::SIDE_FILE);
    "-fdiagnostics-add-outpu" Joined Local(reasons::SIDE_FILE);
    "-fdiagnostics-set-outpu" Joined Local(reasons::SIDE_FILE);
    "-fcrash-diagnostics-dir" Joined Local(reasons::SIDE_FILE);
    "-serialize-diagnostics" Next Local(reasons::SIDE_FILE);
    "-save-stats" Joined Local(reasons::SIDE_FILE);
    "-fcompare-debug" Joined Local(reasons::DUMP);
    "-fvtv-" Joined Local(reasons::DUMP);
    "-coverage" None Local(reasons::PROFILE);
    "-fauto-profile" Joined Local(reasons::PROFILE);
    "-fbranch-probabilities" None Local(reasons::PROFILE);
    "-fmemory-profile" Joined Local(reasons::PROFILE);
    "-fcs-profile-" Joined Local(reasons::PROFILE);
    "-fcondition-coverage" None Local(reasons::PROFILE);
    "-fpath-coverage" Joined Local(reasons::PROFILE);
    // Files are read.
    "-fpass-plugin" Joined Local(reasons::SIDE_FILE);
    "-fself-test" Joined Local(reasons::SIDE_FILE);
    "-fpch-" Joined Local(reasons::SIDE_FILE);
    "-fmodule-" Joined Local(reasons::SIDE_FILE);
    "-fcxx-modules" None Local(reasons::SIDE_FILE);
    "-fimplicit-module" Joined Local(reasons::SIDE_FILE);
    "-fprebuilt-" Joined Local(reasons::SIDE_FILE);
    "-fbuiltin-module-map" None Local(reasons::SIDE_FILE);
    "-fbuild-session-" Joined Local(reasons::SIDE_FILE);
    "-fapinotes" Joined Local(reasons::SIDE_FILE);
    "-fsanitize-ignorelist" Joined Local(reasons::SIDE_FILE);
    "-fsanitize-blacklist" Joined Local(reasons::SIDE_FILE);
    "-fsanitize-system-" Joined Local(reasons::SIDE_FILE);
    "-fsanitize-coverage-" Joined Local(reasons::SIDE_FILE);
    "-fexperimental-sanitize" Joined Local(reasons::SIDE_FILE);
    "-fcodegen-data-" Joined Local(reasons::SIDE_FILE);
    "-frandomize-layout-seed" Joined Local(reasons::SIDE_FILE);
    "-fxray-" Joined Local(reasons::SIDE_FILE);
    "-fbasic-block-sections=" Joined Local(reasons::SIDE_FILE);
    "-fembed-offload" Joined Local(reasons::SIDE_FILE);
    "-fembed-bitcode" Joined Local(reasons::SIDE_FILE);
    "-fopenmp-targets" Joined Local(reasons::SIDE_FILE);
    "-resource-dir" Joined Local(reasons::SIDE_FILE);
    "-cxx-isystem" Either Local(reasons::SIDE_FILE);
    "-stdlib++-isystem" Either Local(reasons::SIDE_FILE);
    "-relocatable-pch" None Local(reasons::SIDE_FILE);
    "-module-" Joined Local(reasons::SIDE_FILE);
    "-rewrite-" Joined Local(reasons::SIDE_FILE);
    "-objcmt-" Joined Local(reasons::SIDE_FILE);
    "-verify" Joined Local(reasons::SIDE_FILE);
    "-ccc-" Joined Local(reasons::SIDE_FILE);
    // The next word is an operand.
    "-include-pch" Next Local(reasons::SIDE_FILE);
    "-isystem-after" Next Local(reasons::SIDE_FILE);
    "-fdebug-compilation-dir" Next Local(reasons::SIDE_FILE);
    "-ftrapv-handler" Next Local(reasons::SIDE_FILE);
    "-mthread-model" Next Local(reasons::SIDE_FILE);
    "-meabi" Next Local(reasons::SIDE_FILE);
    "-mmlir" Next Local(reasons::SIDE_FILE);
    "-rpath" Next Local(reasons::SIDE_FILE);
    "-framework" Next Local(reasons::SIDE_FILE);
    "-filelist" Next Local(reasons::SIDE_FILE);
    "-gcc-toolchain" Next Local(reasons::SIDE_FILE);
    "-R" Next Local(reasons::SIDE_FILE);
    "-G" Next Keep;
    // Used only in preprocessing.
    "-MV" None Strip;
    "-nostdlibinc" None Strip;
    "-nobuiltininc" None Strip;
    "-F" Joined Strip;
};

// The places of the rows, sorted; `tools/option-index` prints them.
static PLACES: [u32; GCC_ROWS] = [
    98, 64, 84, 76, 89, 47, 75, 74, 85, 69, 68, 86, 39, 65, 77, 78, 79, 72, 87, 81, 82, 88, 80, 70,
    71, 66, 67, 83, 73, 16, 38, 116, 117, 13, 3, 212, 208, 105, 15, 31, 4, 6, 10, 9, 139, 5, 7, 8,
    12, 11, 209, 134, 115, 106, 207, 1, 35, 14, 54, 33, 29, 94, 55, 62, 34, 30, 91, 95, 63, 61, 0,
    195, 158, 188, 52, 92, 174, 159, 183, 160, 173, 172, 141, 130, 180, 156, 163, 153, 162, 169,
    113, 198, 122, 125, 149, 148, 151, 150, 152, 120, 103, 53, 185, 184, 179, 205, 170, 118, 123,
    109, 161, 124, 168, 59, 119, 131, 186, 144, 143, 165, 164, 167, 57, 112, 111, 171, 146, 45,
    204, 181, 129, 128, 48, 121, 176, 178, 175, 177, 142, 132, 166, 140, 110, 58, 46, 147, 108,
    145, 199, 157, 182, 206, 126, 138, 127, 56, 137, 99, 93, 24, 18, 17, 196, 96, 97, 19, 23, 25,
    22, 197, 20, 21, 32, 42, 135, 101, 44, 136, 114, 201, 41, 202, 191, 200, 102, 43, 211, 27, 28,
    210, 2, 193, 100, 190, 187, 192, 203, 155, 51, 154, 90, 49, 189, 40, 107, 36, 26, 104, 194,
    133, 60, 50, 37,
];

// The place at which the span of each second byte starts; `tools/option-index` prints them.
static STARTS: [u32; LETTERS] = [
    0, 0, 0, 0, 0, 0, 0, 0, 0, 0, 0, 0, 0, 0, 0, 0, 0, 0, 0, 0, 0, 0, 0, 0, 0, 0, 0, 0, 0, 0, 0, 0,
    0, 0, 0, 0, 1, 1, 1, 1, 1, 1, 1, 1, 1, 1, 29, 29, 29, 29, 29, 29, 29, 29, 29, 29, 29, 29, 29,
    29, 29, 29, 29, 29, 29, 29, 30, 31, 33, 34, 35, 36, 37, 38, 39, 39, 39, 40, 51, 51, 52, 53, 54,
    55, 56, 57, 58, 58, 61, 66, 66, 66, 66, 66, 66, 66, 66, 66, 70, 70, 74, 75, 76, 151, 157, 158,
    172, 172, 172, 173, 186, 190, 192, 193, 193, 197, 203, 205, 207, 209, 211, 212, 212, 213, 213,
    213, 213, 213, 213, 213, 213, 213, 213, 213, 213, 213, 213, 213, 213, 213, 213, 213, 213, 213,
    213, 213, 213, 213, 213, 213, 213, 213, 213, 213, 213, 213, 213, 213, 213, 213, 213, 213, 213,
    213, 213, 213, 213, 213, 213, 213, 213, 213, 213, 213, 213, 213, 213, 213, 213, 213, 213, 213,
    213, 213, 213, 213, 213, 213, 213, 213, 213, 213, 213, 213, 213, 213, 213, 213, 213, 213, 213,
    213, 213, 213, 213, 213, 213, 213, 213, 213, 213, 213, 213, 213, 213, 213, 213, 213, 213, 213,
    213, 213, 213, 213, 213, 213, 213, 213, 213, 213, 213, 213, 213, 213, 213, 213, 213, 213, 213,
    213, 213, 213, 213, 213, 213, 213, 213, 213, 213, 213, 213, 213, 213, 213, 213, 213, 213,
];
