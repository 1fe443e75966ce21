//! The names of LLVM's options.

ghost use Rattle.std.specs.Prelude.{◌≡◌};
ghost use Rattle.allowed_options.specs.Served.{is_back_end_name, is_optimizer_name, is_generator_name, is_sanitizer_name, is_target_name};

use crate::lists::is_one;

/// The options of LLVM that builds send, without their dashes: those of its optimisations. None of them names a file or a program.
const OPTIMIZER_NAMES: [&str; 24] = [
    "inline-threshold",
    "inlinehint-threshold",
    "inlinecold-threshold",
    "unroll-threshold",
    "unroll-count",
    "unroll-runtime",
    "vectorize-loops",
    "vectorize-slp",
    "slp-threshold",
    "force-vector-width",
    "force-vector-interleave",
    "extra-vectorizer-passes",
    "enable-interleaved-mem-accesses",
    "enable-gvn-hoist",
    "enable-load-pre",
    "enable-loopinterchange",
    "enable-loop-distribute",
    "enable-unroll-and-jam",
    "enable-dse-memoryssa",
    "memcmp-num-loads-per-block",
    "instcombine-lower-dbg-declare",
    "basic-aa-recphi",
    "rotation-max-header-size",
    "hot-cold-split",
];

/// Those of how it makes code.
const GENERATOR_NAMES: [&str; 20] = [
    "enable-misched",
    "enable-post-misched",
    "enable-machine-outliner",
    "enable-shrink-wrap",
    "disable-lsr",
    "disable-machine-licm",
    "disable-tail-duplicate",
    "disable-block-placement",
    "disable-early-ifcvt",
    "align-all-functions",
    "align-all-blocks",
    "align-all-nofallthru-blocks",
    "align-loops",
    "combiner-global-alias-analysis",
    "split-threshold-for-reg-with-hint",
    "generate-type-units",
    "stackmap-version",
    "treat-scalable-fixed-error-as-warning",
    "fast-isel",
    "global-isel",
];

/// Those of sanitizers.
const SANITIZER_NAMES: [&str; 30] = [
    "asan-globals",
    "asan-stack",
    "asan-mapping-offset",
    "asan-mapping-scale",
    "asan-instrumentation-with-call-threshold",
    "asan-use-after-scope",
    "asan-use-private-alias",
    "asan-kernel-mem-intrinsic-prefix",
    "asan-constructor-kind",
    "asan-detect-invalid-pointer-pair",
    "hwasan-instrument-stack",
    "hwasan-use-short-granules",
    "hwasan-inline-all-checks",
    "hwasan-mapping-offset",
    "hwasan-recover",
    "hwasan-kernel-mem-intrinsic-prefix",
    "hwasan-instrument-with-calls",
    "hwasan-use-after-scope",
    "tsan-distinguish-volatile",
    "tsan-instrument-func-entry-exit",
    "tsan-instrument-read-before-write",
    "tsan-compound-read-before-write",
    "tsan-instrument-memory-accesses",
    "msan-track-origins",
    "msan-kernel",
    "msan-check-constant-shadow",
    "msan-disable-checks",
    "sanitizer-coverage-prune-blocks",
    "sanitizer-coverage-level",
    "sanitizer-coverage-trace-pc-guard",
];

/// Those of targets.
const TARGET_NAMES: [&str; 32] = [
    "x86-asm-syntax",
    "x86-branches-within-32B-boundaries",
    "x86-align-branch-boundary",
    "x86-pad-max-prefix-size",
    "x86-use-vzeroupper",
    "x86-cmov-converter",
    "arm-global-merge",
    "arm-implicit-it",
    "arm-restrict-it",
    "arm-promote-constant",
    "aarch64-enable-ldst-opt",
    "aarch64-enable-global-merge",
    "aarch64-use-aa",
    "aarch64-neon-syntax",
    "enable-global-merge",
    "global-merge-max-offset",
    "riscv-v-vector-bits-min",
    "riscv-v-vector-bits-max",
    "mips-compact-branches",
    "hexagon-small-data-threshold",
    "amdgpu-early-inline-all",
    "amdgpu-function-calls",
    "enable-emscripten-sjlj",
    "enable-emscripten-cxx-exceptions",
    "wasm-enable-eh",
    "wasm-enable-sjlj",
    "wasm-use-legacy-eh",
    "polly",
    "polly-vectorizer",
    "polly-parallel",
    "polly-run-inliner",
    "polly-invariant-load-hoisting",
];

/// Whether the word is one of `OPTIMIZER_NAMES` or of `GENERATOR_NAMES`.
pub fn is_back_end_name(word: &[u8]) -> bool
    ensures { result ≡ is_back_end_name word.now }
{
    is_optimizer_name(word) || is_generator_name(word)
}

fn is_optimizer_name(word: &[u8]) -> bool
    ensures { result ≡ is_optimizer_name word.now }
{
    let spellings: [&str; 24] = OPTIMIZER_NAMES;
    is_one(spellings.as_slice(), word)
}

fn is_generator_name(word: &[u8]) -> bool
    ensures { result ≡ is_generator_name word.now }
{
    let spellings: [&str; 20] = GENERATOR_NAMES;
    is_one(spellings.as_slice(), word)
}

/// Whether the word is one of `SANITIZER_NAMES`.
pub fn is_sanitizer_name(word: &[u8]) -> bool
    ensures { result ≡ is_sanitizer_name word.now }
{
    let spellings: [&str; 30] = SANITIZER_NAMES;
    is_one(spellings.as_slice(), word)
}

/// Whether the word is one of `TARGET_NAMES`.
pub fn is_target_name(word: &[u8]) -> bool
    ensures { result ≡ is_target_name word.now }
{
    let spellings: [&str; 32] = TARGET_NAMES;
    is_one(spellings.as_slice(), word)
}
