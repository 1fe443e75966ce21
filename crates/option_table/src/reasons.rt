//! The numbers of the reasons for which a command stays on this machine, as docs/command-words.md lists them.

/// Neither `-c` nor `-S` is asked for.
pub const NO_ACTION: u8 = 1;
/// `-c` and `-S` are both asked for.
pub const BOTH_ACTIONS: u8 = 2;
/// The command only preprocesses.
pub const PREPROCESS: u8 = 3;
/// The command only lists dependencies.
pub const DEPEND: u8 = 4;
/// No source is named.
pub const NO_INPUT: u8 = 5;
/// A second source is named.
pub const MANY_INPUTS: u8 = 6;
/// The target is this machine's own processor.
pub const NATIVE: u8 = 7;
/// Profiles or coverage write and read files beside the object.
pub const PROFILE: u8 = 8;
/// A file of templates is written beside the object.
pub const REPO: u8 = 9;
/// A file is read that changes what options mean.
pub const SPECS: u8 = 10;
/// The language is set whatever the source's name says.
pub const LANGUAGE: u8 = 11;
/// Files of the compiler's steps are written beside the object.
pub const SAVE_TEMPS: u8 = 12;
/// Files or text of the compiler's inner state are written.
pub const DUMP: u8 = 13;
/// An option for the assembler asks for a listing or for dependencies, or can't be judged.
pub const ASM_LISTING: u8 = 14;
/// A file with more words is named.
pub const RESPONSE_FILE: u8 = 15;
/// A configure script's trial source.
pub const CONFTEST: u8 = 16;
/// A standard stream is the source or the output.
pub const STANDARD_STREAM: u8 = 17;
/// The operand of the last word's option is missing.
pub const MISSING_OPERAND: u8 = 18;
/// A second output is named.
pub const MANY_OUTPUTS: u8 = 19;
/// A word is no option and no source.
pub const OTHER_WORD: u8 = 20;
/// An option reads or writes a file of its own, or can't be judged.
pub const SIDE_FILE: u8 = 21;
/// The output's name is one of those that are kept for files of the farm's own.
pub const RESERVED_NAME: u8 = 22;
