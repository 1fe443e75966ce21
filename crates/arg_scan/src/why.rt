//! Why a command stays on this machine.

ghost use Rattle.std.specs.Prelude.{◌≡◌};
ghost use Rattle.arg_scan.specs.Forces.{reason_number, why_of};

use option_table::reasons;

/// Why a command stays on this machine. The reasons are numbered from 1 in this order, in `option_table::reasons`.
#[derive(Clone, Copy, Debug, PartialEq, Eq)]
pub enum Why {
    /// Neither `-c` nor `-S` is asked for.
    NoAction,
    /// `-c` and `-S` are both asked for.
    BothActions,
    /// `-E`: the command only preprocesses.
    Preprocess,
    /// `-M` or `-MM`: the command only lists dependencies.
    Depend,
    /// No source is named.
    NoInput,
    /// A second source is named.
    ManyInputs,
    /// The target is this machine's own processor.
    Native,
    /// Profiles and coverage write and read files beside the object.
    Profile,
    /// `-frepo` writes a file beside the object.
    Repo,
    /// `-specs=` reads a file that changes what options mean.
    Specs,
    /// `-x` sets the language whatever the source's name says.
    Language,
    /// `-save-temps` writes files beside the object.
    SaveTemps,
    /// `-d` and `-fdump-` write files or text of the compiler's inner state.
    Dump,
    /// An option for the assembler asks for a listing or for dependencies, or can't be judged.
    AsmListing,
    /// A file with more words is named.
    ResponseFile,
    /// A configure script's trial source.
    Conftest,
    /// `-`: a standard stream is the source or the output.
    StandardStream,
    /// The operand of the last word's option is missing.
    MissingOperand,
    /// A second output is named.
    ManyOutputs,
    /// The word is no option and no source.
    OtherWord,
    /// The option reads or writes a file of its own, or can't be judged.
    SideFile,
    /// The output's name ends in `.farm~`, which is kept for files of the farm's own.
    ReservedName,
}

impl Why {
    /// The reason with this number.
    pub fn of_number(number: u8) -> Option<Why>
        ensures { result ≡ why_of number }
    {
        match number {
            reasons::NO_ACTION => Some(Why::NoAction),
            reasons::BOTH_ACTIONS => Some(Why::BothActions),
            reasons::PREPROCESS => Some(Why::Preprocess),
            reasons::DEPEND => Some(Why::Depend),
            reasons::NO_INPUT => Some(Why::NoInput),
            reasons::MANY_INPUTS => Some(Why::ManyInputs),
            reasons::NATIVE => Some(Why::Native),
            reasons::PROFILE => Some(Why::Profile),
            reasons::REPO => Some(Why::Repo),
            reasons::SPECS => Some(Why::Specs),
            reasons::LANGUAGE => Some(Why::Language),
            reasons::SAVE_TEMPS => Some(Why::SaveTemps),
            reasons::DUMP => Some(Why::Dump),
            reasons::ASM_LISTING => Some(Why::AsmListing),
            reasons::RESPONSE_FILE => Some(Why::ResponseFile),
            reasons::CONFTEST => Some(Why::Conftest),
            reasons::STANDARD_STREAM => Some(Why::StandardStream),
            reasons::MISSING_OPERAND => Some(Why::MissingOperand),
            reasons::MANY_OUTPUTS => Some(Why::ManyOutputs),
            reasons::OTHER_WORD => Some(Why::OtherWord),
            reasons::SIDE_FILE => Some(Why::SideFile),
            reasons::RESERVED_NAME => Some(Why::ReservedName),
            _ => None,
        }
    }

    /// The number of this reason, as `scan` prints it.
    pub fn number(self) -> u8
        ensures number { result ≡ reason_number self }
        ensures back { why_of result ≡ Some self }
    {
        match self {
            Why::NoAction => reasons::NO_ACTION,
            Why::BothActions => reasons::BOTH_ACTIONS,
            Why::Preprocess => reasons::PREPROCESS,
            Why::Depend => reasons::DEPEND,
            Why::NoInput => reasons::NO_INPUT,
            Why::ManyInputs => reasons::MANY_INPUTS,
            Why::Native => reasons::NATIVE,
            Why::Profile => reasons::PROFILE,
            Why::Repo => reasons::REPO,
            Why::Specs => reasons::SPECS,
            Why::Language => reasons::LANGUAGE,
            Why::SaveTemps => reasons::SAVE_TEMPS,
            Why::Dump => reasons::DUMP,
            Why::AsmListing => reasons::ASM_LISTING,
            Why::ResponseFile => reasons::RESPONSE_FILE,
            Why::Conftest => reasons::CONFTEST,
            Why::StandardStream => reasons::STANDARD_STREAM,
            Why::MissingOperand => reasons::MISSING_OPERAND,
            Why::ManyOutputs => reasons::MANY_OUTPUTS,
            Why::OtherWord => reasons::OTHER_WORD,
            Why::SideFile => reasons::SIDE_FILE,
            Why::ReservedName => reasons::RESERVED_NAME,
        }
    }
}
