//! What was seen of a command's words.

ghost use Rattle.std.specs.Prelude.{◌≡◌, ◌<◌, false, None, is_some};
ghost use Rattle.std.specs.List.{slice_get};
ghost use Rattle.arg_scan.specs.Class.{operand_place};
ghost use Rattle.arg_scan.specs.Forces.{effect_reasons, output_reasons, part_reasons};

use crate::names::{Ending, is_conftest, is_reserved, name_from};
use crate::part::{Operand, Part, Role};
use crate::verdict::{Action, OutputPlace, Plan, Verdict};
use crate::why::Why;
use farm_types::Bytes;
use option_table::{Effect, is_listing};

// A source's place, and the ending of its name.
#[derive(Clone, Copy)]
pub(crate) struct Input {
    pub at: usize,
    pub ending: Ending,
}

// What was seen of a command's words: the actions, and the first source and output.
#[derive(Clone, Copy)]
pub(crate) struct Seen {
    pub compile: bool,
    pub assemble: bool,
    pub source: Option<Input>,
    pub output: Option<OutputPlace>,
}

impl Seen {
    ghost use Rattle.arg_scan.specs.Seen.{noted, final_verdict};

    pub fn nothing() -> Seen
        ensures { result ≡ record { compile = false; assemble = false; source = None; output = None } }
    {
        Seen {
            compile: false,
            assemble: false,
            source: None,
            output: None,
        }
    }

    // The first reason that a word gives, after those words that were seen.
    pub fn reason(&self, part: Part, word: &Bytes, last: bool) -> Option<Why>
        ensures { result ≡ slice_get (part_reasons part word.now last (is_some self.now.source) (is_some self.now.output)) 0 }
    {
        match part {
            Part::Compiler => None,
            Part::Operand(Effect::Output) => output_reason(word.as_slice()),
            Part::Operand(_) => None,
            Part::Word(Role::Dash) => Some(Why::StandardStream),
            Part::Word(
                Role::Flag {
                    operand: Operand::Next,
                    ..
                },
            ) if last => Some(Why::MissingOperand),
            Part::Word(Role::Flag { effect, operand }) => self.effect_reason(effect, operand, word),
            Part::Word(Role::Response) => Some(Why::ResponseFile),
            Part::Word(Role::Source(_)) if self.source.is_some() => Some(Why::ManyInputs),
            Part::Word(Role::Source(_)) if is_conftest(word.as_slice()) => Some(Why::Conftest),
            Part::Word(Role::Source(_)) => None,
            Part::Word(Role::Other) => Some(Why::OtherWord),
        }
    }

    fn effect_reason(&self, effect: Effect, operand: Operand, word: &Bytes) -> Option<Why>
        ensures { result ≡ slice_get (effect_reasons effect operand word.now (is_some self.now.output)) 0 }
    {
        match effect {
            Effect::Keep | Effect::Strip | Effect::Action => None,
            Effect::Output if self.output.is_some() => Some(Why::ManyOutputs),
            Effect::Output => match operand {
                Operand::Attached(from) => output_reason(name_from(word.as_slice(), from)),
                Operand::Absent | Operand::Next => None,
            },
            Effect::Local(number) => Why::of_number(number),
            Effect::Listing if is_listing(word) => Some(Why::AsmListing),
            Effect::Listing => None,
        }
    }

    // Adds a word, of this part and at this place.
    pub fn note(&mut self, part: Part, at: usize, word: &Bytes)
        requires { at < usize.MAX }
        ensures { self.new ≡ noted part at word.now self.old }
    {
        match part {
            Part::Word(Role::Source(ending)) => {
                self.source = self.source.or(Some(Input { at, ending }));
            }
            Part::Word(
                Role::Flag {
                    effect: Effect::Output,
                    operand,
                },
            ) => {
                self.output = self.output.or(Some(output_place(operand, at)));
            }
            Part::Word(
                Role::Flag {
                    effect: Effect::Action,
                    ..
                },
            ) => {
                if word.as_slice() == b"-S".as_slice() {
                    self.assemble = true;
                } else {
                    self.compile = true;
                }
            }
            _ => {}
        }
    }

    // The class of a command of `len` words, none of which gives a reason.
    pub fn verdict(&self, len: usize) -> Verdict
        ensures { result ≡ final_verdict self.now len }
    {
        let why = match (self.compile, self.assemble, self.source) {
            (false, false, _) => Why::NoAction,
            (true, true, _) => Why::BothActions,
            (_, _, None) => Why::NoInput,
            (_, assemble, Some(input)) => {
                return Verdict::Remote(Plan {
                    action: if assemble {
                        Action::Assemble
                    } else {
                        Action::Compile
                    },
                    input: input.at,
                    ending: input.ending,
                    output: self.output,
                });
            }
        };
        Verdict::Local { why, at: len }
    }
}

// The first reason that the name of an output gives.
fn output_reason(name: &[u8]) -> Option<Why>
    ensures { result ≡ slice_get (output_reasons name.now) 0 }
{
    if name == b"-".as_slice() {
        Some(Why::StandardStream)
    } else if is_reserved(name) {
        Some(Why::ReservedName)
    } else {
        None
    }
}

// The place of the operand of an option at this place.
fn output_place(operand: Operand, at: usize) -> OutputPlace
    requires { at < usize.MAX }
    ensures { result ≡ operand_place operand at }
{
    match operand {
        Operand::Attached(from) => OutputPlace { at, from },
        Operand::Absent | Operand::Next => OutputPlace {
            at: at + 1,
            from: 0,
        },
    }
}
