//! The compilers, the rules and the folders of tools that the words name.

ghost use Rattle.std.specs.Prelude.{◌≡◌, map, string_bytes, IfOk};
ghost use Rattle.farmd_options.specs.Names.{option_named};
ghost use Rattle.farmd_options.specs.Options as says;
ghost use Rattle.farmd_options.specs.Tables as tables;
ghost use Rattle.farmd_options.specs.Tables.{AreRules, RuleIn};

use crate::name::{OptionName, parse_option};
use crate::setting::name_in;
use access_list::{Rule, RuleVec, parse_rule, place_of};
use daemon_service::{Compiler, CompilerVec};
use farm_types::Bytes;
use std::alloc::{AllocError, Global};

// What is after the first `=` of a value.
fn program_in(value: &[u8]) -> &[u8]
    ensures { result.now ≡ says.program_in value.now }
{
    let at = place_of(b'=', value);
    if at < value.len() {
        &value[at + 1..]
    } else {
        &[]
    }
}

fn compiler_in(alloc: Global, value: &[u8]) -> Result<Compiler, AllocError>
    ensures { IfOk result (λ compiler. compiler ≡ tables.compiler_in value.now) }
{
    Ok(Compiler {
        name: Bytes::from_slice(alloc, name_in(value))?,
        program: Bytes::from_slice(alloc, program_in(value))?,
    })
}

/// The folders of tools that the words name, in their order.
pub fn tools_of(alloc: Global, words: &[String]) -> Result<Vec<String>, AllocError>
    ensures { IfOk result (λ tools. map string_bytes tools.items ≡ tables.tools_of (map string_bytes words.now)) }
{
    let mut tools = Vec::new(alloc);
    let mut rest = words;
    'gathering: while let [word, value, more @ ..] = rest {
        if word.as_str() == "--tools" {
            tools.push(String::from_str(alloc, value.as_str())?)?;
        }
        rest = more;
    }
    Ok(tools)
}

/// The compilers that the words name, in their order.
pub fn compilers_of(alloc: Global, words: &[String]) -> Result<CompilerVec, AllocError>
    ensures { IfOk result (λ compilers. compilers ≡ tables.compilers_of (map string_bytes words.now)) }
{
    let mut compilers = CompilerVec::new(alloc);
    let mut rest = words;
    'gathering: while let [word, value, more @ ..] = rest {
        if word.as_str() == "--compiler" {
            compilers.try_push(compiler_in(alloc, value.as_str().as_bytes())?)?;
        }
        rest = more;
    }
    Ok(compilers)
}

// The rule that an option and its value say, if they say one.
fn rule_in(word: &str, value: &[u8]) -> Option<Rule>
    ensures { RuleIn value.now result (option_named word.now) }
{
    let read = match parse_option(word) {
        Some(OptionName::Allow) => parse_rule(true, value),
        Some(OptionName::Deny) => parse_rule(false, value),
        _ => return None,
    };
    read.ok()
}

/// The rules that the words name, in their order.
pub fn rules_of(alloc: Global, words: &[String]) -> Result<RuleVec, AllocError>
    ensures { IfOk result (AreRules (map string_bytes words.now)) }
{
    let mut found = RuleVec::new(alloc);
    let mut rest = words;
    'gathering: while let [word, value, more @ ..] = rest {
        if let Some(rule) = rule_in(word.as_str(), value.as_str().as_bytes()) {
            found.try_push(rule)?;
        }
        rest = more;
    }
    Ok(found)
}
