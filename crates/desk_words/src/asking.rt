//! The line with which a caller asks.
ghost use Rattle.std.specs.Prelude.{◌≡◌, ◌++◌, IfOk, string_bytes};
ghost use Rattle.desk_words.specs.declared.asking.Asked.TheVariants as asking;
ghost use Rattle.desk_words.specs.Lines.{asked_text, greeting_line, greeting_named};

use std::alloc::{AllocError, Global};

/// What a caller asks for.
#[derive(Clone, Copy, PartialEq, Eq, Debug)]
pub enum Asked {
    /// A slot of a host.
    Hosts,
    /// A local slot: the command may not be sent.
    Local,
    /// A place below a caller that has a slot and waits for this one.
    Within,
}

fn asked_text(asked: Asked) -> &'static str
    ensures { result.now ≡ asked_text asked }
{
    match asked {
        Asked::Hosts => "",
        Asked::Local => " local",
        Asked::Within => " within",
    }
}

/// The line, with the token of the shared run.
pub fn greeting(alloc: Global, token: &str, asked: Asked) -> Result<String, AllocError>
    ensures { IfOk result (λ line. string_bytes line ≡ greeting_line token.now asked) }
{
    let mut line = String::from_str(alloc, "farm-share 1 ")?;
    line.push_str(token)?;
    line.push_str(asked_text(asked))?;
    Ok(line)
}

/// The greetings of one shared run, with which its desk compares lines.
#[derive(Drop)]
pub struct Greetings {
    pub token: String,
    hosts: String,
    local: String,
    within: String,
    pub ghost for_hosts: { string_bytes hosts ≡ greeting_line (string_bytes token) asking.Hosts },
    pub ghost for_local: { string_bytes local ≡ greeting_line (string_bytes token) asking.Local },
    pub ghost for_within: { string_bytes within ≡ greeting_line (string_bytes token) asking.Within },
}

impl Greetings {
    /// Those with this token.
    pub fn new(alloc: Global, token: String) -> Result<Greetings, AllocError>
        ensures { IfOk result (λ made. string_bytes made.token ≡ string_bytes token) }
    {
        Ok(Greetings {
            hosts: greeting(alloc, token.as_str(), Asked::Hosts)?,
            local: greeting(alloc, token.as_str(), Asked::Local)?,
            within: greeting(alloc, token.as_str(), Asked::Within)?,
            token,
        })
    }

    /// What a line asks for.
    pub fn read(&self, line: &[u8]) -> Option<Asked>
        ensures { result ≡ greeting_named (string_bytes self.now.token) line.now }
    {
        if line == self.hosts.as_bytes() {
            Some(Asked::Hosts)
        } else if line == self.local.as_bytes() {
            Some(Asked::Local)
        } else if line == self.within.as_bytes() {
            Some(Asked::Within)
        } else {
            None
        }
    }
}
