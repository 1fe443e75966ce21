//! What the desk answers.
ghost use Rattle.std.specs.Prelude.{◌≡◌, IfOk};
ghost use Rattle.desk_words.specs.Lines.{answer_line, answer_named, answered, shown_answer};

use std::alloc::{AllocError, Global};

/// Where a caller may have its command done.
#[derive(Clone, Copy, Debug)]
pub enum Answer<'a> {
    /// `host ENTRY`: by this entry, as a host list's print writes it.
    Host(&'a [u8]),
    /// `here`: on this machine.
    Here,
    /// `alone`: the desk knows too many callers already, and this one goes on as without it.
    Alone,
}

/// The line of an answer.
pub fn answer_text(alloc: Global, answer: Answer<'_>) -> Result<Vec<u8>, AllocError>
    ensures { IfOk result (λ line. line.items ≡ answer_line (answered answer.entry)) }
{
    let mut line = Vec::new(alloc);
    match answer {
        Answer::Host(entry) => {
            line.extend_from_slice(b"host ")?;
            line.extend_from_slice(entry)?;
        }
        Answer::Here => line.extend_from_slice(b"here")?,
        Answer::Alone => line.extend_from_slice(b"alone")?,
    }
    Ok(line)
}

/// The answer that a line gives.
pub fn parse_answer(line: &[u8]) -> Option<Answer<'_>>
    ensures named { shown_answer result ≡ answer_named line.now }
{
    if line == b"here".as_slice() {
        Some(Answer::Here)
    } else if line == b"alone".as_slice() {
        Some(Answer::Alone)
    } else {
        match line.strip_prefix(b"host ".as_slice()) {
            Some(entry) => Some(Answer::Host(entry)),
            None => None,
        }
    }
}
