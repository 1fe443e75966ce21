//! The lines of a text.

ghost use Rattle.std.specs.Prelude.{◌≡◌, ◌≤◌, ◌<◌, not, ◌==◌, length, slice_index, slice_range, IsTrue, ◌↔◌};
ghost use Rattle.std.specs.List.{AllPass};
ghost use Rattle.farm_types.specs.Bytes.{line_feed};
ghost use Rattle.job_list.specs.Texts as texts;
ghost use Rattle.job_list.specs.Jobs.{HasNoZero, IsText};

use crate::line::is_blank;
use bstr::ByteSlice;
use memchr::memchr;

/// The end of the line that begins at a place of a text.
pub fn line_end(text: &[u8], from: usize) -> usize
    requires { from ≤ length text.now }
    ensures low { from ≤ result }
    ensures high { result ≤ length text.now }
    ensures plain { AllPass (λ c. not (c == line_feed)) (slice_range text.now from result) }
    ensures ends { result < length text.now → slice_index text.now result ≡ line_feed }
{
    let rest = &text[from..];
    match rest.find_byte(b'\n') {
        Some(len) => from + len,
        None => text.len(),
    }
}

/// Whether a line is a job: it hasn't blanks only, and its first other byte isn't `#`.
pub fn is_job(line: &[u8]) -> bool
    ensures { result ≡ texts.is_job line.now }
{
    for byte in line {
        if !is_blank(*byte) {
            return *byte != b'#';
        }
    }
    false
}

fn has_no_zero(line: &[u8]) -> bool
    ensures { IsTrue result ↔ HasNoZero line.now }
{
    memchr(0, line).is_none()
}

/// Whether a line is UTF-8 and holds no zero byte.
pub fn is_text(line: &[u8]) -> bool
    ensures { IsTrue result ↔ IsText line.now }
{
    str::from_utf8(line).is_ok() && has_no_zero(line)
}
