//! The text of a line, made without memory.
ghost use Rattle.std.specs.Prelude.{◌≡◌, ◌+◌, ◌≤◌, ◌++◌, [], length, decimal};
ghost use Rattle.progress_lines.specs.Lines.{line_bytes_max, watch_line, last_line};
ghost use Rattle.progress_lines.specs.Texts.{text_of};

use crate::count::Count;
use crate::room::{LINE_BYTES_MAX, LineText};
use itoa::Buffer;

impl LineText {
    fn new() -> LineText
        ensures { text_of result ≡ [] }
    {
        LineText {
            bytes: [0; LINE_BYTES_MAX],
            len: 0,
        }
    }

    fn push(&mut self, piece: &[u8])
        requires room { length (text_of self.old) + length piece.now ≤ line_bytes_max }
        ensures text { text_of self.new ≡ text_of self.old ++ piece.now }
        ensures len { length (text_of self.new) ≡ length (text_of self.old) + length piece.now }
    {
        let end = self.len + piece.len();
        self.bytes[self.len..end].copy_from_slice(piece);
        self.len = end;
    }

    fn push_number(&mut self, number: u32)
        requires room { length (text_of self.old) + 10 ≤ line_bytes_max }
        ensures text { text_of self.new ≡ text_of self.old ++ decimal number }
        ensures len { length (text_of self.new) ≤ length (text_of self.old) + 10 }
    {
        let mut digits = Buffer::new();
        self.push(digits.format(number).as_bytes());
    }

    /// The line with this number and this count.
    pub fn line(number: u32, jobs: u32, count: Count) -> LineText
        ensures { text_of result ≡ watch_line number jobs count }
    {
        let mut line = LineText::new();
        line.push(b"watch ");
        line.push_number(number);
        line.push(b" ended ");
        line.push_number(count.ended);
        line.push(b" of ");
        line.push_number(jobs);
        line.push(b" busy ");
        line.push_number(count.busy);
        line.push(b"\n");
        line
    }

    /// The last line, which says that all jobs have ended.
    pub fn last(jobs: u32) -> LineText
        ensures { text_of result ≡ last_line jobs }
    {
        let mut line = LineText::new();
        line.push(b"watch last ended ");
        line.push_number(jobs);
        line.push(b" of ");
        line.push_number(jobs);
        line.push(b" busy 0\n");
        line
    }

    pub fn as_slice(&self) -> &[u8]
        ensures { result.now ≡ text_of self.now }
    {
        &self.bytes[..self.len]
    }
}
