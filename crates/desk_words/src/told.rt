//! What a caller reports at its end.
ghost use Rattle.std.specs.Prelude.{◌≡◌, Some};
ghost use Rattle.desk_words.specs.Lines.{told_line, told_named};

/// How what a caller had a slot for ended.
#[derive(Clone, Copy, PartialEq, Eq, Debug)]
pub enum Told {
    /// `done`: the slot is given back.
    Done,
    /// `broke`: and the exchange with the host broke.
    Broke,
}

/// The line that reports it.
pub fn told_text(told: Told) -> &'static str
    ensures { result.now ≡ told_line told }
{
    match told {
        Told::Done => "done",
        Told::Broke => "broke",
    }
}

/// What a line reports.
pub fn parse_told(line: &[u8]) -> Option<Told>
    ensures named { result ≡ told_named line.now }
{
    if line == b"done".as_slice() {
        Some(Told::Done)
    } else if line == b"broke".as_slice() {
        Some(Told::Broke)
    } else {
        None
    }
}
