//! Room for the text of a line.
ghost use Rattle.std.specs.Prelude.{◌≤◌};
ghost use Rattle.progress_lines.specs.Lines.{line_bytes_max};

/// The most bytes of the text of a line.
pub(crate) const LINE_BYTES_MAX: usize = 64;

/// The text of a line, of `LINE_BYTES_MAX` bytes at most: four numbers of ten digits at most, and the text between them.
#[derive(Drop)]
pub struct LineText {
    pub(crate) bytes: [u8; LINE_BYTES_MAX],
    pub(crate) len: usize,
    ghost within: { len ≤ line_bytes_max },
}
