//! What an operand is.

/// What the operand of an option is that takes the next word.
#[derive(Clone, Copy)]
pub enum Operand {
    /// A folder of the compiler's own parts: `-B`, `-resource-dir`.
    Folder,
    /// An option of the back end: `-mllvm`.
    Flag,
    /// A name, a number or a value: `--param`, `-target`, `-G`.
    Setting,
}
