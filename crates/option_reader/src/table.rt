//! The options that a command has.

ghost use Rattle.std.specs.Prelude.{◌≡◌, true, false, map, string_bytes};
ghost use Rattle.option_reader.specs.Tables.{Table};

/// What is known of an option by its name.
#[derive(Clone, Copy, Debug, PartialEq, Eq)]
pub struct Row {
    /// Whether the word after the name is the option's value.
    pub takes_value: bool,
    /// Whether the option may be given more than once.
    pub repeats: bool,
}

/// The options that a command has.
pub trait OptionTable {
    /// What the table says.
    ghost table: { Self → Table };

    /// What is known of the option that a word names. None if the word names no option of the command.
    fn row(&self, word: &str) -> Option<Row>
        ensures { result ≡ (table self.now).known word.now };

    /// Whether a word may be the value of the option of this name, after these words.
    fn fits(&self, before: &[String], name: &str, value: &str) -> bool
        ensures yes { result ≡ true → (table self.now).Fits (map string_bytes before.now) name.now value.now }
        ensures no { result ≡ false → (table self.now).Fits (map string_bytes before.now) name.now value.now → ⊥ };
}
