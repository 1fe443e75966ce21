//! The names of sources and outputs.

ghost use Rattle.std.specs.Prelude.{◌≡◌, drop};
ghost use Rattle.arg_scan.specs.Names.{last_name, ending_of, ending_text, has_ending, ext_of, is_conftest, is_preprocessed, is_reserved};

use farm_types::Ext;
use memchr::memrchr;

/// The ending of a source's name.
#[derive(Clone, Copy, Debug, PartialEq, Eq)]
pub enum Ending {
    /// `.c`
    C,
    /// `.cc`
    Cc,
    /// `.cpp`
    Cpp,
    /// `.cxx`
    Cxx,
    /// `.C`
    CapitalC,
    /// `.i`
    I,
    /// `.ii`
    Ii,
}

impl Ending {
    /// The ending's bytes, with the dot.
    pub fn text(self) -> &'static [u8]
        ensures { result.now ≡ ending_text self }
    {
        match self {
            Ending::C => b".c",
            Ending::Cc => b".cc",
            Ending::Cpp => b".cpp",
            Ending::Cxx => b".cxx",
            Ending::CapitalC => b".C",
            Ending::I => b".i",
            Ending::Ii => b".ii",
        }
    }

    /// The ending of such a source once it is preprocessed.
    pub fn ext(self) -> Ext
        ensures { result ≡ ext_of self }
    {
        match self {
            Ending::C | Ending::I => Ext::I,
            Ending::Cc | Ending::Cpp | Ending::Cxx | Ending::CapitalC | Ending::Ii => Ext::Ii,
        }
    }

    /// Whether such a source is preprocessed already.
    pub fn is_preprocessed(self) -> bool
        ensures { result ≡ is_preprocessed self }
    {
        matches!(self, Ending::I | Ending::Ii)
    }

    // Whether a name ends so, and at least one byte is before the ending.
    fn ends(self, name: &[u8]) -> bool
        ensures { result ≡ has_ending name.now self }
    {
        self.text().len() < name.len() && name.ends_with(self.text())
    }
}

/// The part of a path after its last `/`.
pub fn last_name(path: &[u8]) -> &[u8]
    ensures { result.now ≡ last_name path.now }
{
    match memrchr(b'/', path) {
        Some(at) => &path[at + 1..],
        None => path,
    }
}

/// The ending of a name that is a source's; None of any other. A path's last name is to be given
/// (docs/command-words.md, "Sources").
pub fn ending_of(name: &[u8]) -> Option<Ending>
    ensures { result ≡ ending_of name.now }
{
    for ending in [
        Ending::C,
        Ending::Cc,
        Ending::Cpp,
        Ending::Cxx,
        Ending::CapitalC,
        Ending::I,
        Ending::Ii,
    ] {
        if ending.ends(name) {
            return Some(ending);
        }
    }
    None
}

/// Whether a source's last name begins with `conftest.`: a configure script's trial source.
pub(crate) fn is_conftest(word: &[u8]) -> bool
    ensures { result ≡ is_conftest word.now }
{
    last_name(word).starts_with(b"conftest.")
}

/// Whether a name ends in `.farm~`: such names are kept for files of the farm's own.
pub fn is_reserved(name: &[u8]) -> bool
    ensures { result ≡ is_reserved name.now }
{
    name.ends_with(b".farm~")
}

/// The bytes of a word from a place on; none if the word is shorter.
pub(crate) fn name_from(word: &[u8], from: usize) -> &[u8]
    ensures { result.now ≡ drop from word.now }
{
    if from < word.len() {
        &word[from..]
    } else {
        &[]
    }
}
