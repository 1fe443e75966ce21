// Bytes from elsewhere, as lines on the standard error show them.
use std::fmt::{self, Display, Formatter};

/// Bytes from elsewhere as text: the first of them, with all that isn't printable ASCII escaped, so that they make up one line.
#[derive(Drop)]
pub struct Shown<'a>(pub &'a [u8]);

/// How many bytes are shown.
const SHOWN: usize = 100;

impl Display for Shown<'_> {
    fn fmt<W: fmt::Write>(&self, f: &mut Formatter<W>) -> fmt::Result {
        for byte in self.0.iter().take(SHOWN) {
            write!(f, "{}", byte.escape_ascii())?;
        }
        if self.0.len() > SHOWN {
            f.write_str("..")?;
        }
        Ok(())
    }
}
