//! A sink that shows what it got.

ghost use Rattle.std.specs.Prelude.{false};
ghost use Rattle.edge_traits.specs.Told.{told};

use edge_traits::{EdgeFault, Sink};
use farm_types::Bytes;
use std::alloc::Global;

/// A sink that shows what it got. It takes each piece whole.
#[derive(Drop)]
pub struct Page {
    /// All pieces, one after the other.
    pub text: Bytes,
}

impl Page {
    /// A page without a text.
    pub fn new(alloc: Global) -> Page {
        Page {
            text: Bytes::new(alloc),
        }
    }
}

impl Sink for Page {
    ghost shows = { λ page. record { written = told page.text; stopped = false; faults = 0 } };

    fn write(&mut self, piece: &[u8]) -> Result<usize, EdgeFault> {
        match self.text.try_extend(piece) {
            Ok(()) => Ok(piece.len()),
            Err(_) => Err(EdgeFault::Memory),
        }
    }
}
