use edge_traits::CallNumbers;
use farm_types::{Bytes, Items};

/// Which calls fail, which move 0 bytes, and the most bytes that one call moves.
#[derive(Drop)]
pub struct Moves {
    pub fails: CallNumbers,
    pub zeros: CallNumbers,
    pub most: u32,
}

/// What a link gives, and how it moves bytes. Both directions count as its calls.
#[derive(Drop)]
pub struct LinkScript {
    pub gives: Bytes,
    pub moves: Moves,
}

/// The scripts of links that are still to be made, in order.
pub type LinkScripts = Items<LinkScript>;
