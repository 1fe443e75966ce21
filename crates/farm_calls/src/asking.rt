//! What `farm` is asked.

use edge_traits::CallNumbers;
use farm_types::Bytes;
use std::alloc::{AllocError, Global};

/// What `farm` is asked: its words and variables, and its input, of which a read takes all or little, and these reads fail.
#[derive(Drop)]
pub struct Asked {
    /// The words after the program's name.
    pub words: Vec<String>,
    /// The environment: names and values.
    pub variables: Vec<(String, String)>,
    /// The input.
    pub text: Bytes,
    /// Whether a read of the input takes 4,096 bytes at most, and not 7.
    pub whole: bool,
    /// The numbers of the reads that fail.
    pub fails: CallNumbers,
}

/// These words as strings.
pub fn strings(alloc: Global, words: &[&str]) -> Result<Vec<String>, AllocError> {
    let mut list = Vec::new(alloc);
    for word in words {
        list.push(String::from_str(alloc, word)?)?;
    }
    Ok(list)
}

/// Words, and this input.
pub fn asked_for(alloc: Global, words: &[&str], text: Bytes) -> Result<Asked, AllocError> {
    let words = strings(alloc, words)?;
    Ok(Asked {
        words,
        variables: Vec::new(alloc),
        text,
        whole: true,
        fails: CallNumbers::new(alloc),
    })
}
