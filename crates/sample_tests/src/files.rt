//! The files and the words of commands.

use edge_traits::CallNumbers;
use farm_types::{Bytes, Words};
use file_map::FileMap;
use std::alloc::{AllocError, Global};

/// Files by their names.
pub type Listed = &'static [(&'static [u8], &'static [u8])];

pub fn put(
    alloc: Global,
    files: &mut FileMap,
    name: &[u8],
    content: &[u8],
) -> Result<(), AllocError> {
    let name = Bytes::from_slice(alloc, name)?;
    let content = Bytes::from_slice(alloc, content)?;
    files.try_put(name, content)
}

pub fn files_of(alloc: Global, list: Listed) -> Result<FileMap, AllocError> {
    let mut files = FileMap::new(alloc);
    for (name, content) in list {
        put(alloc, &mut files, name, content)?;
    }
    Ok(files)
}

// The file of this number includes the next one.
fn put_link(alloc: Global, files: &mut FileMap, number: u32) -> Result<(), AllocError> {
    let next = number.saturating_add(1);
    let name = format!(in alloc; "h{number}")?;
    let content = format!(in alloc; "#include \"h{next}\"\n")?;
    put(alloc, files, name.as_bytes(), content.as_bytes())
}

/// A file that includes another one, and that one the next: that many, the last with an item in it.
pub fn chain(alloc: Global, count: u32) -> Result<FileMap, AllocError> {
    let mut files = FileMap::new(alloc);
    put(alloc, &mut files, b"c.c", b"#include \"h1\"\n")?;
    for number in 1..count {
        put_link(alloc, &mut files, number)?;
    }
    let last = format!(in alloc; "h{count}")?;
    put(alloc, &mut files, last.as_bytes(), b"int a = 1;\n")?;
    Ok(files)
}

/// The words of a command, after the compiler's name.
pub fn words_of(alloc: Global, list: &[&str]) -> Result<Words, AllocError> {
    let mut words = Words::new(alloc);
    words.try_push(Bytes::from_slice(alloc, b"scc")?)?;
    for word in list {
        words.try_push(Bytes::from_slice(alloc, word.as_bytes())?)?;
    }
    Ok(words)
}

pub fn numbers(alloc: Global, list: &[u64]) -> Result<CallNumbers, AllocError> {
    let mut numbers = CallNumbers::new(alloc);
    for number in list {
        numbers.try_push(*number)?;
    }
    Ok(numbers)
}
