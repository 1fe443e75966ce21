use crate::same::holds;
use farm_types::Bytes;
use file_map::FileMap;
use std::alloc::{AllocError, Global};
use std::process::Abort;
use std::test::Fail;

const PUT: &[(&[u8], &[u8])] = &[(b"a", b"1"), (b"b", b"2"), (b"a", b"3")];

fn put(alloc: Global, files: &mut FileMap, path: &[u8], content: &[u8]) -> Result<(), AllocError> {
    let path = Bytes::from_slice(alloc, path)?;
    let content = Bytes::from_slice(alloc, content)?;
    files.try_put(path, content)
}

fn put_all(alloc: Global, files: &mut FileMap, all: &[(&[u8], &[u8])]) -> Result<(), AllocError> {
    for (path, content) in all {
        put(alloc, files, path, content)?;
    }
    Ok(())
}

/// Whether the file of this path holds exactly this content, or isn't there if none is given.
fn stands(files: &FileMap, path: &Bytes, content: Option<&[u8]>) -> bool {
    files.find(path).map(|content| content.as_slice()) == content
}

fn expect<R: Abort>(rt: &R, alloc: Global, files: &mut FileMap) -> Result<(), AllocError> {
    let first = Bytes::from_slice(alloc, b"a")?;
    let second = Bytes::from_slice(alloc, b"b")?;
    holds(rt, stands(files, &first, Some(b"3")), &"the latest content");
    files.remove(&first);
    holds(rt, stands(files, &first, None), &"a file that was removed");
    holds(rt, stands(files, &second, Some(b"2")), &"the other file");
    Ok(())
}

#[test]
fn each_path_stands_once(rt: HostRuntime) -> Result<(), Fail> {
    let mut files = FileMap::new(rt.alloc());
    put_all(rt.alloc(), &mut files, PUT)?;
    expect(&rt, rt.alloc(), &mut files)?;
    Ok(())
}
