//! The folders of a compiler's own parts.

ghost use Rattle.std.specs.Prelude.{◌≡◌, ◌&&◌, map, drop, length, nat_eq, string_bytes};
ghost use Rattle.std.specs.List.{list_any, starts_with};
ghost use Rattle.allowed_options.specs.Folders.{is_part_end, begins_parent, stays_below, is_tool_folder, is_below, is_in_tools, names_tools};

/// What a word begins with whose value is a folder of a compiler's own parts.
const FOLDER_FRONTS: [&str; 5] = [
    "-B",
    "--sysroot=",
    "--gcc-toolchain=",
    "--gcc-install-dir=",
    "-resource-dir=",
];

/// Whether a path ends here, or its next part begins.
fn is_part_end(rest: &[u8]) -> bool
    ensures { result ≡ is_part_end rest.now }
{
    match rest {
        [] => true,
        [byte, ..] => *byte == b'/',
    }
}

/// Whether the first part of the path is `..`.
fn begins_parent(path: &[u8]) -> bool
    ensures { result ≡ begins_parent path.now }
{
    path.starts_with(b"..") && is_part_end(&path[2..])
}

/// Whether no part of the path is `..`.
fn stays_below(path: &[u8]) -> bool
    ensures { result ≡ stays_below path.now }
{
    for at in 0..path.len() {
        if path[at] == b'/' && begins_parent(&path[at + 1..]) {
            return false;
        }
    }
    true
}

/// Whether the text may name a folder of tools: an absolute path that doesn't end in `/` and has no part `..`.
pub fn is_tool_folder(path: &[u8]) -> bool
    ensures { result ≡ is_tool_folder path.now }
{
    path.starts_with(b"/") && !path.ends_with(b"/") && stays_below(path)
}

/// Whether the path is this folder or below it, by whole parts.
fn is_below(folder: &[u8], path: &[u8]) -> bool
    ensures { result ≡ is_below folder.now path.now }
{
    path.starts_with(folder) && is_part_end(&path[folder.len()..])
}

/// Whether the path is one of the folders of tools or below one, without a part `..`.
pub fn is_in_tools(tools: &[String], path: &[u8]) -> bool
    ensures { result ≡ is_in_tools (map string_bytes tools.now) path.now }
{
    if !stays_below(path) {
        return false;
    }
    for tool in tools {
        if is_below(tool.as_str().as_bytes(), path) {
            return true;
        }
    }
    false
}

/// Whether the word is an option with a folder of tools, or one below, in the same word.
pub fn names_tools(tools: &[String], word: &[u8]) -> bool
    ensures { result ≡ names_tools (map string_bytes tools.now) word.now }
{
    let fronts: [&str; 5] = FOLDER_FRONTS;
    names_by(fronts.as_slice(), tools, word)
}

/// The same by these fronts.
fn names_by(fronts: &[&str], tools: &[String], word: &[u8]) -> bool
    ensures { result ≡ list_any (λ front. starts_with nat_eq word.now front.now && is_in_tools (map string_bytes tools.now) (drop (length front.now) word.now)) fronts.now }
{
    for front in fronts {
        if word.starts_with(front.as_bytes()) && is_in_tools(tools, &word[front.len()..]) {
            return true;
        }
    }
    false
}
