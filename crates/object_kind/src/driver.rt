//! The drivers of gcc and clang.

ghost use Rattle.std.specs.Prelude.{◌≡◌, ◌&&◌, nat_eq, length, drop};
ghost use Rattle.std.specs.List.{list_any, list_all, starts_with};
ghost use Rattle.object_kind.specs.Drivers.{is_version_byte, is_driver_tail, has_driver_tail, is_driver};

/// The names of the drivers, without the target before and the version after them.
const DRIVERS: [&str; 6] = ["gcc", "cc", "g++", "c++", "clang", "clang++"];

/// A digit, a point or a dash.
fn is_version_byte(byte: u8) -> bool
    ensures { result ≡ is_version_byte byte }
{
    matches!(byte, b'0'..=b'9' | b'-' | b'.')
}

/// Whether these bytes are a version, or nothing.
fn is_version(rest: &[u8]) -> bool
    ensures { result ≡ list_all is_version_byte rest.now }
{
    rest.iter().all(|&byte| is_version_byte(byte))
}

/// Whether the text is one of these names and a version.
fn is_versioned(names: &[&str], tail: &[u8]) -> bool
    ensures { result ≡ list_any (λ name. starts_with nat_eq tail.now name.now && list_all is_version_byte (drop (length name.now) tail.now)) names.now }
{
    for name in names {
        if tail.starts_with(name.as_bytes()) && is_version(&tail[name.len()..]) {
            return true;
        }
    }
    false
}

/// Whether the text is a driver's name and a version.
fn is_driver_tail(tail: &[u8]) -> bool
    ensures { result ≡ is_driver_tail tail.now }
{
    let names: [&str; 6] = DRIVERS;
    is_versioned(names.as_slice(), tail)
}

/// Whether such a text begins after a `/` or a `-`.
fn has_driver_tail(program: &[u8]) -> bool
    ensures { result ≡ has_driver_tail program.now }
{
    for at in 0..program.len() {
        let byte = program[at];
        if (byte == b'/' || byte == b'-') && is_driver_tail(&program[at + 1..]) {
            return true;
        }
    }
    false
}

/// Whether the program is a driver of gcc or clang, by its name.
pub fn is_driver(program: &[u8]) -> bool
    ensures { result ≡ is_driver program.now }
{
    is_driver_tail(program) || has_driver_tail(program)
}
