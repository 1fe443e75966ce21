//! The formats of objects.

ghost use Rattle.std.specs.Prelude.{◌≡◌};
ghost use Rattle.object_kind.specs.Formats.{has_at, is_elf, is_mach, is_machine_at, is_coff, is_wasm, is_bitcode, is_text};

/// Whether these bytes are at this place.
fn has_at(object: &[u8], at: usize, bytes: &[u8]) -> bool
    ensures { result ≡ has_at object.now at bytes.now }
{
    if at <= object.len() {
        object[at..].starts_with(bytes)
    } else {
        bytes.is_empty()
    }
}

/// Whether the bytes are a relocatable ELF file.
pub fn is_elf(object: &[u8]) -> bool
    ensures { result ≡ is_elf object.now }
{
    has_at(object, 0, &[0x7f, b'E', b'L', b'F'])
        && ((has_at(object, 5, &[1]) && has_at(object, 16, &[1, 0]))
            || (has_at(object, 5, &[2]) && has_at(object, 16, &[0, 1])))
}

/// Whether the bytes are a Mach-O object.
pub fn is_mach(object: &[u8]) -> bool
    ensures { result ≡ is_mach object.now }
{
    ((has_at(object, 0, &[0xce, 0xfa, 0xed, 0xfe]) || has_at(object, 0, &[0xcf, 0xfa, 0xed, 0xfe]))
        && has_at(object, 12, &[1, 0, 0, 0]))
        || ((has_at(object, 0, &[0xfe, 0xed, 0xfa, 0xce])
            || has_at(object, 0, &[0xfe, 0xed, 0xfa, 0xcf]))
            && has_at(object, 12, &[0, 0, 0, 1]))
}

/// Whether the number of a usual machine of COFF is at this place.
fn is_machine_at(object: &[u8], at: usize) -> bool
    ensures { result ≡ is_machine_at object.now at }
{
    has_at(object, at, &[0x64, 0x86])
        || has_at(object, at, &[0x4c, 0x01])
        || has_at(object, at, &[0xc0, 0x01])
        || has_at(object, at, &[0xc4, 0x01])
        || has_at(object, at, &[0x64, 0xaa])
}

/// Whether the bytes are a COFF object.
pub fn is_coff(object: &[u8]) -> bool
    ensures { result ≡ is_coff object.now }
{
    (is_machine_at(object, 0) && has_at(object, 16, &[0, 0]))
        || (has_at(object, 0, &[0, 0, 0xff, 0xff]) && is_machine_at(object, 6))
}

/// Whether the bytes are WebAssembly.
pub fn is_wasm(object: &[u8]) -> bool
    ensures { result ≡ is_wasm object.now }
{
    has_at(object, 0, &[0, b'a', b's', b'm', 1, 0, 0, 0])
}

/// Whether the bytes are LLVM's bitcode.
pub fn is_bitcode(object: &[u8]) -> bool
    ensures { result ≡ is_bitcode object.now }
{
    has_at(object, 0, &[b'B', b'C', 0xc0, 0xde]) || has_at(object, 0, &[0xde, 0xc0, 0x17, 0x0b])
}

/// Whether the bytes are text: at least one, and none is zero.
pub fn is_text(bytes: &[u8]) -> bool
    ensures { result ≡ is_text bytes.now }
{
    !bytes.is_empty() && !bytes.contains(&0)
}
