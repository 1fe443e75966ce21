//! The names of the tokens.

use crate::token::Name4;

/// The version of a request.
pub const DIST: Name4 = Name4(*b"DIST");

/// The number of words.
pub const ARGC: Name4 = Name4(*b"ARGC");

/// One word.
pub const ARGV: Name4 = Name4(*b"ARGV");

/// The source.
pub const DOTI: Name4 = Name4(*b"DOTI");

/// The version of a reply.
pub const DONE: Name4 = Name4(*b"DONE");

/// The wait status.
pub const STAT: Name4 = Name4(*b"STAT");

/// The bytes of standard error.
pub const SERR: Name4 = Name4(*b"SERR");

/// The bytes of standard output.
pub const SOUT: Name4 = Name4(*b"SOUT");

/// The object.
pub const DOTO: Name4 = Name4(*b"DOTO");
