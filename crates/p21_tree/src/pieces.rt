//! A part of a file's data section that is read by itself.

ghost use Rattle.std.specs.Prelude.{ℕ, ◌+◌, ◌<◌, ◌^◌, length};

/// A part of a file's data section, from a `#` on.
#[derive(Clone, Copy, Debug)]
pub struct Piece<'a> {
    /// Its number in the file, from 0 on.
    pub number: u64,
    /// Its place, in bytes from the file's first byte.
    pub at: u64,
    /// Its bytes.
    pub bytes: &'a [u8],
    /// Places in it are below 2^64.
    pub ghost fits: { at + length bytes.now < 2 ^ 64 },
}
