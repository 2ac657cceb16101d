//! The text that is read.

ghost use Rattle.std.specs.Prelude.{ℕ, ◌+◌, ◌<◌, ◌^◌, length};

/// A file, or a part of it.
#[derive(Clone, Copy)]
pub struct Source<'a> {
    /// The bytes.
    pub text: &'a [u8],
    /// The place of the first of them in the file.
    pub base: u64,
    ghost fits: { base + length text.now < 2 ^ 64 },
}
