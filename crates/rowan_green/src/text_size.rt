//! Offsets and lengths in a text.
ghost use Rattle.std.specs.Prelude.{◌≡◌};

/// An offset in a text, or a length, in bytes.
#[derive(Clone, Copy, Debug, PartialEq, Eq, PartialOrd, Ord, Hash)]
pub struct TextSize(pub u32);

impl TextSize {
    /// Returns a size of `bytes` bytes.
    pub const fn new(bytes: u32) -> TextSize
        ensures { result.0 ≡ bytes }
    {
        TextSize(bytes)
    }
}

impl From<u32> for TextSize {
    ghost use Rattle.std.specs.Prelude.{◌≡◌};

    ghost from_gives = { λ bytes size. size.0 ≡ bytes };

    fn from(bytes: u32) -> TextSize {
        TextSize::new(bytes)
    }
}

impl From<TextSize> for u32 {
    ghost use Rattle.std.specs.Prelude.{◌≡◌};

    ghost from_gives = { λ size bytes. bytes ≡ size.0 };

    fn from(size: TextSize) -> u32 {
        size.0
    }
}

impl From<TextSize> for usize {
    ghost use Rattle.std.specs.Prelude.{◌≡◌};

    ghost from_gives = { λ size bytes. bytes ≡ size.0 };

    fn from(size: TextSize) -> usize {
        u32::from(size) as usize
    }
}
