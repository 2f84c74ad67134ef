//! The text of a log, which a judge owns or borrows.

ghost use Rattle.std.specs.Prelude.{◌≡◌, ℕ, List};

/// The text of a log, which a judge owns or borrows.
pub trait LogText: Drop {
    /// Its bytes.
    ghost text: { Self → List ℕ };

    /// Lends its bytes.
    fn bytes(&self) -> &[u8]
        ensures { result.now ≡ text self.now };
}

impl LogText for Vec<u8> {
    ghost text = { λ bytes. bytes.items };

    fn bytes(&self) -> &[u8] {
        self.as_slice()
    }
}

impl<'a> LogText for &'a [u8] {
    ghost text = { λ bytes. bytes.now };

    fn bytes(&self) -> &[u8] {
        self
    }
}
