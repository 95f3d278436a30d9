//! Bytes that spell a text.

ghost use Rattle.std.specs.Prelude.{◌≡◌, true, false, MatchOption};
ghost use Rattle.std.specs.Str.{is_utf8};

/// The text that the bytes spell, if they are UTF-8.
pub(crate) fn utf8_text(bytes: &[u8]) -> Option<&str>
    ensures { MatchOption result (is_utf8 bytes.now ≡ false) (λ s. (s.now ≡ bytes.now)
        × (is_utf8 bytes.now ≡ true)) }
{
    str::from_utf8(bytes).ok()
}
