//! A text looked at whole.

ghost use Rattle.std.specs.Prelude.{◌≡◌};
ghost use Rattle.hs_text.specs.Tidy.{is_stray, is_separator, is_tidy};

/// Whether a byte ends a word or a line.
fn is_separator(byte: u8) -> bool
    ensures { result ≡ is_separator byte }
{
    byte == b' ' || byte == b'\n'
}

/// Whether a byte neither prints nor ends a line.
fn is_stray(byte: u8) -> bool
    ensures { result ≡ is_stray byte }
{
    (byte < b' ' && byte != b'\n') || b'~' < byte
}

/// Whether nothing is wrong with any line of a text by itself. It has no way out before the end, so that the compiler looks at
/// many bytes at once.
pub fn is_tidy(text: &[u8]) -> bool
    ensures { result ≡ is_tidy text.now }
{
    let mut is_tidy = true;
    let mut is_behind = true;
    for byte in text {
        let is_separator = is_separator(*byte);
        is_tidy &= !(is_stray(*byte) | (is_separator & is_behind));
        is_behind = is_separator;
    }
    is_tidy
}
