//! Escapes after a backslash between quotes.
#![tactic(auto)]

ghost use Rattle.std.specs.Prelude.{◌≡◌};
ghost use Rattle.aterm_text.specs.Tokens.{octal_byte, short_escape, is_octal_digit};

/// The byte that one of `"`, `\`, `n`, `t` and `r` stands for after a backslash, or `None` for any
/// other byte: a line feed for `n`, for example.
pub fn short_escape(byte: u8) -> Option<u8>
    ensures { result ≡ short_escape byte }
{
    match byte {
        b'"' => Some(b'"'),
        b'\\' => Some(b'\\'),
        b'n' => Some(b'\n'),
        b't' => Some(b'\t'),
        b'r' => Some(b'\r'),
        _ => None,
    }
}

/// The byte that three octal digits stand for, or `None` if they are no octal digits or stand for
/// more than 255: 65 for `101`, 255 for `377`, `None` for `400`.
pub fn octal_byte(a: u8, b: u8, c: u8) -> Option<u8>
    ensures { result ≡ octal_byte a b c }
{
    if !(is_octal(a) && is_octal(b) && is_octal(c)) {
        return None;
    }
    let value = 64 * u32::from(a - b'0') + 8 * u32::from(b - b'0') + u32::from(c - b'0');
    match u8::try_from(value) {
        Ok(byte) => Some(byte),
        Err(_) => None,
    }
}

fn is_octal(b: u8) -> bool
    ensures { result ≡ is_octal_digit b }
{
    matches!(b, b'0'..=b'7')
}
