//! The bytes that tokens are made of.
ghost use Rattle.std.specs.Prelude.{◌≡◌, ◌≤◌, length, drop};
ghost use Rattle.span_lexer.specs.Characters as character;

/// Whether the byte is a space, a tab, a CR or an LF.
#[tactic(auto, unfolding(crate::specs::Characters::is_blank))]
pub(crate) fn is_blank(byte: u8) -> bool
    ensures { result ≡ character.is_blank byte }
{
    matches!(byte, b' ' | b'\t' | b'\r' | b'\n')
}

/// Whether the byte is an ASCII letter or `_`.
#[tactic(auto, unfolding(crate::specs::Characters::is_letter))]
pub fn is_letter(byte: u8) -> bool
    ensures { result ≡ character.is_letter byte }
{
    matches!(byte, b'A'..=b'Z' | b'a'..=b'z' | b'_')
}

#[tactic(auto, unfolding(crate::specs::Characters::is_digit))]
pub(crate) fn is_digit(byte: u8) -> bool
    ensures { result ≡ character.is_digit byte }
{
    matches!(byte, b'0'..=b'9')
}

/// Whether the byte is a letter, a digit or `_`.
#[tactic(auto, unfolding(crate::specs::Characters::is_word))]
pub fn is_word(byte: u8) -> bool
    ensures { result ≡ character.is_word byte }
{
    is_letter(byte) || is_digit(byte)
}

/// Whether the byte is a hexadecimal digit in either case.
#[tactic(auto, unfolding(crate::specs::Characters::is_hex))]
pub(crate) fn is_hex(byte: u8) -> bool
    ensures { result ≡ character.is_hex byte }
{
    matches!(byte, b'0'..=b'9' | b'A'..=b'F' | b'a'..=b'f')
}

#[tactic(auto, unfolding(crate::specs::Characters::is_quote))]
pub(crate) fn is_quote(byte: u8) -> bool
    ensures { result ≡ character.is_quote byte }
{
    matches!(byte, b'\'' | b'"')
}

/// Whether the byte is the mark of a bytes literal.
#[tactic(auto, unfolding(crate::specs::Characters::is_mark))]
pub(crate) fn is_mark(byte: u8) -> bool
    ensures { result ≡ character.is_mark byte }
{
    matches!(byte, b'b' | b'B')
}

/// Whether the byte after a backslash is an escape of one letter.
#[tactic(auto, unfolding(crate::specs::Characters::is_escape))]
pub(crate) fn is_escape(byte: u8) -> bool
    ensures { result ≡ character.is_escape byte }
{
    matches!(byte, b'\\' | b'\'' | b'"' | b'n' | b'r' | b't')
}

/// Whether the byte is an octal digit: the first digit of `\xhh` in a string, up to `7f`.
#[tactic(auto, unfolding(crate::specs::Characters::is_octal))]
pub(crate) fn is_octal(byte: u8) -> bool
    ensures { result ≡ character.is_octal byte }
{
    matches!(byte, b'0'..=b'7')
}

/// The bytes from a place on.
pub(crate) fn from_place(bytes: &[u8], place: usize) -> &[u8]
    requires { place ≤ length bytes.now }
    ensures { result.now ≡ drop place bytes.now }
{
    &bytes[place..]
}
