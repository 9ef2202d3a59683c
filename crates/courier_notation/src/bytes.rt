//! Which bytes a text is made of.
ghost use Rattle.std.specs.Prelude.{◌≡◌};
ghost use Rattle.courier_notation.specs.Lexing.{is_blank as is_blank_of, is_digit as is_digit_of, is_letter as is_letter_of};
ghost use Rattle.courier_notation.specs.Lexing.{is_line_end as is_line_end_of, is_name_byte as is_name_byte_of};

/// Whether the byte ends a line.
pub fn is_line_end(byte: u8) -> bool
    ensures { result ≡ is_line_end_of byte }
{
    byte == b'\n' || byte == b'\r'
}

/// Whether the byte is a blank.
pub fn is_blank(byte: u8) -> bool
    ensures { result ≡ is_blank_of byte }
{
    byte == b' ' || byte == b'\t' || is_line_end(byte)
}

/// Whether the byte is a letter of ASCII.
pub fn is_letter(byte: u8) -> bool
    ensures { result ≡ is_letter_of byte }
{
    (b'A' <= byte && byte <= b'Z') || (b'a' <= byte && byte <= b'z')
}

/// Whether the byte is a digit.
pub fn is_digit(byte: u8) -> bool
    ensures { result ≡ is_digit_of byte }
{
    b'0' <= byte && byte <= b'9'
}

/// Whether the byte may stand in a name behind its first letter.
pub fn is_name_byte(byte: u8) -> bool
    ensures { result ≡ is_name_byte_of byte }
{
    is_letter(byte) || is_digit(byte)
}
