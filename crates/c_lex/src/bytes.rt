// Classes of bytes.
ghost use Rattle.std.specs.Prelude.{◌≡◌};
ghost use Rattle.c_lex.specs.Bytes.{is_blank, is_letter, is_digit, continues_word, continues_number, is_constant_byte, is_escaped_byte, is_string_byte};

pub fn is_blank(byte: u8) -> bool
    ensures { result ≡ is_blank byte }
{
    byte == b' ' || (9 <= byte && byte <= 13)
}

pub fn is_letter(byte: u8) -> bool
    ensures { result ≡ is_letter byte }
{
    (b'A' <= byte && byte <= b'Z') || (b'a' <= byte && byte <= b'z') || byte == b'_'
}

pub fn is_digit(byte: u8) -> bool
    ensures { result ≡ is_digit byte }
{
    b'0' <= byte && byte <= b'9'
}

pub fn continues_word(byte: u8) -> bool
    ensures { result ≡ continues_word byte }
{
    is_letter(byte) || is_digit(byte)
}

pub fn continues_number(byte: u8) -> bool
    ensures { result ≡ continues_number byte }
{
    continues_word(byte) || byte == b'.'
}

pub fn is_constant_byte(byte: u8) -> bool
    ensures { result ≡ is_constant_byte byte }
{
    32 <= byte && byte <= 126 && byte != b'\'' && byte != b'\\'
}

pub fn is_escaped_byte(byte: u8) -> bool
    ensures { result ≡ is_escaped_byte byte }
{
    byte <= 127 && byte != b'\n'
}

pub fn is_string_byte(byte: u8) -> bool
    ensures { result ≡ is_string_byte byte }
{
    is_escaped_byte(byte) && byte != b'"' && byte != b'\\'
}
