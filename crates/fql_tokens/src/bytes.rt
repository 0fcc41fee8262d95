// Classes of bytes.
ghost use Rattle.std.specs.Prelude.{◌≡◌};
ghost use Rattle.fql_tokens.specs.Bytes.{is_blank, is_letter, is_digit, continues_word, is_predicate_byte, is_file_byte};

pub fn is_blank(byte: u8) -> bool
    ensures { result ≡ is_blank byte }
{
    byte == b' ' || byte == b'\t' || byte == b'\n' || byte == b'\r'
}

pub fn is_letter(byte: u8) -> bool
    ensures { result ≡ is_letter byte }
{
    (b'A' <= byte && byte <= b'Z') || (b'a' <= byte && byte <= b'z') || byte == b'_'
}

pub fn is_digit(byte: u8) -> bool
    ensures { result ≡ is_digit byte }
{
    byte.is_ascii_digit()
}

pub fn continues_word(byte: u8) -> bool
    ensures { result ≡ continues_word byte }
{
    is_letter(byte) || is_digit(byte)
}

pub fn is_predicate_byte(byte: u8) -> bool
    ensures { result ≡ is_predicate_byte byte }
{
    byte != b'{' && byte != b'}' && byte != b'"'
}

pub fn is_file_byte(byte: u8) -> bool
    ensures { result ≡ is_file_byte byte }
{
    32 < byte && byte != 127 && byte != b')' && byte != b'"'
}
