// The words and marks of C that the profile leaves out (ISO/IEC 9899:2011, 6.4.1 and 6.4.6).
ghost use Rattle.std.specs.Prelude.{◌≡◌};
ghost use Rattle.c_lex.specs.Constants.{foreign_words, foreign_words_of_1999, foreign_words_of_2011, foreign_marks, is_among, is_foreign_word};

fn is_first_foreign_word(text: &[u8]) -> bool
    ensures { result ≡ is_among foreign_words text.now }
{
    text == b"struct".as_slice()
        || text == b"union".as_slice()
        || text == b"typedef".as_slice()
        || text == b"float".as_slice()
        || text == b"double".as_slice()
        || text == b"goto".as_slice()
        || text == b"sizeof".as_slice()
        || text == b"volatile".as_slice()
        || text == b"register".as_slice()
        || text == b"auto".as_slice()
}

fn is_foreign_word_of_1999(text: &[u8]) -> bool
    ensures { result ≡ is_among foreign_words_of_1999 text.now }
{
    text == b"restrict".as_slice()
        || text == b"_Bool".as_slice()
        || text == b"_Complex".as_slice()
        || text == b"_Imaginary".as_slice()
}

fn is_foreign_word_of_2011(text: &[u8]) -> bool
    ensures { result ≡ is_among foreign_words_of_2011 text.now }
{
    text == b"_Alignas".as_slice()
        || text == b"_Alignof".as_slice()
        || text == b"_Atomic".as_slice()
        || text == b"_Generic".as_slice()
        || text == b"_Noreturn".as_slice()
        || text == b"_Static_assert".as_slice()
        || text == b"_Thread_local".as_slice()
}

/// Whether a word is one that the profile leaves out (6.4.1).
pub fn is_foreign_word(text: &[u8]) -> bool
    ensures { result ≡ is_foreign_word text.now }
{
    is_first_foreign_word(text) || is_foreign_word_of_1999(text) || is_foreign_word_of_2011(text)
}

/// Whether a mark is one that the profile leaves out (6.4.6).
pub fn is_foreign_mark(text: &[u8]) -> bool
    ensures { result ≡ is_among foreign_marks text.now }
{
    text == b".".as_slice() || text == b"->".as_slice() || text == b"...".as_slice()
}
