ghost use Rattle.std.specs.Prelude.{◌≡◌};
ghost use Rattle.c_values.specs.Kind.{is_kind};

/// An integer type of C (ISO/IEC 9899:2011, 6.2.5): how many bits it has, and whether it has a sign.
///
/// A value of a kind is a whole number of its range. It is kept as a pattern of 64 bits: its two's complement where
/// the kind has a sign, and the number itself where it has none.
#[derive(Clone, Copy, Debug, PartialEq, Eq)]
pub struct Kind {
    /// The number of bits: 8, 16, 32 or 64.
    pub width: u8,
    /// Whether the kind has negative numbers.
    pub signed: bool,
}

impl Kind {
    /// `char` and `signed char`: -128 to 127.
    pub const CHAR: Kind = Kind {
        width: 8,
        signed: true,
    };

    /// `unsigned char`: 0 to 255.
    pub const UNSIGNED_CHAR: Kind = Kind {
        width: 8,
        signed: false,
    };

    /// `short`: -32768 to 32767.
    pub const SHORT: Kind = Kind {
        width: 16,
        signed: true,
    };

    /// `unsigned short`: 0 to 65535.
    pub const UNSIGNED_SHORT: Kind = Kind {
        width: 16,
        signed: false,
    };

    /// `int`: -2^31 to 2^31 - 1.
    pub const INT: Kind = Kind {
        width: 32,
        signed: true,
    };

    /// `unsigned int`: 0 to 2^32 - 1.
    pub const UNSIGNED_INT: Kind = Kind {
        width: 32,
        signed: false,
    };

    /// `long` and `long long`: -2^63 to 2^63 - 1.
    pub const LONG: Kind = Kind {
        width: 64,
        signed: true,
    };

    /// `unsigned long` and `unsigned long long`: 0 to 2^64 - 1.
    pub const UNSIGNED_LONG: Kind = Kind {
        width: 64,
        signed: false,
    };
}

/// Whether this is a kind: whether its width is 8, 16, 32 or 64.
pub fn is_kind(kind: Kind) -> bool
    ensures { result ≡ is_kind kind }
{
    matches!(kind.width, 8 | 16 | 32 | 64)
}
