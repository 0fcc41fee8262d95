// Lines and columns.
ghost use Rattle.std.specs.Prelude.{◌≡◌, ◌+◌, ◌<◌, ◌≤◌, ◌^◌, length};
ghost use Rattle.c_lex.specs.Places.{after_bytes};

/// The position of a byte in a text.
#[derive(Clone, Copy, Debug)]
pub struct Position {
    /// The line, from 1.
    pub line: usize,
    /// The column in bytes, from 1.
    pub column: usize,
}

/// The position after these bytes.
pub fn after_bytes(from: Position, bytes: &[u8]) -> Position
    requires line { from.line + length bytes.now < 2 ^ 64 }
    requires column { from.column + length bytes.now < 2 ^ 64 }
    ensures value { result ≡ after_bytes from bytes.now }
    ensures line { result.line ≤ from.line + length bytes.now }
    ensures column { result.column ≤ from.column + length bytes.now }
{
    let mut position = from;
    for byte in bytes {
        position = if *byte == b'\n' {
            Position {
                line: position.line + 1,
                column: 1,
            }
        } else {
            Position {
                line: position.line,
                column: position.column + 1,
            }
        };
    }
    position
}
