// What is written of an answer.

/// What is written, once there is an answer.
#[derive(Drop)]
pub enum Reply {
    /// The text of an answer, and whether something in it is left open.
    Answer { text: Vec<u8>, left_open: bool },
    /// The line of a certificate whose formula is another one than ours.
    OtherFormula { line: Vec<u8> },
}
