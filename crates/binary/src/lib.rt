// The binary form of a circuit's text (specification, 4.16); the definitions and their laws stand beside it.
#![tactic(auto)]

// The file opens with the four bytes `aig` and a space.
pub const MAGIC: [u8; 4] = *b"aig ";
