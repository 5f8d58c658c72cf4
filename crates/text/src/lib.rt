// What the reader and the writer share of the text of a circuit (specification, 4); the definitions and their laws stand beside it.
#![tactic(auto)]

ghost use Rattle.std.specs.Prelude.{◌≡◌};
ghost use Rattle.circuit.specs.Table.{width};
ghost use Rattle.text.specs.KindsInCode.{coded};

// The file opens with the four bytes `aag` and a space.
pub const MAGIC: [u8; 4] = *b"aag ";

// The kinds of line that a text has, in the order of the text.
#[derive(Clone, Copy, Debug, PartialEq, Eq)]
pub enum LineKind {
    Input,
    Latch,
    Lamp,
    Gate,
}

impl LineKind {
    // How many words of the table belong to a line.
    pub fn words(self) -> usize
        ensures { result ≡ width (coded self 0) }
    {
        match self {
            LineKind::Input => 0,
            LineKind::Lamp => 1,
            LineKind::Latch | LineKind::Gate => 2,
        }
    }
}
