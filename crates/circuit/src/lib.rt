// The counts of a circuit and their ceilings; specs and proofs: the circuit, its table of words, and their laws (specification, 3).
#![tactic(auto)]

ghost use Rattle.std.specs.Prelude.{◌≡◌, ◌+◌, ◌*◌};
ghost use Rattle.circuit.specs.Table.{variables, top, verdicts, literals, literals_at, constraints_at, gates_at, table_length};
ghost use Rattle.circuit.specs.RulesInCode.{Bounded, Legal};
ghost use Rattle.circuit.specs.Answer.{number_of, answered};

// I, L, O, A, B and C.
#[repr(C)]
#[derive(Clone, Copy)]
pub struct Counts {
    pub inputs: usize,
    pub latches: usize,
    pub lamps: usize,
    pub gates: usize,
    pub bads: usize,
    pub constraints: usize,
}

// Why a call refuses what it is given, with the number that stands for it (specification, 7.1). 15 and 18 say more, and have types of their own.
#[derive(Clone, Copy, Debug, PartialEq, Eq)]
pub enum Refusal {
    TextTooLong = 1,
    FirstLine = 2,
    OverCeiling = 3,
    BodyLine = 4,
    OwnLiteral = 5,
    LiteralTooLarge = 6,
    OperandNotBelow = 7,
    Reset = 8,
    Trailing = 9,
    TooShort = 10,
    BrokenTable = 11,
    Interval = 12,
    CubeBuffer = 13,
    Unsound = 14,
    NothingToJudge = 16,
    StartNotCovered = 17,
    NotAChain = 19,
    Definition = 20,
    Undefined = 21,
    Loop = 22,
    NoSuchLamp = 23,
    LampUnknown = 24,
    Beginners = 25,
    Difference = 26,
}

impl Refusal {
    pub fn number(self) -> u32
        ensures { result ≡ number_of self }
    {
        self as u32
    }
}

// The number of a call's answer that says nothing else: 0 where nothing is refused.
pub fn number(answer: Result<(), Refusal>) -> u32
    ensures { result ≡ answered answer }
{
    match answer {
        Ok(()) => 0,
        Err(refusal) => refusal.number(),
    }
}

// Ceilings: I 256, L 512, O 64, A 3,327, B 64, C 64.
pub const MOST_INPUTS: usize = 256;

pub const MOST_LATCHES: usize = 512;

pub const MOST_LAMPS: usize = 64;

pub const MOST_GATES: usize = 3327;

pub const MOST_BADS: usize = 64;

pub const MOST_CONSTRAINTS: usize = 64;

impl Counts {
    // M: inputs, latches and gates.
    pub fn variables(self) -> usize
        requires { Bounded self }
        ensures { result ≡ variables self }
    {
        self.inputs + self.latches + self.gates
    }

    // The largest literal.
    pub fn top(self) -> usize
        requires { Bounded self }
        ensures { result ≡ top self }
    {
        2 * self.variables() + 1
    }

    // The own literal of the first latch.
    pub fn first_latch(self) -> usize
        requires { Bounded self }
        ensures { result ≡ 2 + 2 * self.inputs }
    {
        2 + 2 * self.inputs
    }

    // The own literal of the first gate.
    pub fn first_gate(self) -> usize
        requires { Bounded self }
        ensures { result ≡ 2 + 2 * self.inputs + 2 * self.latches }
    {
        self.first_latch() + 2 * self.latches
    }

    // How many verdicts a run gives: one for each lamp, then one for each bad state.
    pub fn verdicts(self) -> usize
        requires { Bounded self }
        ensures { result ≡ verdicts self }
    {
        self.lamps + self.bads
    }

    // The lines of one literal: how many, and the word of the first.
    pub fn literals(self) -> usize
        requires { Bounded self }
        ensures { result ≡ literals self }
    {
        self.verdicts() + self.constraints
    }

    pub fn literals_at(self) -> usize
        requires { Bounded self }
        ensures { result ≡ literals_at self }
    {
        2 * self.latches
    }

    // The word of the first constraint.
    pub fn constraints_at(self) -> usize
        requires { Bounded self }
        ensures { result ≡ constraints_at self }
    {
        self.literals_at() + self.verdicts()
    }

    // The word of the first gate.
    pub fn gates_at(self) -> usize
        requires { Bounded self }
        ensures { result ≡ gates_at self }
    {
        self.literals_at() + self.literals()
    }

    // It takes 2 × L + O + B + C + 2 × A words.
    pub fn table_length(self) -> usize
        requires { Bounded self }
        ensures { result ≡ table_length self }
    {
        self.gates_at() + 2 * self.gates
    }
}

// Counts, and a table of words with them that 3, 10 and 11 do not refuse.
#[derive(Clone, Copy)]
pub struct Board<'a> {
    pub counts: Counts,
    pub table: &'a [u16],
    pub ghost legal: { Legal counts table.now },
}
