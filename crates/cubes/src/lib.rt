// What the calls over cubes answer; specs and proofs: the run, what it promises, and their laws (specification, 5).
#![tactic(auto)]

ghost use Rattle.std.specs.Prelude.{◌≡◌};
ghost use Rattle.cubes.specs.declared.ChainRefusal.TheVariants.{Refused, Full};
ghost use Rattle.cubes.specs.Answers.{chain_answer, judge_answer};

use circuit::Refusal;

// A run that stopped: its n cubes, and the number j of the one that the last goes back to, n where it ended.
#[derive(Clone, Copy)]
pub struct Chain {
    pub cubes: usize,
    pub back: usize,
}

// No room for a cube more (15): how many are stored.
#[derive(Clone, Copy, Debug)]
pub struct NoRoom {
    pub cubes: usize,
}

// Why the call chain refuses.
#[derive(Clone, Copy)]
pub enum ChainRefusal {
    Refused(Refusal),
    Full(NoRoom),
}

impl From<Refusal> for ChainRefusal {
    ghost from_gives = { λ r e. e ≡ Refused r };

    fn from(refusal: Refusal) -> ChainRefusal {
        ChainRefusal::Refused(refusal)
    }
}

impl From<NoRoom> for ChainRefusal {
    ghost from_gives = { λ n e. e ≡ Full n };

    fn from(full: NoRoom) -> ChainRefusal {
        ChainRefusal::Full(full)
    }
}

// What the call chain answers in C: n and j.
#[repr(C)]
#[derive(Clone, Copy)]
pub struct ChainAnswer {
    pub number: u32,
    pub cubes: usize,
    pub back: usize,
}

impl From<Result<Chain, ChainRefusal>> for ChainAnswer {
    ghost from_gives = { λ r a. a ≡ chain_answer r };

    fn from(answer: Result<Chain, ChainRefusal>) -> ChainAnswer {
        match answer {
            Ok(chain) => ChainAnswer {
                number: 0,
                cubes: chain.cubes,
                back: chain.back,
            },
            Err(ChainRefusal::Refused(refusal)) => ChainAnswer {
                number: refusal.number(),
                cubes: 0,
                back: 0,
            },
            Err(ChainRefusal::Full(full)) => ChainAnswer {
                number: 15,
                cubes: full.cubes,
                back: 0,
            },
        }
    }
}

// What the call judge answers in C: s, the number of settled latches.
#[repr(C)]
#[derive(Clone, Copy)]
pub struct JudgeAnswer {
    pub number: u32,
    pub settled: usize,
}

impl From<Result<usize, Refusal>> for JudgeAnswer {
    ghost from_gives = { λ r a. a ≡ judge_answer r };

    fn from(answer: Result<usize, Refusal>) -> JudgeAnswer {
        match answer {
            Ok(settled) => JudgeAnswer { number: 0, settled },
            Err(refusal) => JudgeAnswer {
                number: refusal.number(),
                settled: 0,
            },
        }
    }
}
