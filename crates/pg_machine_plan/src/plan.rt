//! What a grammar is laid out as.
//!
//! A plan is data. Whether it is laid out for a grammar is another question (`specs/Layout.antt`).

ghost use Rattle.std.specs.Prelude.{◌≡◌};

use crate::instruction::{Arm, Instruction, Stretch};
use std::marker::Model;

/// Code with its tables and stretches, and where the run over a text begins.
#[derive(Drop)]
pub struct Plan {
    code: Vec<Instruction>,
    arms: Vec<Arm>,
    stretches: Vec<Option<Stretch>>,
    entry: usize,
}

impl Model for Plan {
    ghost use Rattle.pg_machine_plan.specs.Plans.{Plan as Laid};

    ghost Value = { Laid };

    ghost view = { λ p. record { code = p.code.items; arms = p.arms.items; stretches = p.stretches.items; entry = p.entry } };
}

impl Plan {
    /// The plan of these parts. A table is 130 arms, one after another: for each character of ASCII, for all others, and for the end.
    pub fn new(
        code: Vec<Instruction>,
        arms: Vec<Arm>,
        stretches: Vec<Option<Stretch>>,
        entry: usize,
    ) -> Plan
        ensures { result ≡ record { code = code.items; arms = arms.items; stretches = stretches.items; entry = entry } }
    {
        Plan {
            code,
            arms,
            stretches,
            entry,
        }
    }

    /// The instructions.
    pub fn code(&self) -> &[Instruction]
        ensures { result.now ≡ self.now.code }
    {
        self.code.as_slice()
    }

    /// The arms of all tables.
    pub fn arms(&self) -> &[Arm]
        ensures { result.now ≡ self.now.arms }
    {
        self.arms.as_slice()
    }

    /// The stretches, by where they begin.
    pub fn stretches(&self) -> &[Option<Stretch>]
        ensures { result.now ≡ self.now.stretches }
    {
        self.stretches.as_slice()
    }

    /// Where the run over a text begins.
    pub fn entry(&self) -> usize
        ensures { result ≡ self.now.entry }
    {
        self.entry
    }
}
