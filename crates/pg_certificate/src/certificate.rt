//! What a certificate claims, rule by rule.
//!
//! A claim guarantees nothing: its maker may have made it up. Starts keep the order in which they were claimed, and any
//! repetition.

ghost use Rattle.std.specs.Prelude.{◌≡◌, [], ◌∷◌, ◌++◌, OnErr, OnOk};

use pg_class::Class;
use pg_grammar_form::WordId;
use pg_text::Characters;
use std::alloc::{AllocError, Global};
use std::marker::Model;

/// A start that is claimed to be in a set.
#[derive(Drop)]
pub enum ClaimedStart {
    /// A character of the class.
    Class(Class),
    /// This text, with no character of the class after it.
    Key(Characters, Class),
    /// A word of the word item with this number.
    Word(WordId),
    /// An operator.
    Operator,
    /// The end of the text.
    End,
}

/// The starts of a set, seen as their list.
#[derive(Drop)]
pub struct ClaimedStarts {
    starts: Vec<ClaimedStart>,
}

impl Model for ClaimedStarts {
    ghost use Rattle.std.specs.Prelude.{List};
    ghost use Rattle.pg_certificate.specs.declared.certificate.ClaimedStart.{ClaimedStart};

    ghost Value = { List ClaimedStart };

    ghost view = { λ s. s.starts.items };
}

impl ClaimedStarts {
    /// No starts. It allocates no memory.
    pub fn new(alloc: Global) -> ClaimedStarts
        ensures { result ≡ [] }
    {
        ClaimedStarts {
            starts: Vec::new(alloc),
        }
    }

    /// Appends a start. The only error is that memory ran out: the starts are then unchanged, and the new one is dropped.
    pub fn push(&mut self, start: ClaimedStart) -> Result<(), AllocError>
        ensures ok { OnOk result (self.new ≡ self.old ++ start ∷ []) }
        ensures err { OnErr result (self.new ≡ self.old) }
    {
        self.starts.push(start)?;
        Ok(())
    }

    /// The starts, as they were claimed.
    pub fn as_slice(&self) -> &[ClaimedStart]
        ensures { result.now ≡ self.now }
    {
        self.starts.as_slice()
    }
}

/// The claims about a rule.
#[derive(Drop)]
pub struct RuleClaim {
    /// The name of the rule.
    pub rule: Characters,
    /// Whether it can succeed on nothing.
    pub nullable: bool,
    /// Its rank, which is above the rank of each rule that its body uses before anything is consumed.
    pub rank: u32,
    /// The step cost of its body, in turns of the machine's loop: the most that a run of it takes that consumes nothing.
    pub cost: u64,
    /// What can begin what it reads.
    pub first: ClaimedStarts,
    /// What can follow it, at any of its uses.
    pub follow: ClaimedStarts,
}

/// The claims about the rules of a grammar. Contracts see it as the list of the claims (ours).
#[derive(Drop)]
pub struct Certificate {
    claims: Vec<RuleClaim>,
}

impl Model for Certificate {
    ghost use Rattle.std.specs.Prelude.{List};
    ghost use Rattle.pg_certificate.specs.declared.certificate.RuleClaim.{RuleClaim};

    ghost Value = { List RuleClaim };

    ghost view = { λ c. c.claims.items };
}

impl Certificate {
    /// The certificate without claims. It allocates no memory.
    pub fn new(alloc: Global) -> Certificate
        ensures { result ≡ [] }
    {
        Certificate {
            claims: Vec::new(alloc),
        }
    }

    /// Appends a claim. The only error is that memory ran out: the certificate is then unchanged, and the claim is dropped.
    pub fn push(&mut self, claim: RuleClaim) -> Result<(), AllocError>
        ensures ok { OnOk result (self.new ≡ self.old ++ claim ∷ []) }
        ensures err { OnErr result (self.new ≡ self.old) }
    {
        self.claims.push(claim)?;
        Ok(())
    }

    /// The claims, one for each rule in file order.
    pub fn claims(&self) -> &[RuleClaim]
        ensures { result.now ≡ self.now }
    {
        self.claims.as_slice()
    }
}
