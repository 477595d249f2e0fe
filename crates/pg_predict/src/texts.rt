//! The words of violations, which are written only here.
//!
//! The names of rules and the texts of starts are made in advance, so a line is put together from pieces, without allocating.
ghost use Rattle.std.specs.Prelude.{◌≡◌, ◌++◌, IfOk, map, decimal, string_bytes};
ghost use Rattle.pg_sets_own.specs.PrintedStarts.{start_text};
ghost use Rattle.pg_predict_conditions.specs.Judged.{all_starts};
ghost use Rattle.pg_predict_conditions.specs.declared.violation.ViolationKind.TheVariants.{AlternativesMeet, AlternativeMeetsFollow, RoundMeetsFollow};
ghost use Rattle.pg_predict.specs.Findings.{name_text, words_text};
ghost use Rattle.pg_predict.specs.Texts.{AreTexts, name_at, start_text_at};
ghost use Rattle.pg_text_pieces.specs.Writing.{pieces_bytes};

use pg_grammar_value::{Grammar, Rule};
use pg_predict_conditions::{Judge, ViolationKind};
use pg_sets_own::{ListedStart, printed_start};
use pg_text_pieces::Piece;
use std::alloc::{AllocError, Global};

/// The texts of a grammar's rules and starts, from which the words of a violation are put together (ours).
#[derive(Drop)]
pub struct Texts {
    /// The names, by the numbers of rules.
    pub names: Vec<String>,
    /// The starts of the sets.
    pub listed: Vec<String>,
    /// The operator start, or `end` if there are no operators.
    pub own: String,
}

/// The texts of a grammar.
pub(crate) fn texts_of(alloc: Global, grammar: &Grammar, judge: &Judge) -> Result<Texts, AllocError>
    ensures { IfOk result (AreTexts grammar.now (all_starts judge.now)) }
{
    let names = names(alloc, grammar.rules())?;
    let listed = start_texts(alloc, grammar, judge.starts())?;
    let own = own_text(alloc, grammar, judge)?;
    Ok(Texts { names, listed, own })
}

/// The names of rules.
fn names(alloc: Global, rules: &[Rule]) -> Result<Vec<String>, AllocError>
    ensures { IfOk result (λ names. map string_bytes names.items ≡ map name_text rules.now) }
{
    let mut names = Vec::new(alloc);
    for rule in rules {
        names.push(format!(in alloc; "{}", rule.name)?)?;
    }
    Ok(names)
}

/// The printed forms of starts.
fn start_texts(
    alloc: Global,
    grammar: &Grammar,
    starts: &[ListedStart],
) -> Result<Vec<String>, AllocError>
    ensures { IfOk result (λ texts. map string_bytes texts.items ≡ map (start_text grammar.now) starts.now) }
{
    let mut texts = Vec::new(alloc);
    for listed in starts {
        texts.push(printed_start(alloc, grammar, listed)?)?;
    }
    Ok(texts)
}

/// The printed form of the operator start, or `end` if there are no operators.
#[tactic(auto, using(crate::proofs::Told::own_some, crate::proofs::Told::own_none))]
fn own_text(alloc: Global, grammar: &Grammar, judge: &Judge) -> Result<String, AllocError>
    ensures { IfOk result (λ text. string_bytes text ≡ start_text grammar.now (all_starts judge.now).own) }
{
    match judge.operator() {
        Some(listed) => printed_start(alloc, grammar, listed),
        None => String::from_str(alloc, "end"),
    }
}

impl Texts {
    /// The name of a rule; empty if there is no such rule (ours).
    pub fn name(&self, rule: usize) -> &str
        ensures { result.now ≡ name_at self.now rule }
    {
        match self.names.get(rule) {
            Some(name) => name.as_str(),
            None => "",
        }
    }

    /// The text of the start with this number: one of the sets', or the operator start (ours).
    pub fn start(&self, number: usize) -> &str
        ensures { result.now ≡ start_text_at self.now number }
    {
        match self.listed.get(number) {
            Some(text) => text.as_str(),
            None => self.own.as_str(),
        }
    }

    /// The words of a violation (ours).
    pub fn words(&self, kind: &ViolationKind<usize>) -> [Piece<'_>; 8]
        ensures { pieces_bytes result ≡ words_text (start_text_at self.now) kind.now }
    {
        match kind {
            ViolationKind::LeftRecursion => alone("left recursion"),
            ViolationKind::EmptyRound => alone("repeated part can be empty"),
            ViolationKind::EmptyAlternative(k) => {
                numbered("alternative ", *k, " can be empty and is not last")
            }
            ViolationKind::AlternativesMeet(j, k, one, other) => {
                self.alternatives_meet(*j, *k, *one, *other)
            }
            ViolationKind::AlternativeMeetsFollow(k, one, other) => {
                self.alternative_meets_follow(*k, *one, *other)
            }
            ViolationKind::RoundMeetsFollow(one, other) => self.round_meets_follow(*one, *other),
            ViolationKind::EmptyOperand => alone("operand can be empty"),
            ViolationKind::OperandMeetsOperators(start) => {
                ended("operand meets operators at ", self.start(*start))
            }
            ViolationKind::FollowMeetsOperators(start) => {
                ended("follow set meets operators at ", self.start(*start))
            }
            ViolationKind::GapMeets(start) => ended("gap meets ", self.start(*start)),
            ViolationKind::StepCostOver => alone("step cost over 4294967296"),
        }
    }

    /// The words for two alternatives of a choice that meet.
    fn alternatives_meet(&self, j: usize, k: usize, one: usize, other: usize) -> [Piece<'_>; 8]
        ensures { pieces_bytes result ≡ words_text (start_text_at self.now) (AlternativesMeet j k one other) }
    {
        [
            Piece::Text("alternatives "),
            Piece::Number(j),
            Piece::Text(" and "),
            Piece::Number(k),
            Piece::Text(" meet at "),
            Piece::Text(self.start(one)),
            Piece::Text(" and "),
            Piece::Text(self.start(other)),
        ]
    }

    /// The words for an alternative that meets what follows its choice.
    fn alternative_meets_follow(&self, k: usize, one: usize, other: usize) -> [Piece<'_>; 8]
        ensures { pieces_bytes result ≡ words_text (start_text_at self.now) (AlternativeMeetsFollow k one other) }
    {
        [
            Piece::Text("alternative "),
            Piece::Number(k),
            Piece::Text(" meets the follow set at "),
            Piece::Text(self.start(one)),
            Piece::Text(" and "),
            Piece::Text(self.start(other)),
            Piece::Text(""),
            Piece::Text(""),
        ]
    }

    /// The words for a round of a repetition that meets what follows it.
    fn round_meets_follow(&self, one: usize, other: usize) -> [Piece<'_>; 8]
        ensures { pieces_bytes result ≡ words_text (start_text_at self.now) (RoundMeetsFollow one other) }
    {
        [
            Piece::Text("repetition meets its follow set at "),
            Piece::Text(self.start(one)),
            Piece::Text(" and "),
            Piece::Text(self.start(other)),
            Piece::Text(""),
            Piece::Text(""),
            Piece::Text(""),
            Piece::Text(""),
        ]
    }
}

/// One text.
fn alone(text: &str) -> [Piece<'_>; 8]
    ensures { pieces_bytes result ≡ text.now }
{
    [
        Piece::Text(text),
        Piece::Text(""),
        Piece::Text(""),
        Piece::Text(""),
        Piece::Text(""),
        Piece::Text(""),
        Piece::Text(""),
        Piece::Text(""),
    ]
}

/// A text, and its end.
fn ended<'t>(text: &'t str, end: &'t str) -> [Piece<'t>; 8]
    ensures { pieces_bytes result ≡ text.now ++ end.now }
{
    [
        Piece::Text(text),
        Piece::Text(end),
        Piece::Text(""),
        Piece::Text(""),
        Piece::Text(""),
        Piece::Text(""),
        Piece::Text(""),
        Piece::Text(""),
    ]
}

/// A number between two texts.
fn numbered<'t>(text: &'t str, number: usize, end: &'t str) -> [Piece<'t>; 8]
    ensures { pieces_bytes result ≡ text.now ++ (decimal number ++ end.now) }
{
    [
        Piece::Text(text),
        Piece::Number(number),
        Piece::Text(end),
        Piece::Text(""),
        Piece::Text(""),
        Piece::Text(""),
        Piece::Text(""),
        Piece::Text(""),
    ]
}
