//! Loaded grammar files: each is read and judged once, whatever is then done with it.

ghost use Rattle.std.specs.Prelude.{◌≡◌, IfOk, IfErr};
ghost use Rattle.pg_pred.specs.Offer.{offer_of};
ghost use Rattle.pg_bench_grammar.specs.Files.{IsFaultOfFile};
ghost use Rattle.pg_bench_grammar.specs.Faults.{IfFile, IsFileRefusal, IsMemory};
ghost use Rattle.pg_bench_grammar.specs.Loading.{judged_grammar, IsJudgement, IsLoadedFrom};

use crate::bench_fault::BenchFault;
use crate::grammar_file::file_of;
use pg_file::{ReadFile, Syntax};
use pg_file_items::Span;
use pg_file_making::PlacedGrammar;
use pg_grammar_value::Grammar;
use pg_pred::Registry;
use pg_predict::{CheckFault, Checked, Refused, check};
use pg_table::Table;
use std::alloc::Global;

/// The result of the check.
#[derive(Drop)]
pub enum Judgement {
    /// The grammar has no findings.
    Accepted(Checked),
    /// The grammar has findings, and these are all of them.
    Refused(Refused),
}

impl Judgement {
    ghost use Rattle.pg_bench_grammar.specs.Loading.{judged_grammar, IsJudgement};

    /// The grammar that was judged.
    pub fn grammar(&self) -> &Grammar
        ensures grammar { result.now ≡ judged_grammar self.now }
        ensures judged { IsJudgement self.now }
    {
        match self {
            Judgement::Accepted(checked) => checked.grammar(),
            Judgement::Refused(refused) => refused.grammar(),
        }
    }
}

/// A grammar file that is loaded.
pub struct LoadedFile<'n> {
    /// Its name, as the caller gave it.
    pub name: &'n str,
    /// Its characters.
    pub characters: Vec<char>,
    /// Its tokens and items.
    pub syntax: Syntax,
    /// For each node of its grammar, the characters of the form that was written for it.
    pub spans: Vec<Span>,
    /// The initial operator table of its grammar.
    pub table: Table,
    /// Its grammar, judged.
    pub judgement: Judgement,
}

// Written out, so that the crates above needn't prove again how each part is dropped.
impl Drop for LoadedFile<'_> {
    fn drop(self) {
        let LoadedFile {
            name: _,
            characters,
            syntax,
            spans,
            table,
            judgement,
        } = self;
        drop(characters);
        drop(syntax);
        drop(spans);
        drop(table);
        drop(judgement);
    }
}

/// Reads the file with this name and these bytes, and judges the grammar that it spells (ours). The registry has the predicates and builders that the file
/// may name. Fails with a fault of the file, or where memory runs out.
pub fn load<'n>(
    alloc: Global,
    name: &'n str,
    bytes: &[u8],
    registry: &Registry,
) -> Result<LoadedFile<'n>, BenchFault>
    ensures ok { IfOk result (IsLoadedFrom (offer_of registry.now) bytes.now) }
    ensures name { IfOk result (λ loaded. loaded.name.now ≡ name.now) }
    ensures err { IfErr result IsFileRefusal }
    ensures file { IfErr result (IfFile (IsFaultOfFile (offer_of registry.now) bytes.now)) }
{
    let read = file_of(alloc, bytes, registry)?;
    let ReadFile {
        characters,
        syntax,
        placed,
    } = read;
    let PlacedGrammar {
        grammar,
        spans,
        table,
    } = placed;
    match judged(alloc, grammar) {
        Ok(judgement) => Ok(LoadedFile {
            name,
            characters,
            syntax,
            spans,
            table,
            judgement,
        }),
        Err(fault) => Err(fault),
    }
}

/// The result of the check for a grammar.
fn judged(alloc: Global, grammar: Grammar) -> Result<Judgement, BenchFault>
    ensures same { IfOk result (λ judgement. judged_grammar judgement ≡ grammar) }
    ensures judged { IfOk result IsJudgement }
    ensures err { IfErr result IsMemory }
{
    match check(alloc, grammar) {
        Ok(checked) => Ok(Judgement::Accepted(checked)),
        Err(CheckFault::Refused(refused)) => Ok(Judgement::Refused(refused)),
        Err(CheckFault::Memory(grammar)) => {
            drop(grammar);
            Err(BenchFault::Memory)
        }
    }
}
