//! The grammar that a file spells, or why it spells none.

ghost use Rattle.std.specs.Prelude.{◌≡◌, length, IfOk, IfErr};
ghost use Rattle.std.specs.Str.{chars};
ghost use Rattle.pg_pred.specs.Offer.{offer_of};
ghost use Rattle.pg_grammar_value.specs.Fits.{Fits};
ghost use Rattle.pg_table.specs.Tables.{initial, whole};
ghost use Rattle.pg_file.specs.Syntax.{IsSyntaxOf};
ghost use Rattle.pg_file_making.specs.Spells.{SpellsWithinLimits};
ghost use Rattle.pg_predict.specs.Checked.{IsChecked};
ghost use Rattle.pg_bench_grammar.specs.Files.{IsFaultOfFile, AreFindingsOf};
ghost use Rattle.pg_bench_grammar.specs.Faults.{IfFile, IsFileRefusal, IsFindingRefusal, IsGrammarRefusal, IfRefused};

use crate::bench_fault::BenchFault;
use crate::planned::PlannedGrammar;
use pg_file::{FileError, ReadFile, read_file};
use pg_file_making::PlacedGrammar;
use pg_grammar_value::Grammar;
use pg_pred::Registry;
use pg_predict::{CheckFault, Checked, check};
use pg_table::Table;
use std::alloc::{AllocError, Global};

/// The grammar that the bytes of a file spell.
pub fn grammar_of(alloc: Global, bytes: &[u8], registry: &Registry) -> Result<Grammar, BenchFault>
    ensures ok { IfOk result (SpellsWithinLimits (offer_of registry.now) bytes.now) }
    ensures fits { IfOk result (Fits (offer_of registry.now)) }
    ensures err { IfErr result IsFileRefusal }
    ensures file { IfErr result (IfFile (IsFaultOfFile (offer_of registry.now) bytes.now)) }
{
    let PlacedGrammar { grammar, .. } = placed_of(alloc, bytes, registry)?;
    Ok(grammar)
}

/// As `grammar_of`, with the characters that were written for each node, and the initial operator table.
pub fn placed_of(
    alloc: Global,
    bytes: &[u8],
    registry: &Registry,
) -> Result<PlacedGrammar, BenchFault>
    ensures ok { IfOk result (λ placed. SpellsWithinLimits (offer_of registry.now) bytes.now placed.grammar) }
    ensures fits { IfOk result (λ placed. Fits (offer_of registry.now) placed.grammar) }
    ensures spans { IfOk result (λ placed. length placed.spans.items ≡ length placed.grammar.nodes) }
    ensures initial { IfOk result (λ placed. initial placed.grammar ≡ whole placed.table) }
    ensures err { IfErr result IsFileRefusal }
    ensures file { IfErr result (IfFile (IsFaultOfFile (offer_of registry.now) bytes.now)) }
{
    match file_of(alloc, bytes, registry) {
        Ok(read) => {
            let ReadFile { placed, .. } = read;
            Ok(placed)
        }
        Err(fault) => Err(fault),
    }
}

/// As `placed_of`, with everything that is made on the way.
pub(crate) fn file_of(
    alloc: Global,
    bytes: &[u8],
    registry: &Registry,
) -> Result<ReadFile, BenchFault>
    ensures ok { IfOk result (λ read. SpellsWithinLimits (offer_of registry.now) bytes.now read.placed.grammar) }
    ensures fits { IfOk result (λ read. Fits (offer_of registry.now) read.placed.grammar) }
    ensures characters { IfOk result (λ read. read.characters.items ≡ chars bytes.now) }
    ensures syntax { IfOk result (λ read. IsSyntaxOf (chars bytes.now) read.syntax.lexemes.items read.syntax.items.items) }
    ensures spans { IfOk result (λ read. length read.placed.spans.items ≡ length read.placed.grammar.nodes) }
    ensures initial { IfOk result (λ read. initial read.placed.grammar ≡ whole read.placed.table) }
    ensures err { IfErr result IsFileRefusal }
    ensures file { IfErr result (IfFile (IsFaultOfFile (offer_of registry.now) bytes.now)) }
{
    match read_file(alloc, bytes, registry) {
        Ok(read) => Ok(read),
        Err(FileError::Fault(fault)) => Err(BenchFault::File(fault)),
        Err(FileError::Memory) => Err(BenchFault::Memory),
    }
}

/// An accepted grammar with the plan by which its texts are parsed first, and its initial operator table.
pub struct AcceptedGrammar {
    pub checked: PlannedGrammar,
    pub table: Table,
}

// Written out, so that the crates above needn't prove again how each part is dropped.
impl Drop for AcceptedGrammar {
    fn drop(self) {
        let AcceptedGrammar { checked, table } = self;
        drop(checked);
        drop(table);
    }
}

/// The accepted grammar that the bytes of a file spell, with its initial operator table. Fails with `Refused` and the findings if it isn't accepted.
#[tactic(auto, using(crate::proofs::Findings::refused_file, crate::proofs::Findings::refused_later))]
pub fn accepted_of(
    alloc: Global,
    bytes: &[u8],
    registry: &Registry,
) -> Result<AcceptedGrammar, BenchFault>
    ensures ok { IfOk result (λ accepted. SpellsWithinLimits (offer_of registry.now) bytes.now accepted.checked.grammar) }
    ensures fits { IfOk result (λ accepted. Fits (offer_of registry.now) accepted.checked.grammar) }
    ensures accepted { IfOk result (λ accepted. IsChecked accepted.checked) }
    ensures table { IfOk result (λ accepted. initial accepted.checked.grammar ≡ whole accepted.table) }
    ensures err { IfErr result IsGrammarRefusal }
    ensures file { IfErr result (IfFile (IsFaultOfFile (offer_of registry.now) bytes.now)) }
    ensures refused { IfErr result (IfRefused (AreFindingsOf (offer_of registry.now) bytes.now)) }
{
    let PlacedGrammar { grammar, table, .. } = placed_of(alloc, bytes, registry)?;
    match accepted(alloc, grammar) {
        Ok(checked) => Ok(AcceptedGrammar { checked, table }),
        Err(fault) => Err(fault),
    }
}

/// The grammar with a plan if it is accepted, else its findings.
fn accepted(alloc: Global, grammar: Grammar) -> Result<PlannedGrammar, BenchFault>
    ensures same { IfOk result (λ checked. checked.grammar ≡ grammar) }
    ensures accepted { IfOk result (λ checked. IsChecked checked) }
    ensures err { IfErr result (IsFindingRefusal grammar) }
{
    match check(alloc, grammar) {
        Ok(checked) => planned(alloc, checked),
        Err(CheckFault::Refused(refused)) => Err(BenchFault::Refused(refused)),
        Err(CheckFault::Memory(_)) => Err(BenchFault::Memory),
    }
}

/// The grammar with a plan. It fails only where memory runs out.
fn planned(alloc: Global, checked: Checked) -> Result<PlannedGrammar, BenchFault>
    ensures ok { IfOk result (λ planned. planned ≡ checked) }
    ensures err { IfErr result (λ fault. fault ≡ BenchFault.Memory) }
{
    match PlannedGrammar::of(alloc, checked) {
        Ok(planned) => Ok(planned),
        Err(AllocError) => Err(BenchFault::Memory),
    }
}
