//! From the bytes of a grammar file to its grammar's findings, as lines of JSON.

ghost use Rattle.std.specs.Prelude.{◌≡◌, false, true, IfOk, IfErr, OnOk, IsErrOf};
ghost use Rattle.pg_pred.specs.Offer.{offer_of};
ghost use Rattle.pg_bench_json.specs.Listing.{IsListed, IsPartlyListed, IsListedFile, IsPartlyListedFile};
ghost use Rattle.pg_bench_grammar.specs.Loading.{judged_grammar};
ghost use Rattle.pg_bench_grammar.specs.Files.{IsFaultOfFile};
ghost use Rattle.pg_bench_grammar.specs.Faults.{IfFile, IsBeforeWriting, IsPageRefusal, IsWriteRefusal};

use pg_bench_grammar::{BenchFault, Judgement, LoadedFile, load};
use pg_explain_json::{ListedFile, ToldFinding, write_listing};
use pg_pred::Registry;
use pg_predict::{Checked, Refused};
use pg_tree::{Meter, WriteFault};
use std::alloc::Global;
use std::io::Write;

/// Writes the findings of the grammar that a file with this name spells, for editors and scripts: a line of JSON for each finding, in the order of
/// `check_bytes` (ours). Nothing is written for an accepted grammar. Answers whether the grammar is accepted. The registry has the predicates and builders
/// that the file may name.
///
/// The meter must not have failed yet. A fault of the file comes before anything is written, and so does running out of memory; then only the writer can
/// fail.
#[tactic(auto, using(crate::proofs::Listed::listed_file, crate::proofs::Listed::partly_listed_file, pg_bench_grammar::proofs::Judged::no_fault_of_file))]
pub fn json_bytes<W: Write>(
    alloc: Global,
    name: &str,
    grammar: &[u8],
    registry: &Registry,
    writer: &mut Meter<W>,
) -> Result<bool, BenchFault>
    requires { writer.old.failed ≡ false }

    // What is wrong with the grammar was written.
    ensures ok { IfOk result (IsListedFile (offer_of registry.now) grammar.now (W.contents writer.old.inner) (W.contents writer.new.inner)) }
    ensures stays { OnOk result (writer.new.failed ≡ false) }

    // The file spells no grammar; or the writer failed after a prefix of what it was to be given; or memory ran out.
    ensures err { IfErr result IsPageRefusal }
    ensures file { IfErr result (IfFile (IsFaultOfFile (offer_of registry.now) grammar.now)) }
    ensures unwritten { IfErr result (λ fault. IsBeforeWriting fault → writer.new ≡ writer.old) }
    ensures writer { IsErrOf result BenchFault.Writer → writer.new.failed ≡ true }
    ensures prefix { IsErrOf result BenchFault.Writer →
        IsPartlyListedFile (offer_of registry.now) grammar.now (W.contents writer.old.inner) (W.contents writer.new.inner) }
{
    let loaded = load(alloc, name, grammar, registry)?;
    let listed = json_loaded(alloc, &loaded, &[], writer);
    drop(loaded);
    match listed {
        Ok(accepted) => Ok(accepted),
        Err(fault) => Err(fault),
    }
}

/// As [`json_bytes`], for a file that is loaded already. The only faults are the writer's, and running out of memory, which comes before anything is written.
/// The explanations, in the order of findings, come at the end of the lines of their findings.
pub fn json_loaded<W: Write>(
    alloc: Global,
    loaded: &LoadedFile,
    told: &[ToldFinding],
    writer: &mut Meter<W>,
) -> Result<bool, BenchFault>
    requires { writer.old.failed ≡ false }
    ensures ok { IfOk result (IsListed (judged_grammar loaded.now.judgement) (W.contents writer.old.inner) (W.contents writer.new.inner)) }
    ensures stays { OnOk result (writer.new.failed ≡ false) }
    ensures err { IfErr result IsWriteRefusal }
    ensures unwritten { IsErrOf result BenchFault.Memory → writer.new ≡ writer.old }
    ensures writer { IsErrOf result BenchFault.Writer → writer.new.failed ≡ true }
    ensures prefix { IsErrOf result BenchFault.Writer →
        IsPartlyListed (judged_grammar loaded.now.judgement) (W.contents writer.old.inner) (W.contents writer.new.inner) }
{
    match &loaded.judgement {
        Judgement::Accepted(checked) => Ok(list_nothing(checked, writer)),
        Judgement::Refused(refused) => list_refused(alloc, refused, loaded, told, writer),
    }
}

/// Writes nothing, since the grammar is accepted.
fn list_nothing<W: Write>(checked: &Checked, _writer: &Meter<W>) -> bool
    ensures { IsListed checked.now.grammar (W.contents _writer.now.inner) (W.contents _writer.now.inner) result }
{
    // The call makes the contract of the check known.
    let _grammar = checked.grammar();
    true
}

/// Writes all findings of a grammar.
fn list_refused<W: Write>(
    alloc: Global,
    refused: &Refused,
    file: &LoadedFile,
    told: &[ToldFinding],
    writer: &mut Meter<W>,
) -> Result<bool, BenchFault>
    requires { writer.old.failed ≡ false }
    ensures ok { IfOk result (IsListed refused.now.grammar (W.contents writer.old.inner) (W.contents writer.new.inner)) }
    ensures stays { OnOk result (writer.new.failed ≡ false) }
    ensures err { IfErr result IsWriteRefusal }
    ensures unwritten { IsErrOf result BenchFault.Memory → writer.new ≡ writer.old }
    ensures failed { IsErrOf result BenchFault.Writer → writer.new.failed ≡ true }
    ensures prefix { IsErrOf result BenchFault.Writer → IsPartlyListed refused.now.grammar (W.contents writer.old.inner) (W.contents writer.new.inner) }
{
    // The call makes the contract of the check known.
    let _grammar = refused.grammar();
    let listed = ListedFile {
        name: file.name,
        text: file.characters.as_slice(),
        spans: file.spans.as_slice(),
    };
    match write_listing(alloc, refused, listed, told, writer) {
        Ok(()) => Ok(false),
        Err(WriteFault::Writer) => Err(BenchFault::Writer),
        Err(WriteFault::Memory) => Err(BenchFault::Memory),
    }
}
