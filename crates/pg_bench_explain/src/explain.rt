//! The explanation of a grammar file for people: from the bytes of the file to what is wrong with its grammar.

ghost use Rattle.std.specs.String.{string_bytes};
ghost use Rattle.std.specs.Prelude.{◌≡◌, false, true, IfOk, IfErr, OnErr, OnOk, IsErrOf};
ghost use Rattle.pg_pred.specs.Offer.{offer_of};
ghost use Rattle.pg_grammar_value.specs.Fits.{Fits};
ghost use Rattle.pg_table.specs.Tables.{initial, whole};
ghost use Rattle.pg_bench_explain.specs.Explaining.{IsAcceptedPage, IsExplained, IsPartlyExplained, IsExplainedFile, IsPartlyExplainedFile};
ghost use Rattle.pg_bench_grammar.specs.Loading.{judged_grammar};
ghost use Rattle.pg_bench_grammar.specs.Files.{IsFaultOfFile};
ghost use Rattle.pg_bench_grammar.specs.Faults.{IfFile, IsBeforeWriting, IsPageRefusal, IsWriteRefusal};

use crate::asked::{Nodes, nodes_asked};
use crate::explained_page::page_of;
use crate::notes::notes;
use pg_bench_grammar::{BenchFault, Judgement, LoadedFile, load, write_page};
use pg_explain::GrammarFile;
use pg_grammar_value::Grammar;
use pg_pred::Registry;
use pg_predict::{Checked, Refused};
use pg_tree::Meter;
use std::alloc::{AllocError, Global};
use std::io::Write;

/// What an explanation says.
#[derive(Clone, Copy)]
pub enum Explained {
    /// The grammar is accepted.
    Accepted,
    /// The grammar is refused, and its findings were written.
    Refused,
    /// Nothing, since there is no such rule or node.
    NotThere,
}

/// Writes for people what is wrong with the grammar that a file with this name spells (ours): the first 20 causes of findings, in the order of `check_bytes`,
/// at the nodes asked for. These are given as `RULE` or `RULE:NODE`; if `asked` is empty, all nodes are meant. Writes `accepted` and notes if the grammar has
/// no findings at all, and nothing if there is no such rule or node. The registry has the predicates and builders that the file may name.
///
/// The meter must not have failed yet. A fault of the file comes before anything is written, and so does running out of memory; then only the writer can
/// fail.
#[tactic(auto, using(crate::proofs::Told::explained_file, crate::proofs::Told::partly_explained_file, pg_bench_grammar::proofs::Judged::no_fault_of_file))]
pub fn explain_bytes<W: Write>(
    alloc: Global,
    name: &str,
    grammar: &[u8],
    registry: &Registry,
    writer: &mut Meter<W>,
    asked: &str,
) -> Result<Explained, BenchFault>
    requires { writer.old.failed ≡ false }

    // What is told of the grammar was written.
    ensures ok { IfOk result (IsExplainedFile (offer_of registry.now) grammar.now (W.contents writer.old.inner) (W.contents writer.new.inner)) }
    ensures stays { OnOk result (writer.new.failed ≡ false) }

    // The file spells no grammar; or the writer failed after a prefix of what it was to be given; or memory ran out.
    ensures err { IfErr result IsPageRefusal }
    ensures file { IfErr result (IfFile (IsFaultOfFile (offer_of registry.now) grammar.now)) }
    ensures unwritten { IfErr result (λ fault. IsBeforeWriting fault → writer.new ≡ writer.old) }
    ensures writer { IsErrOf result BenchFault.Writer → writer.new.failed ≡ true }
    ensures prefix { IsErrOf result BenchFault.Writer →
        IsPartlyExplainedFile (offer_of registry.now) grammar.now (W.contents writer.old.inner) (W.contents writer.new.inner) }
{
    let loaded = load(alloc, name, grammar, registry)?;
    let told = explain_loaded(alloc, &loaded, registry, writer, asked);
    drop(loaded);
    match told {
        Ok(told) => Ok(told),
        Err(fault) => Err(fault),
    }
}

/// As [`explain_bytes`], for a file that is loaded already. The caller ensures that the registry has what the grammar names in it, and that the table is the
/// grammar's. The only faults are the writer's, and running out of memory, which comes before anything is written.
pub fn explain_loaded<W: Write>(
    alloc: Global,
    loaded: &LoadedFile,
    registry: &Registry,
    writer: &mut Meter<W>,
    asked: &str,
) -> Result<Explained, BenchFault>
    requires fresh { writer.old.failed ≡ false }
    requires fits { Fits (offer_of registry.now) (judged_grammar loaded.now.judgement) }
    requires table { initial (judged_grammar loaded.now.judgement) ≡ whole loaded.now.table }
    ensures ok { IfOk result (IsExplained (judged_grammar loaded.now.judgement) (W.contents writer.old.inner) (W.contents writer.new.inner)) }
    ensures stays { OnOk result (writer.new.failed ≡ false) }
    ensures err { IfErr result IsWriteRefusal }
    ensures unwritten { IsErrOf result BenchFault.Memory → writer.new ≡ writer.old }
    ensures writer { IsErrOf result BenchFault.Writer → writer.new.failed ≡ true }
    ensures prefix { IsErrOf result BenchFault.Writer →
        IsPartlyExplained (judged_grammar loaded.now.judgement) (W.contents writer.old.inner) (W.contents writer.new.inner) }
{
    let Some(nodes) = nodes_asked(loaded.judgement.grammar(), asked) else {
        return Ok(Explained::NotThere);
    };
    match &loaded.judgement {
        Judgement::Accepted(checked) => tell_accepted(alloc, checked, loaded, writer),
        Judgement::Refused(refused) => tell_refused(
            alloc, refused, loaded, nodes, registry, writer,
        ),
    }
}

/// The name, the text and the spans of a loaded file.
pub(crate) fn lent<'l>(loaded: &'l LoadedFile) -> GrammarFile<'l> {
    GrammarFile {
        name: loaded.name,
        text: loaded.characters.as_slice(),
        spans: loaded.spans.as_slice(),
    }
}

/// Writes that a grammar is accepted, and the notes on it.
fn tell_accepted<W: Write>(
    alloc: Global,
    checked: &Checked,
    loaded: &LoadedFile,
    writer: &mut Meter<W>,
) -> Result<Explained, BenchFault>
    requires { writer.old.failed ≡ false }
    ensures ok { IfOk result (IsExplained checked.now.grammar (W.contents writer.old.inner) (W.contents writer.new.inner)) }
    ensures stays { OnOk result (writer.new.failed ≡ false) }
    ensures err { IfErr result IsWriteRefusal }
    ensures unwritten { IsErrOf result BenchFault.Memory → writer.new ≡ writer.old }
    ensures failed { IsErrOf result BenchFault.Writer → writer.new.failed ≡ true }
    ensures prefix { IsErrOf result BenchFault.Writer → IsPartlyExplained checked.now.grammar (W.contents writer.old.inner) (W.contents writer.new.inner) }
{
    let Ok(page) = accepted_page(alloc, checked.grammar(), &lent(loaded)) else {
        return Err(BenchFault::Memory);
    };
    write_page(page.as_bytes(), writer)?;
    Ok(Explained::Accepted)
}

/// The page of an accepted grammar, with the notes on it.
fn accepted_page(alloc: Global, grammar: &Grammar, file: &GrammarFile) -> Result<String, AllocError>
    ensures { IfOk result (λ page. IsAcceptedPage (string_bytes page)) }
{
    let mut page = String::from_str(alloc, "accepted\n")?;
    let notes = notes(alloc, grammar, file)?;
    page.push_str(notes.as_str())?;
    Ok(page)
}

/// Writes what is wrong with a grammar at some of its nodes.
#[tactic(auto, using(crate::proofs::Told::told_refused, crate::proofs::Told::partly_refused))]
fn tell_refused<W: Write>(
    alloc: Global,
    refused: &Refused,
    loaded: &LoadedFile,
    nodes: Nodes,
    registry: &Registry,
    writer: &mut Meter<W>,
) -> Result<Explained, BenchFault>
    requires fresh { writer.old.failed ≡ false }
    requires fits { Fits (offer_of registry.now) refused.now.grammar }
    requires table { initial refused.now.grammar ≡ whole loaded.now.table }
    ensures ok { IfOk result (IsExplained refused.now.grammar (W.contents writer.old.inner) (W.contents writer.new.inner)) }
    ensures stays { OnOk result (writer.new.failed ≡ false) }
    ensures err { IfErr result IsWriteRefusal }
    ensures unwritten { IsErrOf result BenchFault.Memory → writer.new ≡ writer.old }
    ensures failed { IsErrOf result BenchFault.Writer → writer.new.failed ≡ true }
    ensures prefix { IsErrOf result BenchFault.Writer → IsPartlyExplained refused.now.grammar (W.contents writer.old.inner) (W.contents writer.new.inner) }
{
    // The call makes the contract of the check known.
    let _grammar = refused.grammar();
    let Ok(page) = page_of(alloc, refused, loaded, nodes, registry) else {
        return Err(BenchFault::Memory);
    };
    write_page(page.as_bytes(), writer)?;
    Ok(Explained::Refused)
}
