//! From the bytes of a grammar file to whether its grammar is accepted, or all its findings, on lines with a prefix.

ghost use Rattle.std.specs.Prelude.{◌≡◌, ◌++◌, ℕ, List, false, true, IfOk, IfErr, OnOk, IsErrOf};
ghost use Rattle.pg_pred.specs.Offer.{offer_of};
ghost use Rattle.pg_bench_grammar.specs.Checking.{IsJudged};
ghost use Rattle.pg_bench_grammar.specs.Loading.{judged_grammar};
ghost use Rattle.pg_bench_grammar.specs.Files.{IsFaultOfFile};
ghost use Rattle.pg_bench_grammar.specs.Faults.{IfFile, IsBeforeWriting, IsPageRefusal, IsWriteRefusal};
ghost use Rattle.pg_bench_places.specs.Placing.{IsPlaced, IsPartlyPlaced, IsPlacedFile, IsPartlyPlacedFile};

use pg_bench_grammar::{BenchFault, Judgement, LoadedFile, certificate_line, load, write_page};
use pg_file_items::Span;
use pg_pred::Registry;
use pg_predict::{Checked, Refused};
use pg_predict_lines::{Fronts, write_fronted};
use pg_tree::{Meter, WriteFault};
use std::alloc::{AllocError, Global};
use std::io::Write;

/// The prefix of each line.
#[derive(Clone, Copy)]
pub enum InFront {
    /// The file's name, as `FILE: `.
    Name,
    /// The place of the finding's node, as `FILE:LINE:COLUMN: `. Other lines have no prefix.
    Place,
    /// The place of the finding's node. Other lines have the file's name.
    PlaceOrName,
}

/// Writes what `check_bytes` writes for the grammar that a file with this name spells, with a prefix on each line (ours). Answers whether the grammar is
/// accepted. The registry has the predicates and builders that the file may name.
///
/// The meter must not have failed yet. A fault of the file comes before anything is written, and so does running out of memory; then only the writer can
/// fail.
#[tactic(auto, using(crate::proofs::Told::placed_file, crate::proofs::Told::partly_placed_file, pg_bench_grammar::proofs::Judged::no_fault_of_file))]
pub fn placed_bytes<W: Write>(
    alloc: Global,
    name: &str,
    grammar: &[u8],
    registry: &Registry,
    writer: &mut Meter<W>,
    in_front: InFront,
    certificate: bool,
) -> Result<bool, BenchFault>
    requires { writer.old.failed ≡ false }

    // What the check says of the grammar was written.
    ensures ok { IfOk result (IsPlacedFile (offer_of registry.now) grammar.now certificate (W.contents writer.old.inner) (W.contents writer.new.inner)) }
    ensures stays { OnOk result (writer.new.failed ≡ false) }

    // The file spells no grammar; or the writer failed after a prefix of what it was to be given; or memory ran out.
    ensures err { IfErr result IsPageRefusal }
    ensures file { IfErr result (IfFile (IsFaultOfFile (offer_of registry.now) grammar.now)) }
    ensures unwritten { IfErr result (λ fault. IsBeforeWriting fault → writer.new ≡ writer.old) }
    ensures writer { IsErrOf result BenchFault.Writer → writer.new.failed ≡ true }
    ensures prefix { IsErrOf result BenchFault.Writer →
        IsPartlyPlacedFile (offer_of registry.now) grammar.now certificate (W.contents writer.old.inner) (W.contents writer.new.inner) }
{
    let loaded = load(alloc, name, grammar, registry)?;
    let placed = placed_loaded(alloc, &loaded, writer, in_front, certificate);
    drop(loaded);
    match placed {
        Ok(accepted) => Ok(accepted),
        Err(fault) => Err(fault),
    }
}

/// As [`placed_bytes`], for a file that is loaded already. The only faults are the writer's, and running out of memory, which comes before anything is
/// written.
pub fn placed_loaded<W: Write>(
    alloc: Global,
    loaded: &LoadedFile,
    writer: &mut Meter<W>,
    in_front: InFront,
    certificate: bool,
) -> Result<bool, BenchFault>
    requires { writer.old.failed ≡ false }
    ensures ok { IfOk result (IsPlaced (judged_grammar loaded.now.judgement) certificate (W.contents writer.old.inner) (W.contents writer.new.inner)) }
    ensures stays { OnOk result (writer.new.failed ≡ false) }
    ensures err { IfErr result IsWriteRefusal }
    ensures unwritten { IsErrOf result BenchFault.Memory → writer.new ≡ writer.old }
    ensures writer { IsErrOf result BenchFault.Writer → writer.new.failed ≡ true }
    ensures prefix { IsErrOf result BenchFault.Writer →
        IsPartlyPlaced (judged_grammar loaded.now.judgement) certificate (W.contents writer.old.inner) (W.contents writer.new.inner) }
{
    let file = GrammarFile {
        name: loaded.name,
        text: loaded.characters.as_slice(),
        spans: loaded.spans.as_slice(),
        in_front,
    };
    match &loaded.judgement {
        Judgement::Accepted(checked) => tell_accepted(alloc, checked, &file, writer, certificate),
        Judgement::Refused(refused) => tell_refused(alloc, refused, &file, writer, certificate),
    }
}

/// A grammar's file, and the prefix of its lines.
#[derive(Clone, Copy)]
struct GrammarFile<'f> {
    name: &'f str,
    text: &'f [char],
    spans: &'f [Span],
    in_front: InFront,
}

/// Writes the result for an accepted grammar.
fn tell_accepted<W: Write>(
    alloc: Global,
    checked: &Checked,
    file: &GrammarFile,
    writer: &mut Meter<W>,
    certificate: bool,
) -> Result<bool, BenchFault>
    requires { writer.old.failed ≡ false }
    ensures ok { IfOk result (IsPlaced checked.now.grammar certificate (W.contents writer.old.inner) (W.contents writer.new.inner)) }
    ensures stays { OnOk result (writer.new.failed ≡ false) }
    ensures err { IfErr result IsWriteRefusal }
    ensures unwritten { IsErrOf result BenchFault.Memory → writer.new ≡ writer.old }
    ensures writer { IsErrOf result BenchFault.Writer → writer.new.failed ≡ true }
    ensures prefix { IsErrOf result BenchFault.Writer → IsPartlyPlaced checked.now.grammar certificate (W.contents writer.old.inner) (W.contents writer.new.inner) }
{
    let Ok(line) = accepted_line(alloc, checked, file, certificate) else {
        return Err(BenchFault::Memory);
    };
    write_page(line.as_slice(), writer)?;
    Ok(true)
}

/// The line for an accepted grammar, with its prefix.
fn accepted_line(
    alloc: Global,
    checked: &Checked,
    file: &GrammarFile,
    certificate: bool,
) -> Result<Vec<u8>, AllocError>
    ensures { IfOk result (λ line. (front : List ℕ) × (said : List ℕ) × IsJudged checked.now.grammar certificate true said × (line.items ≡ front ++ said)) }
{
    let mut line = front_of_accepted(alloc, file)?;
    let said = said_of_accepted(alloc, checked, certificate)?;
    line.extend_from_slice(said.as_slice())?;
    Ok(line)
}

/// The prefix of the line for an accepted grammar.
fn front_of_accepted(alloc: Global, file: &GrammarFile) -> Result<Vec<u8>, AllocError> {
    let mut front = Vec::new(alloc);
    match file.in_front {
        InFront::Place => {}
        InFront::Name | InFront::PlaceOrName => {
            front.extend_from_slice(file.name.as_bytes())?;
            front.extend_from_slice(b": ")?;
        }
    }
    Ok(front)
}

/// The line for an accepted grammar, without its prefix.
fn said_of_accepted(
    alloc: Global,
    checked: &Checked,
    certificate: bool,
) -> Result<Vec<u8>, AllocError>
    ensures { IfOk result (λ said. IsJudged checked.now.grammar certificate true said.items) }
{
    // The call makes the contract of the check known.
    let _grammar = checked.grammar();
    if certificate {
        certificate_line(alloc, checked)
    } else {
        Vec::from_slice(alloc, b"accepted\n")
    }
}

/// Writes all findings of a grammar.
fn tell_refused<W: Write>(
    alloc: Global,
    refused: &Refused,
    file: &GrammarFile,
    writer: &mut Meter<W>,
    certificate: bool,
) -> Result<bool, BenchFault>
    requires { writer.old.failed ≡ false }
    ensures ok { IfOk result (IsPlaced refused.now.grammar certificate (W.contents writer.old.inner) (W.contents writer.new.inner)) }
    ensures stays { OnOk result (writer.new.failed ≡ false) }
    ensures err { IfErr result IsWriteRefusal }
    ensures unwritten { IsErrOf result BenchFault.Memory → writer.new ≡ writer.old }
    ensures failed { IsErrOf result BenchFault.Writer → writer.new.failed ≡ true }
    ensures prefix { IsErrOf result BenchFault.Writer → IsPartlyPlaced refused.now.grammar certificate (W.contents writer.old.inner) (W.contents writer.new.inner) }
{
    // The call makes the contract of the check known.
    let _grammar = refused.grammar();
    let Ok(fronts) = fronts_of(alloc, file) else {
        return Err(BenchFault::Memory);
    };
    match write_fronted(alloc, refused, &fronts, writer) {
        Ok(()) => Ok(false),
        Err(WriteFault::Writer) => Err(BenchFault::Writer),
        Err(WriteFault::Memory) => Err(BenchFault::Memory),
    }
}

/// The prefixes of findings.
fn fronts_of<'f>(alloc: Global, file: &GrammarFile<'f>) -> Result<Fronts<'f>, AllocError> {
    match file.in_front {
        InFront::Name => Ok(Fronts::of_names(alloc, file.name)),
        InFront::Place | InFront::PlaceOrName => {
            Fronts::of_places(alloc, file.name, file.text, file.spans)
        }
    }
}
