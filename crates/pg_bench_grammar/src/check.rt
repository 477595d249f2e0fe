//! The check of a grammar file: from its bytes to whether its grammar is accepted, or to all its findings.

ghost use Rattle.std.specs.Prelude.{◌≡◌, ◌++◌, ℕ, List, Bool, false, true, codes, IfOk, IfErr, OnErr, OnOk, IsErrOf};
ghost use Rattle.std.specs.Io.KnownBytes.{Appends};
ghost use Rattle.pg_tree.specs.Bytes.{AppendsPrefix};
ghost use Rattle.pg_pred.specs.Offer.{offer_of};
ghost use Rattle.pg_certificate_own.specs.Own.{IsOwnCertificate};
ghost use Rattle.pg_bench_grammar.specs.Checking.{IsChecked, IsPartlyChecked, IsTold, IsPartlyTold, WritesCertificate, WritesPartly};
ghost use Rattle.pg_bench_grammar.specs.Loading.{judged_grammar};
ghost use Rattle.pg_bench_grammar.specs.Files.{IsFaultOfFile, SpellsAny};
ghost use Rattle.pg_bench_grammar.specs.Faults.{IsPageRefusal, IsWriteRefusal, IfFile, IsAfterFile, IsBeforeWriting};

use crate::bench_fault::BenchFault;
use crate::loaded::{Judgement, LoadedFile, load};
use crate::output::write_page;
use pg_certificate_own::own_certificate;
use pg_pred::Registry;
use pg_predict::{Checked, Refused};
use pg_tree::{Meter, WriteFault};
use std::alloc::{AllocError, Global};
use std::io::Write;

/// Checks the grammar that a file spells, and writes the result. For an accepted grammar, that is the line `accepted`, or its certificate as a line of JSON
/// if `certificate` is set. For another, it is a line for each finding, in the order of rules, nodes, numbers and alternatives. Answers whether the grammar
/// is accepted. The registry has the predicates and builders that the file may name.
///
/// The meter must not have failed yet. A fault of the file comes before anything is written, and so does running out of memory; then only the writer can
/// fail.
#[tactic(auto, using(crate::proofs::Judged::told_file, crate::proofs::Judged::partly_told_file, crate::proofs::Judged::spelled_file, crate::proofs::Judged::no_fault_of_file))]
pub fn check_bytes<W: Write>(
    alloc: Global,
    grammar: &[u8],
    registry: &Registry,
    writer: &mut Meter<W>,
    certificate: bool,
) -> Result<bool, BenchFault>
    requires { writer.old.failed ≡ false }

    // What the check says of the grammar was written.
    ensures ok { IfOk result (IsChecked (offer_of registry.now) grammar.now certificate (W.contents writer.old.inner) (W.contents writer.new.inner)) }
    ensures stays { OnOk result (writer.new.failed ≡ false) }

    // The file spells no grammar; or the writer failed after a prefix of what it was to be given; or memory ran out.
    ensures err { IfErr result IsPageRefusal }
    ensures file { IfErr result (IfFile (IsFaultOfFile (offer_of registry.now) grammar.now)) }
    ensures spelled { IfErr result (λ fault. IsAfterFile fault → SpellsAny (offer_of registry.now) grammar.now) }
    ensures unwritten { IfErr result (λ fault. IsBeforeWriting fault → writer.new ≡ writer.old) }
    ensures writer { IsErrOf result BenchFault.Writer → writer.new.failed ≡ true }
    ensures prefix { IsErrOf result BenchFault.Writer →
        IsPartlyChecked (offer_of registry.now) grammar.now certificate (W.contents writer.old.inner) (W.contents writer.new.inner) }
{
    let loaded = load(alloc, "", grammar, registry)?;
    let told = check_loaded(alloc, &loaded, writer, certificate);
    drop(loaded);
    match told {
        Ok(accepted) => Ok(accepted),
        Err(fault) => Err(fault),
    }
}

/// As [`check_bytes`], for a file that is loaded already. The only faults are the writer's, and running out of memory, which comes before anything is
/// written.
pub fn check_loaded<W: Write>(
    alloc: Global,
    loaded: &LoadedFile,
    writer: &mut Meter<W>,
    certificate: bool,
) -> Result<bool, BenchFault>
    requires { writer.old.failed ≡ false }
    ensures ok { IfOk result (IsTold (judged_grammar loaded.now.judgement) certificate (W.contents writer.old.inner) (W.contents writer.new.inner)) }
    ensures stays { OnOk result (writer.new.failed ≡ false) }
    ensures err { IfErr result IsWriteRefusal }
    ensures unwritten { IsErrOf result BenchFault.Memory → writer.new ≡ writer.old }
    ensures writer { IsErrOf result BenchFault.Writer → writer.new.failed ≡ true }
    ensures prefix { IsErrOf result BenchFault.Writer →
        IsPartlyTold (judged_grammar loaded.now.judgement) certificate (W.contents writer.old.inner) (W.contents writer.new.inner) }
{
    match &loaded.judgement {
        Judgement::Accepted(checked) => tell_checked(alloc, checked, writer, certificate),
        Judgement::Refused(refused) => tell_findings(alloc, refused, writer),
    }
}

/// Writes the result for an accepted grammar.
fn tell_checked<W: Write>(
    alloc: Global,
    checked: &Checked,
    writer: &mut Meter<W>,
    certificate: bool,
) -> Result<bool, BenchFault>
    requires { writer.old.failed ≡ false }
    ensures ok { IfOk result (IsTold checked.now.grammar certificate (W.contents writer.old.inner) (W.contents writer.new.inner)) }
    ensures stays { OnOk result (writer.new.failed ≡ false) }
    ensures err { IfErr result IsWriteRefusal }
    ensures unwritten { IsErrOf result BenchFault.Memory → writer.new ≡ writer.old }
    ensures writer { IsErrOf result BenchFault.Writer → writer.new.failed ≡ true }
    ensures prefix { IsErrOf result BenchFault.Writer → IsPartlyTold checked.now.grammar certificate (W.contents writer.old.inner) (W.contents writer.new.inner) }
{
    // The call makes the contract of the check known.
    let _grammar = checked.grammar();
    if certificate {
        tell_certificate(alloc, checked, writer)
    } else {
        tell_accepted(writer)
    }
}

/// Writes that a grammar is accepted.
fn tell_accepted<W: Write>(writer: &mut Meter<W>) -> Result<bool, BenchFault>
    requires { writer.old.failed ≡ false }
    ensures yes { IfOk result (λ accepted. accepted ≡ true) }
    ensures ok { OnOk result (Appends (W.contents writer.old.inner) (W.contents writer.new.inner) (codes "accepted\n")) }
    ensures stays { OnOk result (writer.new.failed ≡ false) }
    ensures only { OnErr result (IsErrOf result BenchFault.Writer) }
    ensures failed { OnErr result (writer.new.failed ≡ true) }
    ensures prefix { OnErr result (AppendsPrefix (W.contents writer.old.inner) (W.contents writer.new.inner) (codes "accepted\n")) }
{
    write_page(b"accepted\n", writer)?;
    Ok(true)
}

/// Writes the certificate of a grammar that is accepted.
fn tell_certificate<W: Write>(
    alloc: Global,
    checked: &Checked,
    writer: &mut Meter<W>,
) -> Result<bool, BenchFault>
    requires { writer.old.failed ≡ false }
    ensures yes { IfOk result (λ accepted. accepted ≡ true) }
    ensures ok { OnOk result (WritesCertificate checked.now.grammar (W.contents writer.old.inner) (W.contents writer.new.inner)) }
    ensures stays { OnOk result (writer.new.failed ≡ false) }
    ensures err { IfErr result IsWriteRefusal }
    ensures unwritten { IsErrOf result BenchFault.Memory → writer.new ≡ writer.old }
    ensures failed { IsErrOf result BenchFault.Writer → writer.new.failed ≡ true }
    ensures prefix { IsErrOf result BenchFault.Writer → WritesPartly checked.now.grammar (W.contents writer.old.inner) (W.contents writer.new.inner) }
{
    let Ok(line) = certificate_line(alloc, checked) else {
        return Err(BenchFault::Memory);
    };
    write_page(line.as_slice(), writer)?;
    Ok(true)
}

/// The certificate of a grammar that is accepted, with a line end, as the check prints it (ours).
pub fn certificate_line(alloc: Global, checked: &Checked) -> Result<Vec<u8>, AllocError>
    ensures { IfOk result (λ line. (certificate : List ℕ) × IsOwnCertificate checked.now.grammar certificate × (line.items ≡ certificate ++ codes "\n")) }
{
    let mut line = own_certificate(alloc, checked)?;
    line.push(b'\n')?;
    Ok(line)
}

/// Writes the findings of a refused grammar, whether or not its certificate is wanted.
fn tell_findings<W: Write>(
    alloc: Global,
    refused: &Refused,
    writer: &mut Meter<W>,
) -> Result<bool, BenchFault>
    requires { writer.old.failed ≡ false }
    ensures ok { (asked : Bool) → IfOk result (IsTold refused.now.grammar asked (W.contents writer.old.inner) (W.contents writer.new.inner)) }
    ensures stays { OnOk result (writer.new.failed ≡ false) }
    ensures err { IfErr result IsWriteRefusal }
    ensures unwritten { IsErrOf result BenchFault.Memory → writer.new ≡ writer.old }
    ensures failed { IsErrOf result BenchFault.Writer → writer.new.failed ≡ true }
    ensures prefix { IsErrOf result BenchFault.Writer → (asked : Bool) → IsPartlyTold refused.now.grammar asked (W.contents writer.old.inner) (W.contents writer.new.inner) }
{
    // The call makes the contract of the check known.
    let _grammar = refused.grammar();
    match refused.write_findings(alloc, writer) {
        Ok(()) => Ok(false),
        Err(WriteFault::Writer) => Err(BenchFault::Writer),
        Err(WriteFault::Memory) => Err(BenchFault::Memory),
    }
}
