//! The printing of a grammar file: from its bytes to those of its canonical form.

ghost use Rattle.std.specs.Prelude.{◌≡◌, false, true, IfErr, OnOk, IsErrOf};
ghost use Rattle.pg_pred.specs.Offer.{offer_of};
ghost use Rattle.pg_bench_grammar.specs.Files.{IsFaultOfFile};
ghost use Rattle.pg_bench_grammar.specs.Faults.{IfFile, IsBeforeWriting, IsPageRefusal};
ghost use Rattle.pg_bench_grammar.specs.Printing.{IsPrinted, IsPartlyPrinted};

use crate::bench_fault::BenchFault;
use crate::grammar_file::grammar_of;
use crate::output::write_page;
use pg_file::print;
use pg_pred::Registry;
use pg_tree::Meter;
use std::alloc::Global;
use std::io::Write;

/// Writes the grammar that a file spells in its one canonical form (ours), which spells the same grammar. The registry has the predicates and builders that
/// the file may name.
///
/// The meter must not have failed yet. A fault of the file comes before anything is written, and so does running out of memory; then only the writer can
/// fail.
pub fn print_bytes<W: Write>(
    alloc: Global,
    grammar: &[u8],
    registry: &Registry,
    writer: &mut Meter<W>,
) -> Result<(), BenchFault>
    requires { writer.old.failed ≡ false }

    // The canonical form of the grammar was written, and spells it again.
    ensures ok { OnOk result (IsPrinted (offer_of registry.now) grammar.now (W.contents writer.old.inner) (W.contents writer.new.inner)) }
    ensures stays { OnOk result (writer.new.failed ≡ false) }

    // The file spells no grammar; or the writer failed after a prefix of what it was to be given; or memory ran out.
    ensures err { IfErr result IsPageRefusal }
    ensures file { IfErr result (IfFile (IsFaultOfFile (offer_of registry.now) grammar.now)) }
    ensures unwritten { IfErr result (λ fault. IsBeforeWriting fault → writer.new ≡ writer.old) }
    ensures writer { IsErrOf result BenchFault.Writer → writer.new.failed ≡ true }
    ensures prefix { IsErrOf result BenchFault.Writer →
        IsPartlyPrinted (offer_of registry.now) grammar.now (W.contents writer.old.inner) (W.contents writer.new.inner) }
{
    let grammar = grammar_of(alloc, grammar, registry)?;
    let printed = print(alloc, &grammar);
    drop(grammar);
    let Ok(bytes) = printed else {
        return Err(BenchFault::Memory);
    };
    write_page(bytes.as_slice(), writer)
}
