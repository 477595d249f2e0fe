//! From the bytes of a grammar file to a Haskell module.

ghost use Rattle.std.specs.Prelude.{◌≡◌, false, true, IfErr, OnOk, IsErrOf};
ghost use Rattle.pg_pred.specs.Offer.{offer_of};
ghost use Rattle.pg_bench_grammar.specs.Files.{IsFaultOfFile};
ghost use Rattle.pg_bench_grammar.specs.Faults.{IfFile, IsBeforeWriting, IsPageRefusal, IsWriteRefusal};
ghost use Rattle.pg_bench_haskell.specs.Translating.{IsTranslatedFile, IsPartlyTranslatedFile, WritesSome, WritesPartOfSome};

use pg_bench_grammar::{BenchFault, Judgement, LoadedFile, load, write_page};
use pg_haskell::{ModuleHead, haskell_module};
use pg_pred::Registry;
use pg_tree::Meter;
use std::alloc::{AllocError, Global};
use std::io::Write;

/// Writes the grammar that a file with this name spells, accepted or not, as a Haskell module with the name `module` (ours). The registry has the predicates
/// and builders that the file may name.
///
/// The meter must not have failed yet. A fault of the file comes before anything is written, and so does running out of memory; then only the writer can
/// fail.
#[tactic(auto, using(crate::proofs::Translated::translated_file, crate::proofs::Translated::partly_translated_file, pg_bench_grammar::proofs::Judged::no_fault_of_file))]
pub fn haskell_bytes<W: Write>(
    alloc: Global,
    name: &str,
    grammar: &[u8],
    registry: &Registry,
    writer: &mut Meter<W>,
    module: &str,
) -> Result<(), BenchFault>
    requires { writer.old.failed ≡ false }

    // A module was written, of a file that spells a grammar.
    ensures ok { OnOk result (IsTranslatedFile (offer_of registry.now) grammar.now (W.contents writer.old.inner) (W.contents writer.new.inner)) }
    ensures stays { OnOk result (writer.new.failed ≡ false) }

    // The file spells no grammar; or the writer failed after a prefix of what it was to be given; or memory ran out.
    ensures err { IfErr result IsPageRefusal }
    ensures file { IfErr result (IfFile (IsFaultOfFile (offer_of registry.now) grammar.now)) }
    ensures unwritten { IfErr result (λ fault. IsBeforeWriting fault → writer.new ≡ writer.old) }
    ensures writer { IsErrOf result BenchFault.Writer → writer.new.failed ≡ true }
    ensures prefix { IsErrOf result BenchFault.Writer →
        IsPartlyTranslatedFile (offer_of registry.now) grammar.now (W.contents writer.old.inner) (W.contents writer.new.inner) }
{
    let loaded = load(alloc, name, grammar, registry)?;
    let written = write_module(alloc, &loaded, writer, module);
    drop(loaded);
    match written {
        Ok(()) => Ok(()),
        Err(fault) => Err(fault),
    }
}

/// Writes the module of a loaded file.
fn write_module<W: Write>(
    alloc: Global,
    loaded: &LoadedFile,
    writer: &mut Meter<W>,
    name: &str,
) -> Result<(), BenchFault>
    requires { writer.old.failed ≡ false }
    ensures ok { OnOk result (WritesSome (W.contents writer.old.inner) (W.contents writer.new.inner)) }
    ensures stays { OnOk result (writer.new.failed ≡ false) }
    ensures err { IfErr result IsWriteRefusal }
    ensures unwritten { IsErrOf result BenchFault.Memory → writer.new ≡ writer.old }
    ensures failed { IsErrOf result BenchFault.Writer → writer.new.failed ≡ true }
    ensures prefix { IsErrOf result BenchFault.Writer → WritesPartOfSome (W.contents writer.old.inner) (W.contents writer.new.inner) }
{
    let Ok(page) = module_of(alloc, loaded, name) else {
        return Err(BenchFault::Memory);
    };
    write_page(page.as_bytes(), writer)?;
    Ok(())
}

/// The module of a loaded file.
fn module_of(alloc: Global, loaded: &LoadedFile, name: &str) -> Result<String, AllocError> {
    let is_accepted = match &loaded.judgement {
        Judgement::Accepted(_) => true,
        Judgement::Refused(_) => false,
    };
    let head = ModuleHead {
        name,
        file: loaded.name,
        is_accepted,
    };
    haskell_module(
        alloc,
        loaded.characters.as_slice(),
        loaded.syntax.items.as_slice(),
        head,
    )
}
