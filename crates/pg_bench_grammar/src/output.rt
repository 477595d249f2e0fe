//! Writing to the writer.

ghost use Rattle.std.specs.Prelude.{◌≡◌, false, true, OnErr, OnOk, IsErrOf};
ghost use Rattle.std.specs.Io.KnownBytes.{Appends};
ghost use Rattle.pg_tree.specs.Bytes.{AppendsPrefix};

use crate::bench_fault::BenchFault;
use pg_tree::{Meter, write_bytes};
use std::io::Write;

/// Writes all the bytes. The only fault is the writer's.
pub fn write_page<W: Write>(page: &[u8], writer: &mut Meter<W>) -> Result<(), BenchFault>
    requires { writer.old.failed ≡ false }
    ensures ok { OnOk result (Appends (W.contents writer.old.inner) (W.contents writer.new.inner) page.now) }
    ensures stays { OnOk result (writer.new.failed ≡ false) }
    ensures only { OnErr result (IsErrOf result BenchFault.Writer) }
    ensures failed { OnErr result (writer.new.failed ≡ true) }
    ensures prefix { OnErr result (AppendsPrefix (W.contents writer.old.inner) (W.contents writer.new.inner) page.now) }
{
    match write_bytes(page, writer) {
        Ok(()) => Ok(()),
        Err(_) => Err(BenchFault::Writer),
    }
}
