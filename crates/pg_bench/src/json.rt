//! The JSON of a forest before it is written: of a quick run's forest it is made while it is written, so that the whole never stands in memory.

ghost use Rattle.std.specs.Prelude.{◌≡◌, false, true, OnOk, OnErr, IsErrOf};
ghost use Rattle.std.specs.Io.KnownBytes.{Appends};
ghost use Rattle.pg_tree.specs.Bytes.{AppendsPrefix};
ghost use Rattle.pg_bench.specs.Pieces.{json_bytes};

use pg_tree::{Meter, WriteFault, write_bytes};
use pg_tree_placed::PlacedText;
use std::io::Write;

/// The JSON of a forest, ready to be written (ours).
#[derive(Drop)]
pub(crate) enum Json<'a> {
    /// All its bytes.
    Whole(Vec<u8>),
    /// The forest over its text, whose bytes are made while they are written.
    Placed(PlacedText<'a>),
}

impl<'a> Json<'a> {
    /// Writes the JSON, in as many calls as the writer needs. It takes no memory, and doesn't flush.
    pub(crate) fn write<W: Write>(self, writer: &mut Meter<W>) -> Result<(), WriteFault>
        requires { writer.old.failed ≡ false }
        ensures ok { OnOk result (Appends (W.contents writer.old.inner) (W.contents writer.new.inner) (json_bytes self.entry)) }
        ensures stays { OnOk result (writer.new.failed ≡ false) }
        ensures only { OnErr result (IsErrOf result WriteFault.Writer) }
        ensures failed { OnErr result (writer.new.failed ≡ true) }
        ensures prefix { OnErr result (AppendsPrefix (W.contents writer.old.inner) (W.contents writer.new.inner) (json_bytes self.entry)) }
    {
        match self {
            Json::Whole(bytes) => {
                let written = write_bytes(bytes.as_slice(), writer);
                drop(bytes);
                written
            }
            Json::Placed(text) => text.write(writer),
        }
    }
}
