//! The text in JSON of a forest over a text.

ghost use Rattle.std.specs.Prelude.{◌≡◌, false, true, IfOk, OnOk, OnErr, IsErrOf};
ghost use Rattle.std.specs.Io.KnownBytes.{Appends};
ghost use Rattle.pg_tree.specs.Bytes.{AppendsPrefix};
ghost use Rattle.pg_tree.specs.Json.{json};

use crate::block::Block;
use crate::forest::PlacedForest;
use crate::note::Note;
use crate::noting::notes_of;
use crate::source::{Closing, Source, closings};
use crate::store::Store;
use pg_tree::{Meter, WriteFault};
use std::alloc::{AllocError, Global};
use std::io::Write;
use std::marker::Model;

/// The text in JSON of a forest, ready to be written (ours): the steps that make its trees, with notes on them, the closing texts of its nodes, and a block of bytes.
#[derive(Drop)]
pub struct PlacedText<'a> {
    pub(crate) store: Store<'a>,
    pub(crate) notes: Vec<Note>,
    pub(crate) closings: Vec<Closing>,
    pub(crate) block: Block,
}

impl<'a> Model for PlacedText<'a> {
    ghost use Rattle.std.specs.Prelude.{◌≡◌, ℕ, List, map};
    ghost use Rattle.std.specs.Coded.{coded_list, coded_ℕ};
    ghost use Rattle.pg_tree_placed.specs.Forward.{noted_text};
    ghost use Rattle.pg_tree_placed.specs.Written.{closing};
    ghost use Rattle.pg_tree_placed.specs.Writing.{closing_text};

    ghost Value = { List ℕ };

    ghost coded = { coded_list coded_ℕ };

    ghost view = { λ t. noted_text t.store.text.now t.store.labels.items t.store.entries.items t.notes.items };

    ghost invariant = { λ t. map closing_text t.closings.items ≡ map closing t.store.labels.items };
}

impl<'a> PlacedText<'a> {
    /// The whole text of a forest: the same that `pg_tree` writes. It asks for all the memory that is needed, and the only error is that there is none.
    pub fn new(alloc: Global, forest: PlacedForest<'a>) -> Result<PlacedText<'a>, AllocError>
        ensures { IfOk result (λ text. text ≡ json forest.entry) }
    {
        let PlacedForest { store } = forest;
        let closings = closings(alloc, store.labels.as_slice())?;
        let notes = notes_of(alloc, store.labels.as_slice(), store.entries.as_slice())?;
        let block = Block::new(alloc)?;
        Ok(PlacedText {
            store,
            notes,
            closings,
            block,
        })
    }

    /// Writes the text, in as many calls as the writer needs. It takes no memory, and doesn't flush.
    pub fn write<W: Write>(self, writer: &mut Meter<W>) -> Result<(), WriteFault>
        requires { writer.old.failed ≡ false }

        // The writer took the text, and no more.
        ensures ok { OnOk result (Appends (W.contents writer.old.inner) (W.contents writer.new.inner) self.entry) }
        ensures stays { OnOk result (writer.new.failed ≡ false) }

        // The only error is the writer's, which took a prefix of the text.
        ensures only { OnErr result (IsErrOf result WriteFault.Writer) }
        ensures failed { OnErr result (writer.new.failed ≡ true) }
        ensures prefix { OnErr result (AppendsPrefix (W.contents writer.old.inner) (W.contents writer.new.inner) self.entry) }
    {
        let PlacedText {
            store,
            notes,
            closings,
            mut block,
        } = self;
        let source = Source {
            text: store.text,
            labels: store.labels.as_slice(),
            closings: closings.as_slice(),
        };
        source.write_noted(
            store.entries.as_slice(),
            notes.as_slice(),
            &mut block,
            writer,
        )
    }
}
