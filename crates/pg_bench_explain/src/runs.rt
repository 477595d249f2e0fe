//! The outline of a text's trees, for people.
//!
//! The calls of `pg_bench` are proved to parse the text, and say why a text can't be used. Then nothing is written here.

ghost use Rattle.std.specs.Prelude.{◌≡◌, false};
ghost use Rattle.pg_table.specs.Tables.{ComesFrom};

use pg_grammar_value::Grammar;
use pg_machine::Success;
use pg_table::Table;
use pg_text::Text;
use pg_trail_outline::{DerivedText, write_outline};
use pg_tree::{Meter, WriteFault};
use std::alloc::Global;
use std::io::Write;

/// Writes the outline of the forest that a parse gave a text under a table of the grammar (ours). What the parse found was proved where the text was parsed.
/// The meter must not have failed yet. Fails if the writer fails or memory runs out; the latter comes before the first byte is written.
pub fn outline_success<W: Write>(
    alloc: Global,
    grammar: &Grammar,
    table: &Table,
    text: &Text,
    success: Success,
    writer: &mut Meter<W>,
) -> Result<(), WriteFault>
    requires table { ComesFrom grammar.now table.now }
    requires writer { writer.old.failed ≡ false }
{
    let Success { forest, trail, .. } = success;
    let derived = DerivedText {
        grammar,
        table,
        text,
        trail: &trail,
    };
    write_outline(alloc, &derived, forest, writer)
}
