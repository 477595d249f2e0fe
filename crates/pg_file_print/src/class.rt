//! Printing class expressions: atoms with `|` between them, and parentheses around a union that is in a union or after `not`.

ghost use Rattle.std.specs.Prelude.{◌≡◌, ◌∷◌, [], map, OnOk};
ghost use Rattle.pg_file_tokens.specs.Tokens.{literal, mark};
ghost use Rattle.pg_file_tokens.specs.declared.token.Mark.TheVariants.{Dots};
ghost use Rattle.pg_grammar_form.specs.Names.{name_at};
ghost use Rattle.std.specs.List.{AllByRecursion};
ghost use Rattle.pg_grammar_form.specs.Preorder.{SpellForms};
ghost use Rattle.pg_grammar_form.specs.Classes.{member_count, IsProperUnion};
ghost use Rattle.pg_grammar_form.specs.ClassItems.{item_name};
ghost use Rattle.pg_file_items.specs.Syntax.{atom_written, class_written};
ghost use Rattle.pg_file_print.specs.Canonical.{atoms_of, class_from};
ghost use Rattle.pg_file_print.specs.Layout.{with_tokens};
ghost use Rattle.pg_file_print.specs.Levels.{first_piece, part_piece, with_piece, levels_after, needed, coming};

use crate::layout::Layout;
use crate::levels::{Ending, Level, enter, put_end};
use pg_file_tokens::Mark;
use pg_grammar_form::{ClassExpression, ClassId, ClassItem, ClassPart};
use std::alloc::{AllocError, Global};
use std::collections::VecDeque;

/// Prints a class expression, which may name these class items.
pub fn put_class(
    alloc: Global,
    out: &mut Layout,
    items: &[ClassItem],
    class: &ClassExpression,
) -> Result<(), AllocError>
    ensures { OnOk result (out.new ≡ with_tokens out.old (class_written (class_from (map item_name items.now) class.now) [])) }
{
    let mut levels = VecDeque::new(alloc);
    enter(alloc, out, &mut levels, 1, Mark::Bar, Ending::Nothing)?;
    let Some((first, rest)) = class.parts().split_first() else {
        return Ok(());
    };
    put_first(alloc, out, items, first, &mut levels)?;
    put_parts(alloc, out, items, rest, &mut levels)
}

/// Prints the first part of an expression, up to the next part. The whole gets no parentheses.
fn put_first(
    alloc: Global,
    out: &mut Layout,
    items: &[ClassItem],
    part: &ClassPart,
    levels: &mut VecDeque<Level>,
) -> Result<(), AllocError>
    ensures text { OnOk result (out.new ≡ with_piece out.old (first_piece (map item_name items.now) part.now) levels.old.items) }
    ensures levels { OnOk result (levels.new.items ≡ levels_after (first_piece (map item_name items.now) part.now) levels.old.items) }
{
    match part {
        ClassPart::Union(count) => { enter(alloc, out, levels, *count, Mark::Bar, Ending::Nothing) }
        ClassPart::Literal(_)
        | ClassPart::Range(_, _)
        | ClassPart::Complement
        | ClassPart::Class(_)
        | ClassPart::Predicate(_) => put_part(alloc, out, items, part, levels),
    }
}

/// Prints the remaining parts.
fn put_parts(
    alloc: Global,
    out: &mut Layout,
    items: &[ClassItem],
    parts: &[ClassPart],
    levels: &mut VecDeque<Level>,
) -> Result<(), AllocError>
    requires whole { SpellForms (needed levels.old.items) (map member_count parts.now) }
    requires unions { AllByRecursion IsProperUnion parts.now }
    ensures { OnOk result (out.new ≡ with_tokens out.old (coming atom_written levels.old.items (atoms_of (map item_name items.now) parts.now))) }
{
    for part in parts {
        put_part(alloc, out, items, part, levels)?;
    }
    Ok(())
}

#[tactic(auto, using(crate::proofs::PrinterLemmas::Tokens::laid_both))]
/// Prints a part inside an expression, up to the next part.
fn put_part(
    alloc: Global,
    out: &mut Layout,
    items: &[ClassItem],
    part: &ClassPart,
    levels: &mut VecDeque<Level>,
) -> Result<(), AllocError>
    ensures text { OnOk result (out.new ≡ with_piece out.old (part_piece (map item_name items.now) part.now) levels.old.items) }
    ensures levels { OnOk result (levels.new.items ≡ levels_after (part_piece (map item_name items.now) part.now) levels.old.items) }
{
    match part {
        ClassPart::Literal(characters) => out.put_literal(alloc, characters.as_slice())?,
        ClassPart::Range(low, high) => put_range(alloc, out, *low, *high)?,
        ClassPart::Union(count) => {
            out.put_mark(Mark::Open)?;
            return enter(alloc, out, levels, *count, Mark::Bar, Ending::Close);
        }
        ClassPart::Complement => {
            out.put_word(alloc, "not")?;
            return enter(alloc, out, levels, 1, Mark::Bar, Ending::Nothing);
        }
        ClassPart::Class(item) => out.put_name(class_name(items, *item))?,
        ClassPart::Predicate(used) => out.put_text(alloc, used.name.as_str())?,
    }
    put_end(alloc, out, levels)
}

fn put_range(alloc: Global, out: &mut Layout, low: char, high: char) -> Result<(), AllocError>
    ensures { OnOk result (out.new ≡ with_tokens out.old (literal (low ∷ []) ∷ mark Dots ∷ literal (high ∷ []) ∷ [])) }
{
    out.put_literal(alloc, &[low])?;
    out.put_mark(Mark::Dots)?;
    out.put_literal(alloc, &[high])
}

/// The name of a class item.
fn class_name(items: &[ClassItem], item: ClassId) -> &[char]
    ensures { result.now ≡ name_at (map item_name items.now) item }
{
    match items.get(item.index()) {
        Some(item) => item.name.as_slice(),
        None => &[],
    }
}
