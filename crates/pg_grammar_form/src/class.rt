//! Class expressions: sets of characters as a grammar file writes them.
//!
//! An expression is kept as its atoms, complements and unions in preorder, so that it can be printed again as it was
//! written. The list is one whole expression with at least two members in each union; that is an invariant of the type.
//! Membership, printing and sets of ranges all go through the list in one pass and rely on it.

ghost use Rattle.std.specs.Prelude.{◌≡◌, IfOk};
ghost use Rattle.std.specs.List.{list_any};
ghost use Rattle.pg_grammar_form.specs.Classes.{descends, is_long, lacks_item, IsExpression};

use crate::limits::{LITERAL_LIMIT, NAME_LIMIT, characters_in};
use crate::number::ClassId;
use crate::used::PredicateUse;
use pg_text::Characters;
use std::alloc::{AllocError, Global};
use std::marker::Model;
use std::rc::Rc;

/// An atom of a class expression, or a complement or a union of the whole expressions that come next (ours; the Parsec
/// report of 2001 has `satisfy` over any test of a character).
#[derive(Drop)]
pub enum ClassPart {
    /// The characters of a literal, as a set. An empty literal is the empty set.
    Literal(Characters),
    /// The characters from the first to the last, both included. A descending range has none, and no grammar holds one.
    Range(char, char),
    /// The characters of the next `n` expressions; `n` is at least 2.
    Union(usize),
    /// The characters that the next expression lacks.
    Complement,
    /// The characters of a class item.
    Class(ClassId),
    /// The characters for which a predicate holds.
    Predicate(PredicateUse),
}

/// A class expression, seen as the list of its atoms, complements and unions in preorder.
///
/// Copies share one list: a short form of a file may stand for several forms with equal expressions, which may be long.
#[derive(Drop)]
pub struct ClassExpression {
    parts: Rc<Vec<ClassPart>>,
}

impl Model for ClassExpression {
    ghost use Rattle.std.specs.Prelude.{List};
    ghost use Rattle.pg_grammar_form.specs.declared.class.ClassPart.{ClassPart};
    ghost use Rattle.pg_grammar_form.specs.Classes.{IsExpression};

    ghost Value = { List ClassPart };

    ghost view = { λ expression. expression.parts.value.items };

    ghost invariant = { λ expression. IsExpression expression.parts.value.items };
}

impl ClassExpression {
    /// The expression that these parts spell. The caller owes that they are one whole expression.
    pub fn new(alloc: Global, parts: Vec<ClassPart>) -> Result<ClassExpression, AllocError>
        requires { IsExpression parts.items }
        ensures { IfOk result (λ expression. expression ≡ parts.items) }
    {
        let parts = Rc::new(alloc, parts)?;
        Ok(ClassExpression { parts })
    }

    /// Its atoms, complements and unions in preorder, from left to right as a file writes them.
    pub fn parts(&self) -> &[ClassPart]
        ensures same { result.now ≡ self.now }
        ensures whole { IsExpression self.now }
    {
        self.parts.as_slice()
    }

    /// An equal expression, which shares its memory. The only error is too many copies to count.
    pub fn share(&self) -> Result<ClassExpression, AllocError>
        ensures { IfOk result (λ expression. expression ≡ self.now) }
    {
        let parts = self.parts.clone()?;
        Ok(ClassExpression { parts })
    }

    /// Whether one of its ranges descends.
    pub fn has_descending_range(&self) -> bool
        ensures { result ≡ list_any descends self.now }
    {
        self.parts.iter().any(descends)
    }

    /// Whether a literal in it has more than 1,024 characters, or the name of a predicate has more than 64.
    pub fn has_long_text(&self) -> bool
        ensures { result ≡ list_any is_long self.now }
    {
        self.parts.iter().any(is_long)
    }

    /// Whether it names a class item other than the first `count`.
    pub fn lacks_item(&self, count: usize) -> bool
        ensures { result ≡ list_any (lacks_item count) self.now }
    {
        self.parts.iter().any(|part| lacks_item(count, part))
    }
}

/// Whether a range descends.
fn descends(part: &ClassPart) -> bool
    ensures { result ≡ descends part.now }
{
    match part {
        ClassPart::Range(low, high) => high < low,
        ClassPart::Literal(_)
        | ClassPart::Union(_)
        | ClassPart::Complement
        | ClassPart::Class(_)
        | ClassPart::Predicate(_) => false,
    }
}

/// Whether a literal has more than 1,024 characters, or the name of a predicate has more than 64.
fn is_long(part: &ClassPart) -> bool
    ensures { result ≡ is_long part.now }
{
    match part {
        ClassPart::Literal(characters) => characters.len() > LITERAL_LIMIT,
        ClassPart::Predicate(used) => characters_in(used.name.as_str()) > NAME_LIMIT,
        ClassPart::Range(_, _)
        | ClassPart::Union(_)
        | ClassPart::Complement
        | ClassPart::Class(_) => false,
    }
}

/// Whether a part names a class item other than the first `count`.
fn lacks_item(count: usize, part: &ClassPart) -> bool
    ensures { result ≡ lacks_item count part.now }
{
    match part {
        ClassPart::Class(item) => count <= item.index(),
        ClassPart::Literal(_)
        | ClassPart::Range(_, _)
        | ClassPart::Union(_)
        | ClassPart::Complement
        | ClassPart::Predicate(_) => false,
    }
}
