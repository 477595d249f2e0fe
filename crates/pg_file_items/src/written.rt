//! Values and class expressions as a file writes them: in preorder, before short forms are replaced and names looked up.
//!
//! Names are checked once the whole file is read, since faults of the syntax come before faults of names. The places of
//! names are kept beside the forms.

ghost use Rattle.std.specs.Prelude.{◌≡◌};
ghost use Rattle.pg_file_items.specs.Written.{IsClass};

use crate::words::{ClassForm, OneForm, SomeForm, TwoForm};
use pg_grammar_form::Side;
use pg_text::Characters;
use std::marker::Model;

/// An atom of a class expression, or a complement or a union of the next whole expressions.
#[derive(Drop)]
pub enum WrittenPart {
    /// The characters of a literal.
    Literal(Characters),
    /// The characters from the first to the last, both included.
    Range(char, char),
    /// The characters of the next `n` expressions; `n` is at least 2.
    Union(usize),
    /// The characters that the next expression lacks.
    Complement,
    /// The characters of the class or predicate with this name.
    Named(Characters),
}

/// A whole class expression, seen as the list of its atoms, complements and unions in preorder.
#[derive(Drop)]
pub struct WrittenClass {
    parts: Vec<WrittenPart>,
}

impl Model for WrittenClass {
    ghost use Rattle.std.specs.Prelude.{List};
    ghost use Rattle.pg_file_items.specs.declared.written.WrittenPart.{WrittenPart};
    ghost use Rattle.pg_file_items.specs.Written.{IsClass};

    ghost Value = { List WrittenPart };

    ghost view = { λ class. class.parts.items };

    ghost invariant = { λ class. IsClass class.parts.items };
}

impl WrittenClass {
    /// The class expression of these parts. The caller owes that they are one whole expression.
    pub fn new(parts: Vec<WrittenPart>) -> WrittenClass
        requires { IsClass parts.items }
        ensures { result ≡ parts.items }
    {
        WrittenClass { parts }
    }

    /// Its parts, in the order in which they are written.
    pub fn parts(&self) -> &[WrittenPart]
        ensures same { result.now ≡ self.now }
        ensures whole { IsClass self.now }
    {
        self.parts.as_slice()
    }
}

/// A form of a value in preorder, as it is written. Its parts are the next whole forms.
#[derive(Drop)]
pub enum WrittenForm {
    /// A form of a class expression.
    OfClass(ClassForm, WrittenClass),
    /// These characters, at least one.
    String(Characters),
    /// This many parts, one after another.
    Seq(usize),
    /// A form of this many parts, at least one.
    OfSome(SomeForm, usize),
    /// A form of one part.
    OfOne(OneForm),
    /// A form of a part and a separator.
    OfTwo(TwoForm),
    /// A form before, a form after, and the part between them.
    Between,
    /// A chain of operands and separators. The symbol is empty if none is written.
    Chain {
        side: Side,
        builder: Characters,
        symbol: Characters,
    },
    /// Operators around a term, with a builder for each position of an operator.
    Expression {
        infix: Characters,
        prefix: Characters,
        postfix: Characters,
    },
    /// The tree that the builder makes of the symbol and the part's trees. The symbol is empty if none is written.
    Build {
        builder: Characters,
        symbol: Characters,
    },
    /// The part, with this message.
    Label(Characters),
    /// The end of the text.
    EndOfText,
    /// A word of the word item with this name.
    Word(Characters),
    /// The value of the rule with this name.
    Rule(Characters),
}
