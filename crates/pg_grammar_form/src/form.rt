//! The forms of rule bodies, in groups: as callers pass them, and as nodes of a grammar.
//!
//! Callers pass a body as the list of its base forms in preorder, each with the number of its parts. In a grammar, each
//! node has the numbers of its parts instead, and the numbers of what it names. One type serves both. Every other form
//! that a file may write is replaced by these. So code that runs or explains a grammar has eight cases: one stands for
//! all forms without parts, and one for all forms around one part.

ghost use Rattle.std.specs.Prelude.{◌≡◌, IfOk, option_copied};
ghost use Rattle.pg_grammar_form.specs.Contents.{alternatives_in, builder_of, class_of, class_in, is_declaration, is_try, leaf_in, rule_in, sequence_in, string_in, string_of, term_in, word_in, word_of};
ghost use Rattle.pg_grammar_form.specs.Forms.{part_count};

use crate::class::ClassExpression;
use crate::number::{NodeId, RuleId, WordId};
use crate::parts::Parts;
use crate::side::Side;
use crate::used::{BuilderUse, ChainBuilder, OperatorBuilders};
use pg_text::Characters;
use pg_tree::Label;
use std::alloc::{AllocError, Global};

/// A form without parts, which reads the text itself. A word item is known by a `W`. `R` stands for the Parsec report of 2001 as the source, and `L` for the
/// library Text.Parsec.
#[derive(Drop)]
pub enum Leaf<W> {
    /// One character of a class (`satisfy` of R).
    Satisfy(ClassExpression),
    /// These characters, one after another; in a grammar at least one (`string` of R).
    String(Characters),
    /// A word of the word item, which callers may pass later (ours).
    Word(W),
    /// Matches if no character of a class comes next (`notFollowedBy` of L, here of a class alone).
    NotFollowedBy(ClassExpression),
    /// The end of the text (`eof` of L).
    EndOfText,
    /// A declaration of an operator. No character of the class may follow its keyword (ours).
    Declare(ClassExpression),
}

/// What a form around one part makes of the part's answer.
#[derive(Drop)]
pub enum Around {
    /// Errors count as if the part had consumed nothing (`try` of R).
    Try,
    /// One leaf with the text that the part consumed replaces the trees (ours).
    Text,
    /// Drops the trees (ours).
    Skip,
    /// A builder makes the trees into one, with this symbol, which may be empty (ours).
    Build(BuilderUse, Label),
    /// Replaces what was expected by this message, if the part consumed nothing (`<?>` of R).
    Label(Characters),
    /// Removes what the part declared once the part has succeeded (ours).
    Local,
}

/// A form. A rule is known by an `R`, a word item by a `W`, one part by a `P`, and any number of parts by an `L`.
#[derive(Drop)]
pub enum Form<R, W, P, L> {
    /// A form without parts.
    Leaf(Leaf<W>),
    /// The parts, one after another; there may be none (`>>=` of R from each to the next).
    Seq(L),
    /// One of the alternatives, tried in order (`<|>` of R). In a grammar there is at least one.
    Choice(L),
    /// The part, as often as it matches, perhaps never (`many` of R).
    Many(P),
    /// Operands (the first part) with separators (the second part) between them; a builder folds them from a side.
    Chain(Side, ChainBuilder, P, P),
    /// The body of the rule, which callers may pass later.
    Rule(R),
    /// Operators of the table in force around the term, with these builders (`buildExpressionParser` of L).
    Expression(OperatorBuilders, P),
    /// The part, with something done to its answer.
    Around(Around, P),
}

/// The one part of a form as callers pass it: the next whole form.
#[derive(Clone, Copy, Debug, PartialEq, Eq)]
pub struct NextForm;

/// A form of a body in preorder. It has names, and the number of its parts, which are the next whole forms.
pub type BaseForm = Form<Characters, Characters, NextForm, usize>;

/// A node of a grammar: a form with the numbers of its parts and of the rule or word item that it names.
pub type Node = Form<RuleId, WordId, NodeId, Parts>;

impl<R, W, P> Form<R, W, P, usize> {
    /// How many of the next whole forms are its parts.
    pub fn part_count(&self) -> usize
        ensures { result ≡ part_count self.now }
    {
        match self {
            Form::Leaf(_) | Form::Rule(_) => 0,
            Form::Seq(count) | Form::Choice(count) => *count,
            Form::Many(_) | Form::Expression(_, _) | Form::Around(_, _) => 1,
            Form::Chain(_, _, _, _) => 2,
        }
    }
}

impl<R, W, P, L> Form<R, W, P, L> {
    /// The leaf that it is, if it is one.
    pub fn leaf(&self) -> Option<&Leaf<W>>
        ensures { option_copied result ≡ leaf_in self.now }
    {
        match self {
            Form::Leaf(leaf) => Some(leaf),
            Form::Seq(_)
            | Form::Choice(_)
            | Form::Many(_)
            | Form::Chain(_, _, _, _)
            | Form::Rule(_)
            | Form::Expression(_, _)
            | Form::Around(_, _) => None,
        }
    }

    /// The parts of a sequence, if it is one.
    pub fn sequence(&self) -> Option<&L>
        ensures { option_copied result ≡ sequence_in self.now }
    {
        match self {
            Form::Seq(parts) => Some(parts),
            Form::Leaf(_)
            | Form::Choice(_)
            | Form::Many(_)
            | Form::Chain(_, _, _, _)
            | Form::Rule(_)
            | Form::Expression(_, _)
            | Form::Around(_, _) => None,
        }
    }

    /// The alternatives of a choice, if it is one.
    pub fn alternatives(&self) -> Option<&L>
        ensures { option_copied result ≡ alternatives_in self.now }
    {
        match self {
            Form::Choice(parts) => Some(parts),
            Form::Leaf(_)
            | Form::Seq(_)
            | Form::Many(_)
            | Form::Chain(_, _, _, _)
            | Form::Rule(_)
            | Form::Expression(_, _)
            | Form::Around(_, _) => None,
        }
    }

    /// The rule that it uses, if it uses one.
    pub fn named_rule(&self) -> Option<&R>
        ensures { option_copied result ≡ rule_in self.now }
    {
        match self {
            Form::Rule(rule) => Some(rule),
            Form::Leaf(_)
            | Form::Seq(_)
            | Form::Choice(_)
            | Form::Many(_)
            | Form::Chain(_, _, _, _)
            | Form::Expression(_, _)
            | Form::Around(_, _) => None,
        }
    }

    /// The term of an expression, if it is one.
    pub fn term(&self) -> Option<&P>
        ensures { option_copied result ≡ term_in self.now }
    {
        match self {
            Form::Expression(_, term) => Some(term),
            Form::Leaf(_)
            | Form::Seq(_)
            | Form::Choice(_)
            | Form::Many(_)
            | Form::Chain(_, _, _, _)
            | Form::Rule(_)
            | Form::Around(_, _) => None,
        }
    }

    /// The string that it reads, if it reads one.
    pub fn string(&self) -> Option<&Characters>
        ensures { option_copied result ≡ string_in self.now }
    {
        self.leaf()?.string()
    }

    /// The word item whose words it reads, if it reads words.
    pub fn named_word(&self) -> Option<&W>
        ensures { option_copied result ≡ word_in self.now }
    {
        self.leaf()?.named_word()
    }

    /// The class expression in it, if there is one.
    pub fn class(&self) -> Option<&ClassExpression>
        ensures { option_copied result ≡ class_in self.now }
    {
        self.leaf()?.class()
    }
}

impl<W> Leaf<W> {
    /// The string that it reads, if it reads one.
    pub fn string(&self) -> Option<&Characters>
        ensures { option_copied result ≡ string_of self.now }
    {
        match self {
            Leaf::String(text) => Some(text),
            Leaf::Satisfy(_)
            | Leaf::Word(_)
            | Leaf::NotFollowedBy(_)
            | Leaf::EndOfText
            | Leaf::Declare(_) => None,
        }
    }

    /// The word item whose words it reads, if it reads words.
    pub fn named_word(&self) -> Option<&W>
        ensures { option_copied result ≡ word_of self.now }
    {
        match self {
            Leaf::Word(word) => Some(word),
            Leaf::Satisfy(_)
            | Leaf::String(_)
            | Leaf::NotFollowedBy(_)
            | Leaf::EndOfText
            | Leaf::Declare(_) => None,
        }
    }

    /// Whether it reads a declaration of an operator.
    pub fn is_declaration(&self) -> bool
        ensures { result ≡ is_declaration self.now }
    {
        match self {
            Leaf::Declare(_) => true,
            Leaf::Satisfy(_)
            | Leaf::String(_)
            | Leaf::Word(_)
            | Leaf::NotFollowedBy(_)
            | Leaf::EndOfText => false,
        }
    }

    /// The class expression in it, if there is one.
    pub fn class(&self) -> Option<&ClassExpression>
        ensures { option_copied result ≡ class_of self.now }
    {
        match self {
            Leaf::Satisfy(class) | Leaf::NotFollowedBy(class) | Leaf::Declare(class) => Some(class),
            Leaf::String(_) | Leaf::Word(_) | Leaf::EndOfText => None,
        }
    }
}

impl Around {
    /// Whether it is a `try`.
    pub fn is_try(&self) -> bool
        ensures { result ≡ is_try self.now }
    {
        match self {
            Around::Try => true,
            Around::Text | Around::Skip | Around::Build(_, _) | Around::Label(_) | Around::Local =>
                { false }
        }
    }

    /// The builder in it, if there is one.
    pub fn builder(&self) -> Option<&BuilderUse>
        ensures { option_copied result ≡ builder_of self.now }
    {
        match self {
            Around::Build(used, _) => Some(used),
            Around::Try | Around::Text | Around::Skip | Around::Label(_) | Around::Local => None,
        }
    }

    /// A copy in memory of its own.
    pub fn copy(&self, alloc: Global) -> Result<Around, AllocError>
        ensures { IfOk result (λ around. around ≡ self.now) }
    {
        Ok(match self {
            Around::Try => Around::Try,
            Around::Text => Around::Text,
            Around::Skip => Around::Skip,
            Around::Build(used, symbol) => Around::Build(used.copy(alloc)?, symbol.copy(alloc)?),
            Around::Label(message) => Around::Label(copied(alloc, message)?),
            Around::Local => Around::Local,
        })
    }
}

impl Leaf<Characters> {
    /// A copy in memory of its own.
    pub fn copy(&self, alloc: Global) -> Result<Leaf<Characters>, AllocError>
        ensures { IfOk result (λ leaf. leaf ≡ self.now) }
    {
        Ok(match self {
            Leaf::Satisfy(class) => Leaf::Satisfy(class.share()?),
            Leaf::String(text) => Leaf::String(copied(alloc, text)?),
            Leaf::Word(name) => Leaf::Word(copied(alloc, name)?),
            Leaf::NotFollowedBy(class) => Leaf::NotFollowedBy(class.share()?),
            Leaf::EndOfText => Leaf::EndOfText,
            Leaf::Declare(class) => Leaf::Declare(class.share()?),
        })
    }
}

impl Form<Characters, Characters, NextForm, usize> {
    /// A copy in memory of its own.
    pub fn copy(&self, alloc: Global) -> Result<BaseForm, AllocError>
        ensures { IfOk result (λ form. form ≡ self.now) }
    {
        Ok(match self {
            Form::Leaf(leaf) => Form::Leaf(leaf.copy(alloc)?),
            Form::Seq(count) => Form::Seq(*count),
            Form::Choice(count) => Form::Choice(*count),
            Form::Many(part) => Form::Many(*part),
            Form::Chain(side, used, operand, separator) => {
                Form::Chain(*side, used.copy(alloc)?, *operand, *separator)
            }
            Form::Rule(name) => Form::Rule(copied(alloc, name)?),
            Form::Expression(builders, part) => Form::Expression(builders.copy(alloc)?, *part),
            Form::Around(around, part) => Form::Around(around.copy(alloc)?, *part),
        })
    }
}

/// A copy of the characters in memory of its own.
fn copied(alloc: Global, text: &Characters) -> Result<Characters, AllocError>
    ensures { IfOk result (λ copy. copy ≡ text.now) }
{
    Ok(Characters::new(Vec::from_slice(alloc, text.as_slice())?))
}
