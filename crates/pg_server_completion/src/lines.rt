//! The words that can be written in a grammar file, how each is written, and a line on it.
//!
//! The tables of the language server stand here and nowhere else; `tests/editor_words` holds them to `docs/GRAMMAR_FILES.md`. What is written has a word for each
//! part, which signature help shows.

use pg_file_items::{ClassForm, FormWord, OneForm, SomeForm, TwoForm};
use pg_grammar_form::Side;
use pg_server_names::NameKind;

/// A word, how it is written with what belongs to it, and what that says.
#[derive(Clone, Copy)]
pub struct Line {
    pub word: &'static str,
    pub written: &'static str,
    pub line: &'static str,
}

/// The same as a row of a table.
pub(crate) type Row = (&'static str, &'static str, &'static str);

/// The words that begin items.
pub(crate) const ITEMS: [(&str, &str, &str); 5] = [
    (
        "class",
        "class NAME = class;",
        "a name for a set of characters",
    ),
    (
        "word",
        "word NAME head class rest class reserved LITERAL ..;",
        "a kind of words: what begins one, what goes on in it, and which texts are none",
    ),
    (
        "operators",
        "operators class gap class reserved LITERAL .. max NUMBER;",
        "the characters of operators, and those that are skipped after one",
    ),
    (
        "table",
        "table ROLE NUMBER LITERAL;",
        "an operator that is there from the start, with its precedence from 0 to 9",
    ),
    ("start", "start NAME;", "the rule that a text is parsed by"),
];

/// The words inside items.
pub(crate) const PARTS: [(&str, &str, &str); 6] = [
    ("head", "head class", "what begins a word"),
    ("rest", "rest class", "what goes on in a word"),
    ("gap", "gap class", "what is skipped after an operator"),
    (
        "reserved",
        "reserved LITERAL ..",
        "texts that are no such words or operators",
    ),
    (
        "max",
        "max NUMBER",
        "how many operators there may be at once, at most 64",
    ),
    ("not", "not class", "all other characters"),
];

/// The roles of operators.
pub(crate) const ROLES: [(&str, &str, &str); 5] = [
    (
        "infixl",
        "infixl NUMBER LITERAL",
        "between two operands, grouped from the left",
    ),
    (
        "infixr",
        "infixr NUMBER LITERAL",
        "between two operands, grouped from the right",
    ),
    (
        "infix",
        "infix NUMBER LITERAL",
        "between two operands, and not beside another of its precedence",
    ),
    ("prefix", "prefix NUMBER LITERAL", "before its operand"),
    ("postfix", "postfix NUMBER LITERAL", "behind its operand"),
];

/// The predicates.
pub(crate) const PREDICATES: [(&str, &str, &str); 6] = [
    ("digit", "digit", "`0` to `9`"),
    ("octDigit", "octDigit", "`0` to `7`"),
    ("hexDigit", "hexDigit", "`0` to `9`, `A` to `F`, `a` to `f`"),
    ("letter", "letter", "a letter of Unicode"),
    ("alphaNum", "alphaNum", "a letter or a number of Unicode"),
    (
        "space",
        "space",
        "a space of Unicode, or one of U+0009 to U+000D",
    ),
];

/// The builders.
pub(crate) const BUILDERS: [(&str, &str, &str); 7] = [
    ("node", "node", "a node labelled by the symbol"),
    ("num", "num", "a node labelled `num`"),
    ("name", "name", "a node labelled `name`"),
    ("list", "list", "a node labelled `list`"),
    ("call", "call", "a node labelled `call`"),
    (
        "flat",
        "flat",
        "a node labelled `list`; a kid that is one itself gives way to its kids",
    ),
    (
        "join",
        "join",
        "a leaf with the texts of all leaves, joined",
    ),
];

/// The words of the forms with parentheses.
pub(crate) const FORMS: [&str; 23] = [
    "satisfy",
    "string",
    "seq",
    "choice",
    "many",
    "chainl1",
    "chainr1",
    "try",
    "notFollowedBy",
    "word",
    "expr",
    "declare",
    "text",
    "skip",
    "build",
    "label",
    "local",
    "many1",
    "option",
    "between",
    "sepBy",
    "sepBy1",
    "endBy",
];

/// The form without parentheses.
pub(crate) const END: (&str, &str, &str) = ("eof", "eof", "nothing, at the end of the text");

/// A row of a table.
pub(crate) fn line_of(row: &Row) -> Line {
    line_with(row.0, row.1, row.2)
}

fn line_with(word: &'static str, written: &'static str, line: &'static str) -> Line {
    Line {
        word,
        written,
        line,
    }
}

/// A line on a name that an item of the file defines.
pub fn name_line(kind: NameKind) -> &'static str {
    match kind {
        NameKind::Rule => "a rule of this file",
        NameKind::Class => "a class of this file",
        NameKind::Word => "a kind of words of this file",
    }
}

/// How a form is written; with a symbol, if it can have one and is said to have it.
pub fn form_line(form: FormWord, has_symbol: bool) -> Line {
    match form {
        FormWord::OfClass(form) => class_line(form),
        FormWord::String => line_with(
            "string",
            "string(characters)",
            "these characters, at least one",
        ),
        FormWord::Seq => line_with(
            "seq",
            "seq(value, ..)",
            "the values, one after another; `seq()` takes nothing",
        ),
        FormWord::OfSome(form) => some_line(form),
        FormWord::OfOne(form) => one_line(form),
        FormWord::OfTwo(form) => two_line(form),
        FormWord::Between => line_with(
            "between",
            "between(opening, closing, value)",
            "the value between two others, whose trees are dropped",
        ),
        FormWord::Chain(side) if has_symbol => symbol_chain_line(side),
        FormWord::Chain(side) => chain_line(side),
        FormWord::Expression => line_with(
            "expr",
            "expr(infix builder, prefix builder, postfix builder, term)",
            "operators and terms, by precedence and associativity",
        ),
        FormWord::Build if has_symbol => line_with(
            "build",
            "build(builder, symbol, value)",
            "the one tree that the builder makes of the value's, with this symbol",
        ),
        FormWord::Build => line_with(
            "build",
            "build(builder, value)",
            "the one tree that the builder makes of the value's",
        ),
        FormWord::Label => line_with(
            "label",
            "label(value, message)",
            "the value; where it fails and took nothing, the error expects the message",
        ),
        FormWord::Word => line_with("word", "word(name)", "a word of that kind"),
    }
}

fn class_line(form: ClassForm) -> Line {
    match form {
        ClassForm::Satisfy => line_with("satisfy", "satisfy(class)", "one character of the class"),
        ClassForm::NotFollowedBy => line_with(
            "notFollowedBy",
            "notFollowedBy(class)",
            "nothing, where no character of the class comes next",
        ),
        ClassForm::Declare => line_with(
            "declare",
            "declare(class)",
            "a declaration of an operator, whose keyword no character of the class follows",
        ),
    }
}

fn some_line(form: SomeForm) -> Line {
    match form {
        SomeForm::Choice => line_with(
            "choice",
            "choice(value, ..)",
            "the first value that parses, as Parsec chooses",
        ),
        SomeForm::Try => line_with(
            "try",
            "try(value, ..)",
            "the values, one after another; where that fails nothing was taken",
        ),
        SomeForm::Local => line_with(
            "local",
            "local(value, ..)",
            "the values, one after another; operators that they declare are gone behind them",
        ),
    }
}

fn one_line(form: OneForm) -> Line {
    match form {
        OneForm::Many => line_with("many", "many(value)", "the value as often as it parses"),
        OneForm::Many1 => line_with(
            "many1",
            "many1(value)",
            "the value as often as it parses, at least once",
        ),
        OneForm::Option => line_with("option", "option(value)", "the value or nothing"),
        OneForm::Text => line_with(
            "text",
            "text(value)",
            "one leaf with the text that the value took",
        ),
        OneForm::Skip => line_with("skip", "skip(value)", "the value, without its trees"),
    }
}

fn two_line(form: TwoForm) -> Line {
    match form {
        TwoForm::SepBy => line_with(
            "sepBy",
            "sepBy(value, separator)",
            "values with a separator between each two, or nothing",
        ),
        TwoForm::SepBy1 => line_with(
            "sepBy1",
            "sepBy1(value, separator)",
            "one value or more, with a separator between each two",
        ),
        TwoForm::EndBy => line_with(
            "endBy",
            "endBy(value, separator)",
            "values, each with a separator behind it",
        ),
    }
}

fn chain_line(side: Side) -> Line {
    match side {
        Side::Left => line_with(
            "chainl1",
            "chainl1(builder, operand, separator)",
            "operands with separators between them, folded from the left",
        ),
        Side::Right => line_with(
            "chainr1",
            "chainr1(builder, operand, separator)",
            "operands with separators between them, folded from the right",
        ),
    }
}

fn symbol_chain_line(side: Side) -> Line {
    match side {
        Side::Left => line_with(
            "chainl1",
            "chainl1(builder, symbol, operand, separator)",
            "operands with separators between them, folded from the left, each link with this symbol",
        ),
        Side::Right => line_with(
            "chainr1",
            "chainr1(builder, symbol, operand, separator)",
            "operands with separators between them, folded from the right, each link with this symbol",
        ),
    }
}
