//! The words of grammar files.

ghost use Rattle.std.specs.Prelude.{◌≡◌, [], ◌∷◌, ◌++◌, map, codes};
ghost use Rattle.pg_file_items.specs.Proper.{reserved_words};

use pg_file_items::{ClassForm, FormWord, OneForm, SomeForm, TwoForm, form_word};
use pg_grammar_form::Side;

/// The reserved words, and the two that are words only inside a `word` item.
const WORDS: [&str; 39] = [
    "class",
    "word",
    "operators",
    "gap",
    "reserved",
    "max",
    "table",
    "start",
    "not",
    "infixl",
    "infixr",
    "infix",
    "prefix",
    "postfix",
    "satisfy",
    "string",
    "seq",
    "choice",
    "many",
    "chainl1",
    "chainr1",
    "try",
    "notFollowedBy",
    "eof",
    "expr",
    "declare",
    "text",
    "skip",
    "build",
    "label",
    "local",
    "many1",
    "option",
    "between",
    "sepBy",
    "sepBy1",
    "endBy",
    "head",
    "rest",
];

/// All words of grammar files: the parser's reserved words, and `head` and `rest`.
pub(crate) fn words() -> &'static [&'static str]
    ensures { map (λ word. word.now) result.now ≡ reserved_words ++ codes "head" ∷ codes "rest" ∷ [] }
{
    &WORDS
}

/// How the form that a word begins is written, if it begins one.
pub(crate) fn form_of(word: &[char]) -> Option<&'static str> {
    match form_word(word) {
        Some(form) => Some(written_form(form)),
        None => None,
    }
}

fn written_form(form: FormWord) -> &'static str {
    match form {
        FormWord::OfClass(form) => class_form(form),
        FormWord::String => "string(\"x\")",
        FormWord::Seq => "seq(v, w)",
        FormWord::OfSome(form) => some_form(form),
        FormWord::OfOne(form) => one_form(form),
        FormWord::OfTwo(form) => two_form(form),
        FormWord::Between => "between(open, close, v)",
        FormWord::Chain(Side::Left) => "chainl1(BUILDER, v, s)",
        FormWord::Chain(Side::Right) => "chainr1(BUILDER, v, s)",
        FormWord::Expression => "expr(BUILDER, BUILDER, BUILDER, v)",
        FormWord::Build => "build(BUILDER, v)",
        FormWord::Label => "label(v, \"name\")",
        FormWord::Word => "word(NAME)",
    }
}

fn class_form(form: ClassForm) -> &'static str {
    match form {
        ClassForm::Satisfy => "satisfy(CLASS)",
        ClassForm::NotFollowedBy => "notFollowedBy(CLASS)",
        ClassForm::Declare => "declare(CLASS)",
    }
}

fn some_form(form: SomeForm) -> &'static str {
    match form {
        SomeForm::Choice => "choice(v, w)",
        SomeForm::Try => "try(v)",
        SomeForm::Local => "local(v)",
    }
}

fn one_form(form: OneForm) -> &'static str {
    match form {
        OneForm::Many => "many(v)",
        OneForm::Many1 => "many1(v)",
        OneForm::Option => "option(v)",
        OneForm::Text => "text(v)",
        OneForm::Skip => "skip(v)",
    }
}

fn two_form(form: TwoForm) -> &'static str {
    match form {
        TwoForm::SepBy => "sepBy(v, s)",
        TwoForm::SepBy1 => "sepBy1(v, s)",
        TwoForm::EndBy => "endBy(v, s)",
    }
}
