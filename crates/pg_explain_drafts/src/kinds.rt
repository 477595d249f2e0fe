//! The kinds of forms in a grammar file.

use pg_file_items::{ClassForm, OneForm, SomeForm, TwoForm, WrittenForm};

/// The word of a form, or what it is instead.
#[derive(Clone, Copy, PartialEq, Eq)]
pub enum Kind {
    Satisfy,
    NotFollowedBy,
    Declare,
    String,
    Word,
    EndOfText,
    Rule,
    Seq,
    Choice,
    Try,
    Local,
    Many,
    Many1,
    Option,
    Text,
    Skip,
    SepBy,
    SepBy1,
    EndBy,
    Between,
    Chain,
    Expression,
    Build,
    Label,
}

/// The kind of a form.
pub(crate) fn kind_of(form: &WrittenForm) -> Kind {
    match form {
        WrittenForm::OfClass(ClassForm::Satisfy, _) => Kind::Satisfy,
        WrittenForm::OfClass(ClassForm::NotFollowedBy, _) => Kind::NotFollowedBy,
        WrittenForm::OfClass(ClassForm::Declare, _) => Kind::Declare,
        WrittenForm::String(_) => Kind::String,
        WrittenForm::Word(_) => Kind::Word,
        WrittenForm::EndOfText => Kind::EndOfText,
        WrittenForm::Rule(_) => Kind::Rule,
        WrittenForm::Seq(_) => Kind::Seq,
        WrittenForm::OfSome(SomeForm::Choice, _) => Kind::Choice,
        WrittenForm::OfSome(SomeForm::Try, _) => Kind::Try,
        WrittenForm::OfSome(SomeForm::Local, _) => Kind::Local,
        WrittenForm::OfOne(OneForm::Many) => Kind::Many,
        WrittenForm::OfOne(OneForm::Many1) => Kind::Many1,
        WrittenForm::OfOne(OneForm::Option) => Kind::Option,
        WrittenForm::OfOne(OneForm::Text) => Kind::Text,
        WrittenForm::OfOne(OneForm::Skip) => Kind::Skip,
        WrittenForm::OfTwo(TwoForm::SepBy) => Kind::SepBy,
        WrittenForm::OfTwo(TwoForm::SepBy1) => Kind::SepBy1,
        WrittenForm::OfTwo(TwoForm::EndBy) => Kind::EndBy,
        WrittenForm::Between => Kind::Between,
        WrittenForm::Chain { .. } => Kind::Chain,
        WrittenForm::Expression { .. } => Kind::Expression,
        WrittenForm::Build { .. } => Kind::Build,
        WrittenForm::Label(_) => Kind::Label,
    }
}

/// The characters of a `string`, or the name of a rule, of a `word`'s item or of a `build`'s builder.
pub(crate) fn characters_of(form: &WrittenForm) -> Option<&[char]> {
    match form {
        WrittenForm::String(characters)
        | WrittenForm::Rule(characters)
        | WrittenForm::Word(characters)
        | WrittenForm::Build {
            builder: characters,
            ..
        } => Some(characters.as_slice()),
        WrittenForm::OfClass(_, _)
        | WrittenForm::Seq(_)
        | WrittenForm::OfSome(_, _)
        | WrittenForm::OfOne(_)
        | WrittenForm::OfTwo(_)
        | WrittenForm::Between
        | WrittenForm::Chain { .. }
        | WrittenForm::Expression { .. }
        | WrittenForm::Label(_)
        | WrittenForm::EndOfText => None,
    }
}

/// The symbol of a `build`, or none.
pub(crate) fn symbol_of(form: &WrittenForm) -> &[char] {
    match form {
        WrittenForm::Build { symbol, .. } => symbol.as_slice(),
        WrittenForm::String(_)
        | WrittenForm::Rule(_)
        | WrittenForm::Word(_)
        | WrittenForm::OfClass(_, _)
        | WrittenForm::Seq(_)
        | WrittenForm::OfSome(_, _)
        | WrittenForm::OfOne(_)
        | WrittenForm::OfTwo(_)
        | WrittenForm::Between
        | WrittenForm::Chain { .. }
        | WrittenForm::Expression { .. }
        | WrittenForm::Label(_)
        | WrittenForm::EndOfText => &[],
    }
}
