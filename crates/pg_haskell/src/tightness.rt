//! How tightly the parts of an expression hold together, and so where parentheses have to stand.

use crate::class::is_any;
use pg_file_items::{ClassForm, OneForm, WrittenForm};

/// What is wanted of a value.
#[derive(Clone, Copy, PartialEq, Eq)]
pub(crate) enum Wanted {
    /// Its trees.
    Trees,
    /// Nothing, so it may have any type.
    Nothing,
}

/// How tightly an expression holds together, from the tightest.
#[derive(Clone, Copy, PartialEq, Eq, PartialOrd, Ord)]
pub(crate) enum Tightness {
    /// A name.
    Atom,
    /// A function with its arguments.
    Application,
    /// `<$>`, `<$` and `*>`.
    Mapped,
    /// `<?>`.
    Labelled,
}

/// How tight what is put of a form is.
pub(crate) fn tightness_of(form: &WrittenForm, wanted: Wanted) -> Tightness {
    match form {
        WrittenForm::Rule(_) => Tightness::Atom,
        WrittenForm::OfClass(ClassForm::Satisfy, class) if is_any(class) => {
            if_trees(wanted, Tightness::Application, Tightness::Atom)
        }
        WrittenForm::Label(_) => Tightness::Labelled,
        WrittenForm::EndOfText => if_trees(wanted, Tightness::Mapped, Tightness::Atom),
        WrittenForm::Word(_) => if_trees(wanted, Tightness::Application, Tightness::Atom),
        WrittenForm::Seq(0)
        | WrittenForm::String(_)
        | WrittenForm::OfSome(_, _)
        | WrittenForm::Between
        | WrittenForm::Chain { .. }
        | WrittenForm::Expression { .. }
        | WrittenForm::OfOne(OneForm::Option | OneForm::Text | OneForm::Skip)
        | WrittenForm::OfClass(ClassForm::Satisfy | ClassForm::Declare, _) =>
            Tightness::Application,
        WrittenForm::Seq(_) | WrittenForm::Build { .. } => Tightness::Mapped,
        WrittenForm::OfOne(OneForm::Many | OneForm::Many1)
        | WrittenForm::OfTwo(_)
        | WrittenForm::OfClass(ClassForm::NotFollowedBy, _) => {
            if_trees(wanted, Tightness::Mapped, Tightness::Application)
        }
    }
}

fn if_trees(wanted: Wanted, trees: Tightness, nothing: Tightness) -> Tightness {
    match wanted {
        Wanted::Trees => trees,
        Wanted::Nothing => nothing,
    }
}
