//! That strings consist of characters.
//!
//! A `char` is a character by its type, but the prover learns nothing of the members of a list of them. So when a rule
//! is added, its strings are read once, one character at a time.

ghost use Rattle.std.specs.Prelude.{◌≡◌, false, true};
ghost use Rattle.std.specs.Char.{IsScalar};
ghost use Rattle.std.specs.List.{list_any};
ghost use Rattle.std.specs.Str.{all_scalars};
ghost use Rattle.pg_grammar_value.specs.Grammar.{is_misspelled};

use pg_grammar_form::BaseForm;

/// Reads the strings of forms.
pub(crate) fn go_through_strings(forms: &[BaseForm])
    ensures { list_any is_misspelled forms.now ≡ false }
{
    for form in forms {
        go_through_string(form);
    }
}

/// Reads a form's string, if it is one.
fn go_through_string(form: &BaseForm)
    ensures { is_misspelled form.now ≡ false }
{
    match form.string() {
        Some(text) => go_through(text.as_slice()),
        None => (),
    }
}

/// Reads characters.
fn go_through(characters: &[char])
    ensures { all_scalars characters.now ≡ true }
{
    for character in characters {
        go_by(*character);
    }
}

/// A `char` is a character.
fn go_by(character: char)
    ensures { IsScalar character }
{}
