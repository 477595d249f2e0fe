//! The keywords with which declarations begin.

ghost use Rattle.std.specs.Prelude.{◌≡◌, ◌<◌, ◌≤◌, ◌+◌, true, length, IfSome};
ghost use Rattle.pg_grammar_value.specs.Sites.{class_at};
ghost use Rattle.pg_language.specs.Runs.{keyword, stands_at};
ghost use Rattle.pg_language.specs.Declarations.{goes_on_with, has_keyword, role_at};

use crate::run::after;
use pg_grammar_classes::ClassSite;
use pg_grammar_form::Role;
use pg_grammar_value::Grammar;
use pg_text::Text;

/// The role whose keyword is at the place, if no character of the class and none of a to z follows it.
#[tactic(auto, using(crate::proofs::Keywords::role_within))]
pub(crate) fn role_at(
    grammar: &Grammar,
    text: &Text,
    class: ClassSite,
    place: usize,
) -> Option<Role>
    ensures value { result ≡ role_at grammar.now text.now (class_at grammar.now class) place }
    ensures within { IfSome result (λ role. place + length (keyword role) ≤ length text.now) }
    ensures limit { length text.now ≤ 1048576 }
{
    let _limit = text.len();
    let roles = [
        Role::InfixLeft,
        Role::InfixRight,
        Role::InfixNone,
        Role::Prefix,
        Role::Postfix,
    ];
    roles
        .iter()
        .copied()
        .find(|role| has_keyword(grammar, text, class, place, *role))
}

/// Whether the keyword of the role is at the place, and no character after it continues it.
fn has_keyword(grammar: &Grammar, text: &Text, class: ClassSite, place: usize, role: Role) -> bool
    ensures { result ≡ has_keyword grammar.now text.now (class_at grammar.now class) place role }
{
    let word = keyword(role);
    stands_at(text, place, word) && !goes_on_with(grammar, class, text.char_at(place + word.len()))
}

/// Whether these characters are at the place.
#[tactic(auto, using(crate::proofs::Keywords::stands_within))]
fn stands_at(text: &Text, place: usize, word: &[char]) -> bool
    ensures value { result ≡ stands_at text.now place word.now }
    ensures within { result ≡ true → 0 < length word.now → place + length word.now ≤ length text.now }
    ensures limit { length text.now ≤ 1048576 }
{
    after(text.characters(), place).starts_with(word)
}

/// Whether the next character would continue a keyword.
fn goes_on_with(grammar: &Grammar, class: ClassSite, next: Option<char>) -> bool
    ensures { result ≡ goes_on_with grammar.now (class_at grammar.now class) next }
{
    match next {
        Some(c) => grammar.contains(class, c) || ('a'..='z').contains(&c),
        None => false,
    }
}

/// The characters of the role's keyword.
pub(crate) fn keyword(role: Role) -> &'static [char]
    ensures same { result.now ≡ keyword role }
    ensures spelled { 0 < length result.now }
{
    match role {
        Role::InfixLeft => &['i', 'n', 'f', 'i', 'x', 'l'],
        Role::InfixRight => &['i', 'n', 'f', 'i', 'x', 'r'],
        Role::InfixNone => &['i', 'n', 'f', 'i', 'x'],
        Role::Prefix => &['p', 'r', 'e', 'f', 'i', 'x'],
        Role::Postfix => &['p', 'o', 's', 't', 'f', 'i', 'x'],
    }
}
