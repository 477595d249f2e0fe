//! The starts that a node gives by itself, and not by its parts.
ghost use Rattle.std.specs.Prelude.{◌≡◌, ◌<◌, ◌∷◌, [], ℕ, length, map, IfOk};
ghost use Rattle.pg_grammar_form.specs.declared.used.OperatorBuilders.{OperatorBuilders};
ghost use Rattle.pg_sets_own.specs.Own.{AreOwn, AreWordStarts, keyword_key};
ghost use Rattle.pg_sets_own.specs.OwnStarts.{role_keyword};
ghost use Rattle.pg_sets_own.specs.Words.{AreClassesOf};

use crate::classes::class_in_grammar;
use crate::keys::{tried_keyword, tried_string};
use crate::listed::ListedStart;
use crate::word_starts::WordStarts;
use pg_class::Class;
use pg_grammar_classes::{class_between, class_in};
use pg_grammar_form::{Around, ClassExpression, Form, Leaf, Node, NodeId, Role, WordId};
use pg_grammar_value::Grammar;
use pg_start::{Start, StartKind};
use pg_text::Characters;
use std::alloc::{AllocError, Global};

/// The starts that a node gives by itself, from the classes of the class items and the starts of the words.
pub fn own_starts(
    alloc: Global,
    grammar: &Grammar,
    classes: &[Class],
    words: &WordStarts,
    node: &Node,
) -> Result<Vec<ListedStart>, AllocError>
    requires classes { AreClassesOf grammar.now classes.now }
    requires words { AreWordStarts grammar.now words.now }
    ensures { IfOk result (λ own. AreOwn grammar.now node.now own.items) }
{
    match node {
        Form::Leaf(leaf) => leaf_starts(alloc, grammar, classes, words, leaf),
        Form::Expression(_, _) => operator_starts(alloc, grammar, words),
        Form::Around(around, part) => around_starts(alloc, grammar, classes, around, *part),
        Form::Seq(_) | Form::Choice(_) | Form::Many(_) | Form::Chain(_, _, _, _) | Form::Rule(_) =>
            Ok(Vec::new(alloc)),
    }
}

/// The starts that a leaf gives.
fn leaf_starts(
    alloc: Global,
    grammar: &Grammar,
    classes: &[Class],
    words: &WordStarts,
    leaf: &Leaf<WordId>,
) -> Result<Vec<ListedStart>, AllocError>
    requires classes { AreClassesOf grammar.now classes.now }
    requires words { AreWordStarts grammar.now words.now }
    ensures { IfOk result (λ own. AreOwn grammar.now (Form.Leaf leaf.now) own.items) }
{
    match leaf {
        Leaf::Satisfy(expression) => class_starts(alloc, grammar, classes, expression),
        Leaf::String(text) => string_starts(alloc, grammar, text),
        Leaf::Word(word) => word_starts(alloc, grammar, words, *word),
        Leaf::Declare(excluded) => keyword_starts(alloc, grammar, classes, excluded),
        Leaf::NotFollowedBy(_) | Leaf::EndOfText => Ok(Vec::new(alloc)),
    }
}

/// The starts that a form around a part gives: a try may give a key.
fn around_starts(
    alloc: Global,
    grammar: &Grammar,
    classes: &[Class],
    around: &Around,
    part: NodeId,
) -> Result<Vec<ListedStart>, AllocError>
    requires { AreClassesOf grammar.now classes.now }
    ensures { IfOk result (λ own. AreOwn grammar.now (Form.Around around.now part) own.items) }
{
    match around {
        Around::Try => key_starts(alloc, grammar, classes, part),
        Around::Text | Around::Skip | Around::Build(_, _) | Around::Label(_) | Around::Local => Ok(
            Vec::new(alloc),
        ),
    }
}

/// The list of this one start.
pub(crate) fn one(alloc: Global, listed: ListedStart) -> Result<Vec<ListedStart>, AllocError>
    ensures { IfOk result (λ own. own.items ≡ listed ∷ []) }
{
    let mut own = Vec::new(alloc);
    own.push(listed)?;
    Ok(own)
}

/// The start of a class: any of its characters.
fn class_starts(
    alloc: Global,
    grammar: &Grammar,
    classes: &[Class],
    expression: &ClassExpression,
) -> Result<Vec<ListedStart>, AllocError>
    requires { AreClassesOf grammar.now classes.now }
    ensures { IfOk result (λ own. AreOwn grammar.now (Form.Leaf (Leaf.Satisfy expression.now)) own.items) }
{
    let class = class_in_grammar(alloc, grammar, classes, expression)?;
    let start = Start::class(&class)?;
    one(alloc, ListedStart { start, word: 0 })
}

/// The start of a string: its first character.
fn string_starts(
    alloc: Global,
    grammar: &Grammar,
    text: &Characters,
) -> Result<Vec<ListedStart>, AllocError>
    ensures { IfOk result (λ own. AreOwn grammar.now (Form.Leaf (Leaf.String text.now)) own.items) }
{
    let _items = grammar.class_items();
    match text.as_slice() {
        [] => Ok(Vec::new(alloc)),
        [first, ..] => {
            let class = character(alloc, *first)?;
            let start = Start::class(&class)?;
            one(alloc, ListedStart { start, word: 0 })
        }
    }
}

/// The class of one character.
fn character(alloc: Global, c: char) -> Result<Class, AllocError>
    ensures { IfOk result (λ class. class ≡ (c, c) ∷ []) }
{
    let class = class_between(alloc, c, c)?;
    let _ranges = class.ranges();
    Ok(class)
}

/// The start of the item's words. It is shared, so a copy takes no time that grows with the reserved texts.
fn word_starts(
    alloc: Global,
    grammar: &Grammar,
    words: &WordStarts,
    word: WordId,
) -> Result<Vec<ListedStart>, AllocError>
    requires { AreWordStarts grammar.now words.now }
    ensures { IfOk result (λ own. AreOwn grammar.now (Form.Leaf (Leaf.Word word)) own.items) }
{
    let _items = grammar.word_items();
    match words.items.get(word.index()) {
        Some(listed) => one(alloc, listed.copy(alloc)?),
        None => Ok(Vec::new(alloc)),
    }
}

/// The key of a try: the whole string, and the class that may not follow it if there is one.
fn key_starts(
    alloc: Global,
    grammar: &Grammar,
    classes: &[Class],
    part: NodeId,
) -> Result<Vec<ListedStart>, AllocError>
    requires { AreClassesOf grammar.now classes.now }
    ensures { IfOk result (λ own. AreOwn grammar.now (Form.Around Around.Try part) own.items) }
{
    let _nodes = grammar.nodes();
    if let Some(text) = tried_string(grammar, part) {
        let none = no_characters(alloc)?;
        return key_start(alloc, text.as_slice(), &none);
    }
    if let Some((text, excluded)) = tried_keyword(grammar, part) {
        let excluded = class_in_grammar(alloc, grammar, classes, excluded)?;
        return key_start(alloc, text.as_slice(), &excluded);
    }
    Ok(Vec::new(alloc))
}

/// The empty class.
fn no_characters(alloc: Global) -> Result<Class, AllocError>
    ensures { IfOk result (λ class. class ≡ []) }
{
    let class = class_in(alloc, &[])?;
    let _ranges = class.ranges();
    Ok(class)
}

/// The list of one key.
fn key_start(alloc: Global, text: &[char], excluded: &Class) -> Result<Vec<ListedStart>, AllocError>
    requires { 0 < length text.now }
    ensures { IfOk result (λ own. own.items ≡ record { start = StartKind.Key text.now excluded.now; word = 0 } ∷ []) }
{
    let start = Start::key(alloc, text, excluded)?;
    one(alloc, ListedStart { start, word: 0 })
}

/// The start of the operators, which is shared too.
fn operator_starts(
    alloc: Global,
    grammar: &Grammar,
    words: &WordStarts,
) -> Result<Vec<ListedStart>, AllocError>
    requires { AreWordStarts grammar.now words.now }
    ensures { IfOk result (λ own. (builders : OperatorBuilders) (term : ℕ) → AreOwn grammar.now (Form.Expression builders term) own.items) }
{
    let _item = grammar.operators_item();
    copies(alloc, words.operators.as_slice())
}

/// Copies of the starts, in order.
fn copies(alloc: Global, starts: &[ListedStart]) -> Result<Vec<ListedStart>, AllocError>
    ensures { IfOk result (λ own. own.items ≡ starts.now) }
{
    let mut own = Vec::new(alloc);
    for listed in starts {
        own.push(listed.copy(alloc)?)?;
    }
    Ok(own)
}

/// The keyword of each role, with no character of the class and none of a to z after it.
fn keyword_starts(
    alloc: Global,
    grammar: &Grammar,
    classes: &[Class],
    excluded: &ClassExpression,
) -> Result<Vec<ListedStart>, AllocError>
    requires { AreClassesOf grammar.now classes.now }
    ensures { IfOk result (λ own. AreOwn grammar.now (Form.Leaf (Leaf.Declare excluded.now)) own.items) }
{
    let class = class_in_grammar(alloc, grammar, classes, excluded)?;
    let letters = class_between(alloc, 'a', 'z')?;
    let excluded = class.union(alloc, &letters)?;
    let _ranges = excluded.ranges();
    let roles = [
        Role::InfixLeft,
        Role::InfixRight,
        Role::InfixNone,
        Role::Prefix,
        Role::Postfix,
    ];
    let own = keyword_keys(alloc, &roles, &excluded)?;
    Ok(own)
}

/// The keyword of each of these roles as a key.
fn keyword_keys(
    alloc: Global,
    roles: &[Role],
    excluded: &Class,
) -> Result<Vec<ListedStart>, AllocError>
    ensures { IfOk result (λ own. own.items ≡ map (keyword_key excluded.now) roles.now) }
{
    let mut own = Vec::new(alloc);
    for role in roles {
        own.push(keyword_key(alloc, *role, excluded)?)?;
    }
    Ok(own)
}

/// The keyword of a role as a key.
fn keyword_key(alloc: Global, role: Role, excluded: &Class) -> Result<ListedStart, AllocError>
    ensures { IfOk result (λ listed. listed ≡ keyword_key excluded.now role) }
{
    let start = Start::key(alloc, keyword(role), excluded)?;
    Ok(ListedStart { start, word: 0 })
}

/// The keyword of a role, as a declaration spells it.
fn keyword(role: Role) -> &'static [char]
    ensures same { result.now ≡ role_keyword role }
    ensures spelled { 0 < length result.now }
{
    match role {
        Role::InfixLeft => &['i', 'n', 'f', 'i', 'x', 'l'],
        Role::InfixRight => &['i', 'n', 'f', 'i', 'x', 'r'],
        Role::InfixNone => &['i', 'n', 'f', 'i', 'x'],
        Role::Prefix => &['p', 'r', 'e', 'f', 'i', 'x'],
        Role::Postfix => &['p', 'o', 's', 't', 'f', 'i', 'x'],
    }
}
