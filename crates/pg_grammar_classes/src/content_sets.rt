//! The sets of a grammar's other class expressions: those of its word items, its operators item and its nodes.
//!
//! Each is computed once, when the grammar is made. Whoever asks about a character asks its set.

ghost use Rattle.std.specs.Prelude.{◌≡◌, ◌∷◌, [], ℕ, true, false, map, option_copied, slice_get, IfOk, IfSome};
ghost use Rattle.std.specs.Char.{IsScalar};
ghost use Rattle.pg_class.specs.Ranges.{has};
ghost use Rattle.pg_grammar_form.specs.Contents.{class_parts};
ghost use Rattle.pg_grammar_classes.specs.Sets.{IsSetBy, AreSetsBy};
ghost use Rattle.pg_grammar_classes.specs.Contents.{AreContentSets, operator_expressions, set_at, word_head, word_rest};

use crate::alike::are_alike;
use crate::character_set::CharacterSet;
use crate::classes::class_in;
use crate::item_sets::{ItemSets, set_in};
use crate::site::ClassSite;
use pg_grammar_form::{BaseForm, ClassExpression, ClassItem, OperatorsItem, WordItem};
use std::alloc::{AllocError, Global};
use std::marker::Model;

/// How many earlier forms are searched for one with an equal expression.
const LOOKED_BACK: usize = 16;

/// The sets of the class expressions of word items, an operators item and forms. A form without one has the empty set.
#[derive(Drop)]
pub struct ContentSets {
    heads: Vec<CharacterSet>,
    rests: Vec<CharacterSet>,
    operators: Vec<CharacterSet>,
    forms: Vec<CharacterSet>,
}

impl Model for ContentSets {
    ghost use Rattle.pg_grammar_classes.specs.Contents.{Sets};

    ghost Value = { Sets };

    ghost view = { λ s. record { heads = s.heads.items; rests = s.rests.items; operators = s.operators.items; forms = s.forms.items } };
}

impl ContentSets {
    /// The sets of these, with expressions over these class items.
    #[tactic(auto, using(crate::proofs::Contents::contents_are))]
    pub fn of(
        alloc: Global,
        classes: &[ClassItem],
        words: &[WordItem],
        operators: Option<&OperatorsItem>,
        forms: &[BaseForm],
    ) -> Result<ContentSets, AllocError>
        ensures { IfOk result (AreContentSets classes.now words.now (option_copied operators.entry) (map class_parts forms.now)) }
    {
        let items = ItemSets::of(alloc, classes)?;
        let heads = head_sets(alloc, &items, words)?;
        let rests = rest_sets(alloc, &items, words)?;
        let symbols = operator_sets(alloc, &items, operators)?;
        let nodes = form_sets(alloc, &items, forms)?;
        Ok(ContentSets {
            heads,
            rests,
            operators: symbols,
            forms: nodes,
        })
    }

    /// The set of the expression at this site, if there is one. It takes no memory.
    #[inline]
    pub fn at(&self, site: ClassSite) -> Option<&CharacterSet>
        ensures { option_copied result ≡ set_at self.now site }
    {
        match site {
            ClassSite::Head(word) => set_in(self.heads.as_slice(), word.index()),
            ClassSite::Rest(word) => set_in(self.rests.as_slice(), word.index()),
            ClassSite::Operators => set_in(self.operators.as_slice(), 0),
            ClassSite::Gap => set_in(self.operators.as_slice(), 1),
            ClassSite::Node(node) => set_in(self.forms.as_slice(), node.index()),
        }
    }
}

/// The sets of the heads of words.
fn head_sets(
    alloc: Global,
    items: &ItemSets,
    words: &[WordItem],
) -> Result<Vec<CharacterSet>, AllocError>
    ensures { IfOk result (λ sets. AreSetsBy items.now (map word_head words.now) sets.items) }
{
    let mut sets = Vec::with_capacity(alloc, words.len())?;
    for word in words {
        let set = items.set_of(alloc, &word.head)?;
        sets.push(set)?;
    }
    Ok(sets)
}

/// The sets of the rests of words.
fn rest_sets(
    alloc: Global,
    items: &ItemSets,
    words: &[WordItem],
) -> Result<Vec<CharacterSet>, AllocError>
    ensures { IfOk result (λ sets. AreSetsBy items.now (map word_rest words.now) sets.items) }
{
    let mut sets = Vec::with_capacity(alloc, words.len())?;
    for word in words {
        let set = items.set_of(alloc, &word.rest)?;
        sets.push(set)?;
    }
    Ok(sets)
}

/// The sets of operators and of gaps, if there is an operators item.
fn operator_sets(
    alloc: Global,
    items: &ItemSets,
    operators: Option<&OperatorsItem>,
) -> Result<Vec<CharacterSet>, AllocError>
    ensures { IfOk result (λ sets. AreSetsBy items.now (operator_expressions (option_copied operators.entry)) sets.items) }
{
    match operators {
        Some(item) => both_sets(alloc, items, item),
        None => Ok(Vec::new(alloc)),
    }
}

/// The sets of operators and of gaps.
#[tactic(auto, using(crate::proofs::Sets::both_are))]
fn both_sets(
    alloc: Global,
    items: &ItemSets,
    item: &OperatorsItem,
) -> Result<Vec<CharacterSet>, AllocError>
    ensures { IfOk result (λ sets. AreSetsBy items.now (item.now.class ∷ item.now.gap ∷ []) sets.items) }
{
    let class = items.set_of(alloc, &item.class)?;
    let gap = items.set_of(alloc, &item.gap)?;
    let mut sets = Vec::with_capacity(alloc, 2)?;
    sets.push(class)?;
    sets.push(gap)?;
    Ok(sets)
}

/// The sets of forms. A form without a class expression has the empty set.
fn form_sets(
    alloc: Global,
    items: &ItemSets,
    forms: &[BaseForm],
) -> Result<Vec<CharacterSet>, AllocError>
    ensures { IfOk result (λ sets. AreSetsBy items.now (map class_parts forms.now) sets.items) }
{
    let class = class_in(alloc, &[])?;
    let none = CharacterSet::new(alloc, class)?;
    let mut sets = Vec::with_capacity(alloc, forms.len())?;
    for i in 0..forms.len() {
        let set = form_set(alloc, items, &none, &forms[..i], sets.as_slice(), &forms[i])?;
        sets.push(set)?;
    }
    Ok(sets)
}

/// The set of a form, given the empty set and the sets of the forms before.
#[tactic(auto, using(crate::proofs::Sets::none_has))]
fn form_set(
    alloc: Global,
    items: &ItemSets,
    none: &CharacterSet,
    before: &[BaseForm],
    sets: &[CharacterSet],
    form: &BaseForm,
) -> Result<CharacterSet, AllocError>
    requires none { (c : ℕ) → IsScalar c → has none.now c ≡ false }
    requires sets { AreSetsBy items.now (map class_parts before.now) sets.now }
    ensures { IfOk result (IsSetBy items.now (class_parts form.now)) }
{
    match form.class() {
        Some(class) => class_set(alloc, items, before, sets, class),
        None => none.share(),
    }
}

/// The set of a class expression, shared with an earlier form that has an equal one.
fn class_set(
    alloc: Global,
    items: &ItemSets,
    before: &[BaseForm],
    sets: &[CharacterSet],
    class: &ClassExpression,
) -> Result<CharacterSet, AllocError>
    requires { AreSetsBy items.now (map class_parts before.now) sets.now }
    ensures { IfOk result (IsSetBy items.now class.now) }
{
    match set_before(items, before, sets, class) {
        Some(set) => set.share(),
        None => items.set_of(alloc, class),
    }
}

/// The set of one of the last forms with an expression that is written alike, if there is one.
fn set_before<'a>(
    items: &ItemSets,
    before: &[BaseForm],
    sets: &'a [CharacterSet],
    class: &ClassExpression,
) -> Option<&'a CharacterSet>
    requires { AreSetsBy items.now (map class_parts before.now) sets.now }
    ensures { IfSome result (λ set. IsSetBy items.now class.now set.now) }
{
    for i in before.len().saturating_sub(LOOKED_BACK)..before.len() {
        if let Some(set) = set_if_alike(items, before, sets, i, class) {
            return Some(set);
        }
    }
    None
}

/// The set of the form with this number, if its expression is written alike.
#[tactic(auto, using(crate::proofs::Contents::alike_has))]
fn set_if_alike<'a>(
    items: &ItemSets,
    before: &[BaseForm],
    sets: &'a [CharacterSet],
    number: usize,
    class: &ClassExpression,
) -> Option<&'a CharacterSet>
    requires { AreSetsBy items.now (map class_parts before.now) sets.now }
    ensures { IfSome result (λ set. IsSetBy items.now class.now set.now) }
{
    match form_in(before, number) {
        Some(form) => {
            if !has_class(form, class) {
                return None;
            }
            set_in(sets, number)
        }
        None => None,
    }
}

/// The form with this number, if there is one.
fn form_in(forms: &[BaseForm], number: usize) -> Option<&BaseForm>
    ensures { option_copied result ≡ slice_get forms.now number }
{
    forms.get(number)
}

/// Whether the form has an expression that is written alike.
fn has_class(form: &BaseForm, class: &ClassExpression) -> bool
    ensures { result ≡ true → class_parts form.now ≡ class.now }
{
    match form.class() {
        Some(other) => are_alike(other.parts(), class.parts()),
        None => false,
    }
}
