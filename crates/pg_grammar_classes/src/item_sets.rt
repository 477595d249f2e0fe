//! The sets of the class items of a grammar, and of expressions that may name them.
//!
//! The sets agree with the classes, which is an invariant of the type. The classes compute new sets; an expression that
//! is only the name of an item shares the item's set.

ghost use Rattle.std.specs.Prelude.{◌≡◌, ◌∷◌, [], ℕ, option_copied, slice_get, IfOk, IfSome};
ghost use Rattle.pg_class.specs.Ranges.{has};
ghost use Rattle.pg_grammar_form.specs.Classes.{is_member};
ghost use Rattle.pg_grammar_classes.specs.Classes.{answers_of};
ghost use Rattle.pg_grammar_classes.specs.Sets.{AreItemSets, IsSetBy};

use crate::character_set::CharacterSet;
use crate::classes::{class_of, classes_of_items};
use pg_class::Class;
use pg_grammar_form::{ClassExpression, ClassItem, ClassPart};
use std::alloc::{AllocError, Global};
use std::marker::Model;

/// The sets of class items, seen as the ranges of each, in file order.
#[derive(Drop)]
pub struct ItemSets {
    classes: Vec<Class>,
    sets: Vec<CharacterSet>,
}

impl Model for ItemSets {
    ghost use Rattle.std.specs.Prelude.{◌≡◌, List};
    ghost use Rattle.pg_class.specs.Ranges.{Range};

    ghost Value = { List (List Range) };

    ghost view = { λ items. items.classes.items };

    ghost invariant = { λ items. items.sets.items ≡ items.classes.items };
}

impl ItemSets {
    /// The sets of these class items.
    pub fn of(alloc: Global, items: &[ClassItem]) -> Result<ItemSets, AllocError>
        ensures { IfOk result (AreItemSets items.now) }
    {
        let classes = classes_of_items(alloc, items)?;
        let sets = sets_of_classes(alloc, classes.as_slice())?;
        Ok(ItemSets { classes, sets })
    }

    /// The set of an expression. An expression that is only the name of an item shares the item's set.
    pub fn set_of(
        &self,
        alloc: Global,
        expression: &ClassExpression,
    ) -> Result<CharacterSet, AllocError>
        ensures { IfOk result (IsSetBy self.now expression.now) }
    {
        match self.named(expression) {
            Some(set) => set.share(),
            None => {
                let class = class_of(alloc, self.classes.as_slice(), expression)?;
                CharacterSet::new(alloc, class)
            }
        }
    }

    /// The set of the item that the expression names, if it does nothing else.
    fn named(&self, expression: &ClassExpression) -> Option<&CharacterSet>
        ensures { IfSome result (λ set. (c : ℕ) → has set.now c ≡ is_member (answers_of self.now c) expression.now c) }
    {
        match expression.parts() {
            [part] => self.named_by(part),
            _ => None,
        }
    }

    /// The set of the item that a part names.
    #[tactic(auto, using(crate::proofs::Sets::named_has))]
    fn named_by(&self, part: &ClassPart) -> Option<&CharacterSet>
        ensures { IfSome result (λ set. (c : ℕ) → has set.now c ≡ is_member (answers_of self.now c) (part.now ∷ []) c) }
    {
        match part {
            ClassPart::Class(item) => self.item(item.index()),
            ClassPart::Literal(_)
            | ClassPart::Range(_, _)
            | ClassPart::Union(_)
            | ClassPart::Complement
            | ClassPart::Predicate(_) => None,
        }
    }

    /// The set of the item with this number, if there is one.
    fn item(&self, number: usize) -> Option<&CharacterSet>
        ensures { option_copied result ≡ slice_get self.now number }
    {
        set_in(self.sets.as_slice(), number)
    }
}

/// The set with this number, if there is one.
#[inline]
pub(crate) fn set_in(sets: &[CharacterSet], number: usize) -> Option<&CharacterSet>
    ensures { option_copied result ≡ slice_get sets.now number }
{
    sets.get(number)
}

/// The sets of these classes.
fn sets_of_classes(alloc: Global, classes: &[Class]) -> Result<Vec<CharacterSet>, AllocError>
    ensures { IfOk result (λ sets. sets.items ≡ classes.now) }
{
    let mut sets = Vec::with_capacity(alloc, classes.len())?;
    for class in classes {
        let set = CharacterSet::new(alloc, class.share()?)?;
        sets.push(set)?;
    }
    Ok(sets)
}
