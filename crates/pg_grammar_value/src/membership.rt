//! Whether a character is in the set of a class expression.
//!
//! The expression is read from left to right, without taking memory. For a predicate, a registry's function is called;
//! without a registry, the class is asked that the grammar keeps for the predicate. Both give the same answer, as the
//! registry fits. A class item that is named is read at most once for a character, and its answer noted: so items that
//! name one another many times cost no more than they are long. A `not` before a `not` is a loop.

ghost use Rattle.std.specs.Prelude.{◌≡◌, ◌≤◌, ◌-◌, ℕ, Bool, List, ◌∷◌, Some, false, length, take, drop};
ghost use Rattle.std.specs.Bool.{OnTrue};
ghost use Rattle.std.specs.Option.{ForSome};
ghost use Rattle.std.specs.List.{list_any};
ghost use Rattle.pg_class.specs.Ranges.{has};
ghost use Rattle.pg_pred.specs.Offer.{Offer, offer_of, predicate_class};
ghost use Rattle.pg_grammar_form.specs.Classes.{memberships, one_holds, lacks_item};
ghost use Rattle.pg_grammar_form.specs.ClassItems.{item_answers, has_character, AreClasses};
ghost use Rattle.pg_grammar_value.specs.Fits.{PartFits, ClassFits, ItemsFit, Fits, IsClassIn};
ghost use Rattle.pg_grammar_value.specs.Membership.{negated_if, starts_with_complement, IsAtom, Knows};

use crate::grammar::Grammar;
use pg_grammar_form::{CLASS_LIMIT, ClassExpression, ClassItem, ClassPart, PredicateUse};
use pg_pred::Registry;

/// The answers of the class items for one character, as far as known, by their numbers.
type Answers = [Option<bool>; CLASS_LIMIT];

impl Grammar {
    /// Whether the character is in the set of a class expression of this grammar. The caller owes that the registry fits; its predicates are called. It takes
    /// no memory.
    pub fn test(&self, registry: &Registry, class: &ClassExpression, c: char) -> bool
        requires fits { Fits (offer_of registry.now) self.now }
        requires class { IsClassIn self.now class.now }
        ensures { result ≡ has_character self.now.classes class.now c }
    {
        self.membership(Some(registry), class, c)
    }

    /// As `test`, but by the classes that the grammar keeps for the predicates it names. It takes no memory.
    pub fn has(&self, class: &ClassExpression, c: char) -> bool
        requires { IsClassIn self.now class.now }
        ensures { result ≡ has_character self.now.classes class.now c }
    {
        self.membership(None, class, c)
    }

    /// The commonest expression is one part with its own characters. It names no class item, so nothing has to be noted.
    fn membership(&self, registry: Option<&Registry>, class: &ClassExpression, c: char) -> bool
        requires fits { ForSome registry (λ r. Fits (offer_of r.now) self.now) }
        requires class { IsClassIn self.now class.now }
        ensures { result ≡ has_character self.now.classes class.now c }
    {
        let items = self.class_items();
        match class.parts() {
            [part] if is_atom(part) => atom_has(registry, part, c),
            parts => whole_membership(items, registry, parts, c),
        }
    }
}

/// Whether an expression of any length has the character.
fn whole_membership(
    items: &[ClassItem],
    registry: Option<&Registry>,
    parts: &[ClassPart],
    c: char,
) -> bool
    requires classes { AreClasses items.now }
    requires fit { ForSome registry (λ r. ItemsFit (offer_of r.now) items.now) }
    requires named { list_any (lacks_item (length items.now)) parts.now ≡ false }
    requires parts { ForSome registry (λ r. ClassFits (offer_of r.now) parts.now) }
    ensures { result ≡ has_character items.now parts.now c }
{
    let mut answers = [None; CLASS_LIMIT];
    first_membership(items, registry, items.len(), parts, c, &mut answers).0
}

/// Whether the first whole expression of these has the character, and the parts after that expression. They name only
/// the first `below` class items.
fn first_membership<'a>(
    items: &[ClassItem],
    registry: Option<&Registry>,
    below: usize,
    parts: &'a [ClassPart],
    c: char,
    answers: &mut Answers,
) -> (bool, &'a [ClassPart])
    requires classes { AreClasses items.now }
    requires below { below ≤ length items.now }
    requires fit { ForSome registry (λ r. ItemsFit (offer_of r.now) items.now) }
    requires named { list_any (lacks_item below) parts.now ≡ false }
    requires parts { ForSome registry (λ r. ClassFits (offer_of r.now) parts.now) }
    requires answers { Knows items.now c answers.old }
    ensures first { result.0 ≡ one_holds (take 1 (memberships (item_answers items.now c) parts.now c)) }
    ensures rest { memberships (item_answers items.now c) result.1.now c ≡ drop 1 (memberships (item_answers items.now c) parts.now c) }
    ensures fewer { length result.1.now ≤ length parts.now - 1 }
    ensures named { list_any (lacks_item below) result.1.now ≡ false }
    ensures parts { ForSome registry.entry (λ r. ClassFits (offer_of r.now) result.1.now) }
    ensures answers { Knows items.now c answers.new }
{
    let (negated, rest) = after_complements(parts);
    let Some((first, after)) = rest.split_first() else {
        return (false, rest);
    };
    match first {
        ClassPart::Class(item) => {
            let number = item.index();
            prove!(number < below);
            let has = match answers[number] {
                Some(has) => has,
                None => {
                    let parts = items[number].class.parts();
                    first_membership(items, registry, number, parts, c, answers).0
                }
            };
            answers[number] = Some(has);
            (has != negated, after)
        }
        ClassPart::Union(count) => {
            let mut any = false;
            let mut rest = after;
            for _ in 0..*count {
                let (has, next) = first_membership(items, registry, below, rest, c, answers);
                any = any || has;
                rest = next;
            }
            (any != negated, rest)
        }
        ClassPart::Literal(_)
        | ClassPart::Range(_, _)
        | ClassPart::Predicate(_)
        | ClassPart::Complement => (atom_has(registry, first, c) != negated, after),
    }
}

/// Whether the complements at the front negate the expression after them, and the parts after the complements.
fn after_complements(parts: &[ClassPart]) -> (bool, &[ClassPart])
    ensures meaning { (items : List Bool) (c : ℕ) → memberships items parts.now c ≡ negated_if result.0 (memberships items result.1.now c) }
    ensures none { starts_with_complement result.1.now ≡ false }
    ensures fewer { length result.1.now ≤ length parts.now }
    ensures named { (below : ℕ) → list_any (lacks_item below) result.1.now ≡ list_any (lacks_item below) parts.now }
    ensures fit { (offer : Offer) → ClassFits offer parts.now → ClassFits offer result.1.now }
{
    let mut negated = false;
    let mut rest = parts;
    while let Some((ClassPart::Complement, after)) = rest.split_first() {
        negated = !negated;
        rest = after;
    }
    (negated, rest)
}

/// Whether the part has its characters by itself, without other parts or class items.
fn is_atom(part: &ClassPart) -> bool
    ensures { OnTrue result (IsAtom part.now) }
{
    match part {
        ClassPart::Literal(_) | ClassPart::Range(_, _) | ClassPart::Predicate(_) => true,
        ClassPart::Union(_) | ClassPart::Complement | ClassPart::Class(_) => false,
    }
}

/// Whether a literal, a range or a predicate has the character.
fn atom_has(registry: Option<&Registry>, part: &ClassPart, c: char) -> bool
    requires atom { IsAtom part.now }
    requires fits { ForSome registry (λ r. PartFits (offer_of r.now) part.now) }
    ensures { (items : List Bool) (parts : List ClassPart) → memberships items (part.now ∷ parts) c ≡ result ∷ memberships items parts c }
{
    match part {
        ClassPart::Literal(characters) => characters.as_slice().contains(&c),
        ClassPart::Range(low, high) => *low <= c && c <= *high,
        ClassPart::Predicate(used) => holds(registry, used, c),
        ClassPart::Union(_) | ClassPart::Complement | ClassPart::Class(_) => unreachable!(),
    }
}

/// Whether the predicate holds for the character. If there is a registry, its function answers.
fn holds(registry: Option<&Registry>, used: &PredicateUse, c: char) -> bool
    requires { ForSome registry (λ r. predicate_class (offer_of r.now) used.now.name ≡ Some used.now.class) }
    ensures { result ≡ has used.now.class c }
{
    match registry {
        Some(registry) => function_holds(registry, used, c),
        None => used.class.has(c),
    }
}

/// Whether the registry's function for the predicate holds for the character.
fn function_holds(registry: &Registry, used: &PredicateUse, c: char) -> bool
    requires { predicate_class (offer_of registry.now) used.now.name ≡ Some used.now.class }
    ensures { result ≡ has used.now.class c }
{
    match registry.predicate(used.name.as_str()) {
        Some(predicate) => predicate.holds(c),
        None => unreachable!(),
    }
}
