//! The meaning of the names of a file: class items above, and the contents of a registry.
//!
//! An unknown name is refused. Code that reports faults finds which name it is, and where.

ghost use Rattle.std.specs.Prelude.{◌≡◌, ◌↔◌, true, false, string_bytes, IfOk, OnOk, IsErrOf};
ghost use Rattle.std.specs.Str.{encode_utf8_all};
ghost use Rattle.pg_pred.specs.Offer.{offer_of};
ghost use Rattle.pg_grammar_form.specs.Names.{place_of_name};
ghost use Rattle.pg_file_meaning.specs.Names as names;
ghost use Rattle.pg_file_meaning.specs.Names.{is_predicate_name, is_class_name, is_builder_name, BuilderIsKnown, PartIsKnown, ClassIsKnown};
ghost use Rattle.pg_file_meaning.specs.Bodies.{part_meant, parts_meant};
ghost use Rattle.pg_file_meaning.specs.Meaning as meaning;

use crate::error::MakingError;
use pg_file_items::{WrittenClass, WrittenPart};
use pg_file_tokens::copied;
use pg_grammar_form::{
    BuilderUse, ChainBuilder, ClassExpression, ClassId, ClassPart, OperatorBuilders, PredicateUse,
};
use pg_pred::Registry;
use pg_text::{Characters, utf8};
use pg_tree::Label;
use std::alloc::{AllocError, Global};

/// The label with these characters.
pub fn label(alloc: Global, characters: &[char]) -> Result<Label, AllocError>
    ensures { IfOk result (λ label. label ≡ encode_utf8_all characters.now) }
{
    Ok(Label::new(utf8(alloc, characters)?))
}

/// Whether a predicate has this name.
pub fn is_predicate_name(
    alloc: Global,
    registry: &Registry,
    name: &[char],
) -> Result<bool, AllocError>
    ensures { IfOk result (λ b. b ≡ is_predicate_name (offer_of registry.now) name.now) }
{
    let name = utf8(alloc, name)?;
    Ok(registry.predicate(name.as_str()).is_some())
}

/// Whether a builder has this name.
pub fn is_builder_name(
    alloc: Global,
    registry: &Registry,
    name: &[char],
) -> Result<bool, AllocError>
    ensures { IfOk result (λ b. b ≡ is_builder_name (offer_of registry.now) name.now) }
{
    let name = utf8(alloc, name)?;
    Ok(registry.builder(name.as_str()).is_some())
}

/// The predicate with this name, and its class. Refused if there is none.
fn predicate_named(
    alloc: Global,
    registry: &Registry,
    name: &[char],
) -> Result<PredicateUse, MakingError>
    ensures used { IfOk result (λ used. used ≡ names.predicate_named (offer_of registry.now) name.now) }
    ensures known { OnOk result (is_predicate_name (offer_of registry.now) name.now ≡ true) }
    ensures refused { IsErrOf result MakingError.Refused → is_predicate_name (offer_of registry.now) name.now ≡ false }
{
    let name = label(alloc, name)?;
    match registry.predicate(name.as_str()) {
        Some(predicate) => {
            let class = predicate.class().share()?;
            Ok(PredicateUse { name, class })
        }
        None => Err(MakingError::Refused),
    }
}

/// The builder with this name, and its shape. Refused if there is none.
pub fn builder_named(
    alloc: Global,
    registry: &Registry,
    name: &[char],
) -> Result<BuilderUse, MakingError>
    ensures used { IfOk result (λ used. used ≡ names.builder_named (offer_of registry.now) name.now) }
    ensures known { OnOk result (is_builder_name (offer_of registry.now) name.now ≡ true) }
    ensures refused { IsErrOf result MakingError.Refused → is_builder_name (offer_of registry.now) name.now ≡ false }
{
    let name = label(alloc, name)?;
    match registry.builder(name.as_str()) {
        Some(builder) => {
            let shape = builder.shape().copy(alloc)?;
            Ok(BuilderUse { name, shape })
        }
        None => Err(MakingError::Refused),
    }
}

/// The builder with this name, handed a chain's symbol. Refused if there is none.
pub fn chain_builder_named(
    alloc: Global,
    registry: &Registry,
    name: &[char],
    symbol: &[char],
) -> Result<ChainBuilder, MakingError>
    ensures used { IfOk result (λ used. used ≡ names.chain_builder_named (offer_of registry.now) name.now symbol.now) }
    ensures known { OnOk result (is_builder_name (offer_of registry.now) name.now ≡ true) }
    ensures refused { IsErrOf result MakingError.Refused → is_builder_name (offer_of registry.now) name.now ≡ false }
{
    let used = builder_named(alloc, registry, name)?;
    let symbol = label(alloc, symbol)?;
    Ok(ChainBuilder::new(alloc, used, symbol)?)
}

/// The names of an expression's builders, one for each position of an operator (ours).
#[derive(Clone, Copy)]
pub struct BuilderNames<'n> {
    pub infix: &'n Characters,
    pub prefix: &'n Characters,
    pub postfix: &'n Characters,
}

/// The builders of an expression. Refused if one of the names is unknown.
pub fn builders_named(
    alloc: Global,
    registry: &Registry,
    builders: &BuilderNames<'_>,
) -> Result<OperatorBuilders, MakingError>
    ensures used { IfOk result (λ used. used ≡ meaning.builders_named (offer_of registry.now) builders.now.infix.now builders.now.prefix.now builders.now.postfix.now) }
    ensures known { OnOk result (BuilderIsKnown (offer_of registry.now) builders.now.infix.now × BuilderIsKnown (offer_of registry.now) builders.now.prefix.now × BuilderIsKnown (offer_of registry.now) builders.now.postfix.now) }
    ensures refused { IsErrOf result MakingError.Refused → (BuilderIsKnown (offer_of registry.now) builders.now.infix.now × BuilderIsKnown (offer_of registry.now) builders.now.prefix.now × BuilderIsKnown (offer_of registry.now) builders.now.postfix.now) → ⊥ }
{
    let infix = builder_named(alloc, registry, builders.infix.as_slice())?;
    let prefix = builder_named(alloc, registry, builders.prefix.as_slice())?;
    let postfix = builder_named(alloc, registry, builders.postfix.as_slice())?;
    Ok(OperatorBuilders {
        infix,
        prefix,
        postfix,
    })
}

/// The index of the first class item with this name, if there is one.
fn place_of_class(classes: &[Characters], name: &[char]) -> Option<usize>
    ensures { result ≡ place_of_name classes.now name.now }
{
    classes.iter().position(|other| other.as_slice() == name)
}

/// The meaning of a name in a class expression. Refused if it is unknown.
fn class_named(
    alloc: Global,
    registry: &Registry,
    classes: &[Characters],
    name: &[char],
) -> Result<ClassPart, MakingError>
    ensures meant { IfOk result (λ part. part ≡ names.class_named (offer_of registry.now) classes.now name.now) }
    ensures known { OnOk result (is_class_name (offer_of registry.now) classes.now name.now ≡ true) }
    ensures refused { IsErrOf result MakingError.Refused → is_class_name (offer_of registry.now) classes.now name.now ≡ false }
{
    match place_of_class(classes, name) {
        Some(number) => Ok(ClassPart::Class(ClassId::new(number))),
        None => Ok(ClassPart::Predicate(predicate_named(alloc, registry, name)?)),
    }
}

/// The meaning of a part of a class expression. Refused if its name is unknown.
fn part_meant(
    alloc: Global,
    registry: &Registry,
    classes: &[Characters],
    part: &WrittenPart,
) -> Result<ClassPart, MakingError>
    ensures meant { IfOk result (λ meant. meant ≡ part_meant (offer_of registry.now) classes.now part.now) }
    ensures known { OnOk result (PartIsKnown (offer_of registry.now) classes.now part.now) }
    ensures refused { IsErrOf result MakingError.Refused → PartIsKnown (offer_of registry.now) classes.now part.now → ⊥ }
{
    match part {
        WrittenPart::Literal(text) => Ok(ClassPart::Literal(copied(alloc, text.as_slice())?)),
        WrittenPart::Range(low, high) => Ok(ClassPart::Range(*low, *high)),
        WrittenPart::Union(count) => Ok(ClassPart::Union(*count)),
        WrittenPart::Complement => Ok(ClassPart::Complement),
        WrittenPart::Named(name) => class_named(alloc, registry, classes, name.as_slice()),
    }
}

/// The meaning of the parts of a class expression. Refused if a name is unknown.
fn parts_meant(
    alloc: Global,
    registry: &Registry,
    classes: &[Characters],
    parts: &[WrittenPart],
) -> Result<Vec<ClassPart>, MakingError>
    ensures meant { IfOk result (λ meant. meant.items ≡ parts_meant (offer_of registry.now) classes.now parts.now) }
    ensures known { OnOk result (ClassIsKnown (offer_of registry.now) classes.now parts.now) }
    ensures refused { IsErrOf result MakingError.Refused → ClassIsKnown (offer_of registry.now) classes.now parts.now → ⊥ }
{
    let mut meant = Vec::new(alloc);
    for part in parts {
        meant.push(part_meant(alloc, registry, classes, part)?)?;
    }
    Ok(meant)
}

/// The meaning of a class expression, given the names of the class items above. Refused if a name is unknown.
pub fn class_meant(
    alloc: Global,
    registry: &Registry,
    classes: &[Characters],
    class: &WrittenClass,
) -> Result<ClassExpression, MakingError>
    ensures meant { IfOk result (λ meant. meant ≡ parts_meant (offer_of registry.now) classes.now class.now) }
    ensures known { OnOk result (ClassIsKnown (offer_of registry.now) classes.now class.now) }
    ensures refused { IsErrOf result MakingError.Refused → ClassIsKnown (offer_of registry.now) classes.now class.now → ⊥ }
{
    let parts = parts_meant(alloc, registry, classes, class.parts())?;
    Ok(ClassExpression::new(alloc, parts)?)
}
