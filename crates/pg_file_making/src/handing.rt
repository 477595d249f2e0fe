//! Giving items to a maker, one function for each kind.
//!
//! A maker knows class items by number, so the names of those it has received are kept beside it. A refusal means that no grammar can be made of the parts
//! received and this item. Which name is at fault is known before (`names`).

ghost use Rattle.std.specs.Prelude.{◌≡◌, ◌+◌, ◌++◌, ◌↔◌, ◌<◌, ◌≤◌, length, None, IfOk, OnOk, IsErrOf, IfSome, IsSome};
ghost use Rattle.pg_pred.specs.Offer.{offer_of};
ghost use Rattle.pg_grammar.specs.Made.{with_initial, with_start};
ghost use Rattle.pg_file_meaning.specs.Bodies.{bases_of};
ghost use Rattle.pg_file_meaning.specs.Spans.{spans_of, value_spans};
ghost use Rattle.pg_file_items.specs.Entries as entries;
ghost use Rattle.pg_file_items.specs.Entries.{forms_of};
ghost use Rattle.pg_file_making.specs.Spells.{made_classes};
ghost use Rattle.pg_file_making.specs.Making.{with_entry, MayFollow, LeadsNowhere, IsProperEntry};

use pg_file_items::{PlacedForm, Span, WrittenClass};
use pg_file_meaning::{MakingError, PlacedBase, body_meant, class_meant, is_predicate_name};
use pg_file_tokens::copied;
use pg_grammar::{Maker, MakerFault};
use pg_grammar_form::{BaseForm, Decl, OPERATOR_LIMIT, Role};
use pg_pred::Registry;
use pg_text::{Characters, Texts};
use std::alloc::{AllocError, Global};

/// The greatest precedence.
const PRECEDENCE_LIMIT: usize = 9;

/// The error for a maker's refusal.
pub fn unmade(fault: MakerFault) -> MakingError
    ensures { (result ≡ MakingError.Memory) ↔ (fault ≡ MakerFault.Memory) }
{
    match fault {
        MakerFault::Memory => MakingError::Memory,
        MakerFault::UnknownName
        | MakerFault::NameTwice
        | MakerFault::NoStart
        | MakerFault::BadLiteral
        | MakerFault::LimitPassed => MakingError::Refused,
    }
}

/// Gives a class item to the maker, and notes its name.
pub fn class_item(
    alloc: Global,
    registry: &Registry,
    maker: &mut Maker,
    classes: &mut Vec<Characters>,
    name: &Characters,
    class: &WrittenClass,
) -> Result<(), MakingError>
    requires proper { IsProperEntry (entries.class name.now class.now) }
    requires names { classes.old.items ≡ made_classes maker.old }
    ensures made { OnOk result (maker.new ≡ with_entry (offer_of registry.now) maker.old (entries.class name.now class.now)) }
    ensures follows { OnOk result (MayFollow (offer_of registry.now) maker.old (entries.class name.now class.now)) }
    ensures names { OnOk result (classes.new.items ≡ made_classes maker.new) }
    ensures refused { IsErrOf result MakingError.Refused → LeadsNowhere (offer_of registry.now) maker.old (entries.class name.now class.now) }
{
    let name = name.as_slice();
    if is_predicate_name(alloc, registry, name)? {
        return Err(MakingError::Refused);
    }
    let class = class_meant(alloc, registry, classes.as_slice(), class)?;
    if let Err(fault) = maker.class(copied(alloc, name)?, class) {
        return Err(unmade(fault));
    }
    classes.push(copied(alloc, name)?)?;
    Ok(())
}

/// A word item of a file, whose names haven't been looked up (ours).
#[derive(Clone, Copy)]
pub struct WrittenWord<'w> {
    pub name: &'w Characters,
    /// The characters that begin a word.
    pub head: &'w WrittenClass,
    /// The characters that continue a word.
    pub rest: &'w WrittenClass,
    /// The words that aren't of this kind.
    pub reserved: &'w [Characters],
}

/// Gives a word item to the maker.
pub fn word_item(
    alloc: Global,
    registry: &Registry,
    maker: &mut Maker,
    classes: &[Characters],
    word: &WrittenWord<'_>,
) -> Result<(), MakingError>
    requires proper { IsProperEntry (entries.word word.now.name.now word.now.head.now word.now.rest.now word.now.reserved.now) }
    requires names { classes.now ≡ made_classes maker.old }
    ensures made { OnOk result (maker.new ≡ with_entry (offer_of registry.now) maker.old (entries.word word.now.name.now word.now.head.now word.now.rest.now word.now.reserved.now)) }
    ensures follows { OnOk result (MayFollow (offer_of registry.now) maker.old (entries.word word.now.name.now word.now.head.now word.now.rest.now word.now.reserved.now)) }
    ensures refused { IsErrOf result MakingError.Refused → LeadsNowhere (offer_of registry.now) maker.old (entries.word word.now.name.now word.now.head.now word.now.rest.now word.now.reserved.now) }
{
    let head_parts = class_meant(alloc, registry, classes, word.head)?;
    let rest_parts = class_meant(alloc, registry, classes, word.rest)?;
    let name = copied(alloc, word.name.as_slice())?;
    match maker.word(name, head_parts, rest_parts, texts(alloc, word.reserved)?) {
        Ok(_) => Ok(()),
        Err(fault) => Err(unmade(fault)),
    }
}

/// The operators item of a file, whose names haven't been looked up (ours).
#[derive(Clone, Copy)]
pub struct WrittenOperators<'w> {
    /// The characters of operators.
    pub class: &'w WrittenClass,
    /// The characters that are skipped after an operator.
    pub gap: &'w WrittenClass,
    /// The symbols that aren't operators.
    pub reserved: &'w [Characters],
    /// How many operators there may be, if the item says so.
    pub most: Option<usize>,
}

/// Gives the operators item to the maker.
pub fn operators_item(
    alloc: Global,
    registry: &Registry,
    maker: &mut Maker,
    classes: &[Characters],
    operators: &WrittenOperators<'_>,
) -> Result<(), MakingError>
    requires proper { IsProperEntry (entries.operators operators.now.class.now operators.now.gap.now operators.now.reserved.now operators.now.most) }
    requires names { classes.now ≡ made_classes maker.old }
    ensures made { OnOk result (maker.new ≡ with_entry (offer_of registry.now) maker.old (entries.operators operators.now.class.now operators.now.gap.now operators.now.reserved.now operators.now.most)) }
    ensures follows { OnOk result (MayFollow (offer_of registry.now) maker.old (entries.operators operators.now.class.now operators.now.gap.now operators.now.reserved.now operators.now.most)) }
    ensures refused { IsErrOf result MakingError.Refused → LeadsNowhere (offer_of registry.now) maker.old (entries.operators operators.now.class.now operators.now.gap.now operators.now.reserved.now operators.now.most) }
{
    let class_parts = class_meant(alloc, registry, classes, operators.class)?;
    let gap_parts = class_meant(alloc, registry, classes, operators.gap)?;
    let max = operators.most.unwrap_or(OPERATOR_LIMIT);
    match maker.operators(
        class_parts,
        gap_parts,
        texts(alloc, operators.reserved)?,
        max,
    ) {
        Ok(()) => Ok(()),
        Err(fault) => Err(unmade(fault)),
    }
}

/// Gives an initial operator to the maker.
pub fn table_item(
    alloc: Global,
    maker: &mut Maker,
    role: Role,
    precedence: usize,
    symbol: &Characters,
) -> Result<(), MakingError>
    requires { IsProperEntry (entries.table role precedence symbol.now) }
    ensures made { OnOk result (maker.new ≡ with_initial maker.old (record { role = role; precedence = precedence; symbol = symbol.now })) }
    ensures proper { IsErrOf result MakingError.Refused → ⊥ }
{
    let Some(declaration) = declaration(alloc, role, precedence, symbol)? else {
        return Err(MakingError::Refused);
    };
    match maker.initial(declaration) {
        Ok(()) => Ok(()),
        Err(fault) => Err(unmade(fault)),
    }
}

/// Gives the start to the maker.
pub fn start_item(alloc: Global, maker: &mut Maker, name: &Characters) -> Result<(), MakingError>
    requires { IsProperEntry (entries.start name.now) }
    ensures made { OnOk result (maker.new ≡ with_start maker.old name.now) }
    ensures follows { OnOk result (maker.old.start ≡ None) }
    ensures refused { IsErrOf result MakingError.Refused → maker.old.start ≡ None → ⊥ }
{
    match maker.start(copied(alloc, name.as_slice())?) {
        Ok(()) => Ok(()),
        Err(fault) => Err(unmade(fault)),
    }
}

/// A rule of a file, whose names haven't been looked up (ours).
#[derive(Clone, Copy)]
pub struct WrittenRule<'w> {
    pub name: &'w Characters,
    /// The forms of its value in preorder.
    pub body: &'w [PlacedForm],
}

/// Gives a rule to the maker, and notes the spans of its base forms.
pub fn rule_item(
    alloc: Global,
    registry: &Registry,
    maker: &mut Maker,
    classes: &[Characters],
    spans: &mut Vec<Span>,
    rule: &WrittenRule<'_>,
) -> Result<(), MakingError>
    requires proper { IsProperEntry (entries.rule rule.now.name.now (forms_of rule.now.body.now)) }
    requires names { classes.now ≡ made_classes maker.old }
    requires forms { length spans.old.items ≡ length maker.old.forms }
    ensures made { OnOk result (maker.new ≡ with_entry (offer_of registry.now) maker.old (entries.rule rule.now.name.now (forms_of rule.now.body.now))) }
    ensures follows { OnOk result (MayFollow (offer_of registry.now) maker.old (entries.rule rule.now.name.now (forms_of rule.now.body.now))) }
    ensures forms { OnOk result (length spans.new.items ≡ length maker.new.forms) }
    ensures spans { OnOk result (spans.new.items ≡ spans.old.items ++ value_spans rule.now.body.now) }
    ensures refused { IsErrOf result MakingError.Refused → LeadsNowhere (offer_of registry.now) maker.old (entries.rule rule.now.name.now (forms_of rule.now.body.now)) }
{
    let placed = body_meant(alloc, registry, classes, rule.body)?;
    let forms = without_spans(alloc, placed, spans)?;
    match maker.rule(copied(alloc, rule.name.as_slice())?, forms) {
        Ok(()) => Ok(()),
        Err(fault) => Err(unmade(fault)),
    }
}

/// The base forms of a body. Their spans are appended to these.
fn without_spans(
    alloc: Global,
    body: Vec<PlacedBase>,
    spans: &mut Vec<Span>,
) -> Result<Vec<BaseForm>, AllocError>
    ensures forms { IfOk result (λ forms. forms.items ≡ bases_of body.items) }
    ensures count { OnOk result (length spans.new.items ≡ length spans.old.items + length body.items) }
    ensures spans { OnOk result (spans.new.items ≡ spans.old.items ++ spans_of body.items) }
{
    let mut forms = Vec::new(alloc);
    for placed in body {
        let PlacedBase { form, span } = placed;
        forms.push(form)?;
        spans.push(span)?;
    }
    Ok(forms)
}

/// Copies of the literals in memory of their own.
pub fn texts(alloc: Global, literals: &[Characters]) -> Result<Texts, AllocError>
    ensures { IfOk result (λ texts. texts ≡ literals.now) }
{
    Texts::of(alloc, literals)
}

/// The declaration of an operator, if the precedence is from 0 to 9 and the symbol isn't empty.
pub fn declaration(
    alloc: Global,
    role: Role,
    precedence: usize,
    symbol: &Characters,
) -> Result<Option<Decl>, AllocError>
    ensures same { IfOk result (λ d. IfSome d (λ d. d ≡ record { role = role; precedence = precedence; symbol = symbol.now })) }
    ensures there { precedence ≤ 9 → 0 < length symbol.now → IfOk result IsSome }
{
    if precedence > PRECEDENCE_LIMIT || symbol.is_empty() {
        return Ok(None);
    }
    let symbol = copied(alloc, symbol.as_slice())?;
    Ok(Some(Decl::new(role, precedence as u8, symbol)))
}
