//! Making a grammar: a maker receives its parts one after another, and checks the names of rules and words at the end.
//!
//! So a rule or a word item may be named before the maker has it, and operators may be used before their item. A class item is named by its number, once the
//! maker has it. A refused call leaves the maker as it was. Faults have the labels of the grammar file; if several apply to a call, it returns the one with
//! the lowest number.

ghost use Rattle.std.specs.Prelude.{◌≡◌, ◌<◌, ◌≤◌, ◌↔◌, length, map, option_and_then, Err, MatchOption, IsOk, IsOkUnless, IsSome, IsNone, IfOk, IfErr, OnOk, OnErr, IsErrOf, IsErrAnd};
ghost use Rattle.pg_grammar_form.specs.Names.{place_of_name};
ghost use Rattle.pg_grammar_form.specs.ClassItems.{has_item};

use crate::judged::{has_bad_literals, has_long_texts, lacks_class, lacks_name, use_operators};
use crate::maker_fault::{MakerFault, Unfinished};
use crate::names::{has_name, has_word, place_of_name};
use crate::nodes::{nodes_of, rules_of};
use crate::numbering::{Numbers, numbers_of};
use crate::spelled::go_through_strings;
use pg_grammar_classes::ContentSets;
use pg_grammar_form::{
    BaseForm, CLASS_LIMIT, ClassExpression, ClassId, ClassItem, Decl, LITERAL_LIMIT, NAME_LIMIT,
    NODE_LIMIT, OperatorsItem, RULE_LIMIT, RuleId, WORD_LIMIT, WordId, WordItem,
};
use pg_grammar_value::Grammar;
use pg_text::{Characters, Texts};
use std::alloc::{AllocError, Global};
use std::marker::Model;

/// A grammar in the making, seen as the parts received so far. Each rule's body is one whole form. Rules have distinct
/// names, and so have class items and word items. Each class item that is named exists, no string or reserved text is
/// empty, no range descends and no limit is passed.
#[derive(Drop)]
pub struct Maker {
    start: Option<Characters>,
    classes: Vec<ClassItem>,
    words: Vec<WordItem>,
    operators: Option<OperatorsItem>,
    initials: Vec<Decl>,
    names: Vec<Characters>,
    forms: Vec<BaseForm>,
}

impl Model for Maker {
    ghost use Rattle.pg_grammar.specs.Made.{Made, IsMade};

    ghost Value = { Made };

    ghost view = { λ m. record { start = m.start; classes = m.classes.items; words = m.words.items; operators = m.operators; initials = m.initials.items; names = m.names.items; forms = m.forms.items } };

    ghost invariant = { λ m. IsMade (record { start = m.start; classes = m.classes.items; words = m.words.items; operators = m.operators; initials = m.initials.items; names = m.names.items; forms = m.forms.items }) };
}

impl Maker {
    ghost use Rattle.pg_grammar_form.specs.Forms.{IsBody};
    ghost use Rattle.pg_grammar.specs.Made.{nothing_made, with_start, with_class, with_word, with_operators, with_initial, with_rule, class_fault, word_fault, operators_fault, initial_fault, rule_fault, word_passes_limit, passes_limit, is_incomplete, finish_fault, IsReady, AreNumbers, Says};
    ghost use Rattle.pg_grammar.specs.Capacity.{HasCapacity};
    ghost use Rattle.pg_grammar_form.specs.Contents.{class_parts};
    ghost use Rattle.pg_grammar_classes.specs.Contents.{AreContentSets};

    /// A maker without parts. It takes no memory until it receives some.
    pub fn new(alloc: Global) -> Maker
        ensures { result ≡ nothing_made }
    {
        Maker {
            start: None,
            classes: Vec::new(alloc),
            words: Vec::new(alloc),
            operators: None,
            initials: Vec::new(alloc),
            names: Vec::new(alloc),
            forms: Vec::new(alloc),
        }
    }

    /// Names the start rule. F5 if it was named before, F8 if the name has over 64 characters.
    pub fn start(&mut self, name: Characters) -> Result<(), MakerFault>
        ensures ok { OnOk result (self.new ≡ with_start self.old name) }
        ensures twice { IsErrOf result MakerFault.NameTwice ↔ IsSome self.old.start }
        ensures limit { IsErrOf result MakerFault.LimitPassed ↔ (IsNone self.old.start × (NAME_LIMIT < length name)) }
        ensures accepts { IsOk result ↔ (IsNone self.old.start × (length name ≤ NAME_LIMIT)) }
        ensures err { OnErr result (self.new ≡ self.old) }
    {
        if self.start.is_some() {
            return Err(MakerFault::NameTwice);
        }
        if name.len() > NAME_LIMIT {
            return Err(MakerFault::LimitPassed);
        }
        self.start = Some(name);
        Ok(())
    }

    /// Adds a class item at the end, and returns its number.
    ///
    /// F4 if the expression names a class item that doesn't exist yet; F5 if a class item has this name; F7 if a range
    /// descends; F8 if the name, or a predicate's, has over 64 characters, a literal has over 1,024, or the grammar
    /// would have over 256 class items.
    pub fn class(&mut self, name: Characters, class: ClassExpression) -> Result<ClassId, MakerFault>
        ensures ok { OnOk result (self.new ≡ with_class self.old name class) }
        ensures number { IfOk result (λ id. id ≡ length self.old.classes) }
        ensures refused { MatchOption (class_fault self.old name class) (IsOkUnless result MakerFault.Memory) (λ fault. result ≡ Err fault) }
        ensures err { OnErr result (self.new ≡ self.old) }
    {
        if let Some(fault) = self.class_fault(&name, &class) {
            return Err(fault);
        }
        let id = ClassId::new(self.classes.len());
        self.classes.push(ClassItem { name, class })?;
        Ok(id)
    }

    /// Adds a word item at the end, and returns its number.
    ///
    /// F4 if an expression names a class item that doesn't exist; F5 if a word item has this name; F7 if a range descends or a reserved text is empty; F8 if
    /// the name, or a predicate's, has over 64 characters, a literal has over 1,024, or the grammar would have over 64 word items.
    pub fn word(
        &mut self,
        name: Characters,
        head: ClassExpression,
        rest: ClassExpression,
        reserved: Texts,
    ) -> Result<WordId, MakerFault>
        ensures ok { OnOk result (self.new ≡ with_word self.old (record { name = name; head = head; rest = rest; reserved = reserved })) }
        ensures number { IfOk result (λ id. id ≡ length self.old.words) }
        ensures refused { MatchOption (word_fault self.old (record { name = name; head = head; rest = rest; reserved = reserved })) (IsOkUnless result MakerFault.Memory) (λ fault. result ≡ Err fault) }
        ensures err { OnErr result (self.new ≡ self.old) }
    {
        let item = WordItem {
            name,
            head,
            rest,
            reserved,
        };
        if let Some(fault) = self.word_fault(&item) {
            return Err(fault);
        }
        let id = WordId::new(self.words.len());
        self.words.push(item)?;
        Ok(id)
    }

    /// Adds the operators item. It takes no memory.
    ///
    /// F4 if an expression names a class item that doesn't exist; F5 if there is an operators item already; F7 if a range descends or a reserved symbol is
    /// empty; F8 if a literal has over 1,024 characters, the name of a predicate has over 64, or `max` isn't from 1 to 64.
    pub fn operators(
        &mut self,
        class: ClassExpression,
        gap: ClassExpression,
        reserved: Texts,
        max: usize,
    ) -> Result<(), MakerFault>
        ensures ok { OnOk result (self.new ≡ with_operators self.old (record { class = class; gap = gap; reserved = reserved; max = max })) }
        ensures refused { MatchOption (operators_fault self.old (record { class = class; gap = gap; reserved = reserved; max = max })) (IsOk result) (λ fault. result ≡ Err fault) }
        ensures err { OnErr result (self.new ≡ self.old) }
    {
        let item = OperatorsItem {
            class,
            gap,
            reserved,
            max,
        };
        if let Some(fault) = self.operators_fault(&item) {
            return Err(fault);
        }
        self.operators = Some(item);
        Ok(())
    }

    /// Adds an initial declaration at the end. F8 if its symbol has over 1,024 characters. Whoever makes the table checks whether the table admits it.
    pub fn initial(&mut self, declaration: Decl) -> Result<(), MakerFault>
        ensures ok { OnOk result (self.new ≡ with_initial self.old declaration) }
        ensures refused { MatchOption (initial_fault declaration) (IsOkUnless result MakerFault.Memory) (λ fault. result ≡ Err fault) }
        ensures err { OnErr result (self.new ≡ self.old) }
    {
        if declaration.symbol().len() > LITERAL_LIMIT {
            return Err(MakerFault::LimitPassed);
        }
        self.initials.push(declaration)?;
        Ok(())
    }

    /// Adds a rule at the end, with its body as base forms in preorder. The caller owes that they are one whole form.
    ///
    /// F4 if the body names a class item that doesn't exist; F5 if a rule has this name; F7 if a string is empty or a range descends; F8 if a name has over
    /// 64 characters, a literal, symbol or message has over 1,024, or the grammar would have over 512 rules or 8,192 nodes.
    pub fn rule(&mut self, name: Characters, body: Vec<BaseForm>) -> Result<(), MakerFault>
        requires { IsBody body.items }
        ensures ok { OnOk result (self.new ≡ with_rule self.old name body.items) }
        ensures refused { MatchOption (rule_fault self.old name body.items) (IsOkUnless result MakerFault.Memory) (λ fault. result ≡ Err fault) }
        ensures err { OnErr result (self.new ≡ self.old) }
    {
        if let Some(fault) = self.rule_fault(&name, body.as_slice()) {
            return Err(fault);
        }
        go_through_strings(body.as_slice());
        let mut body = body;
        self.names.push(name)?;
        if self.forms.append(&mut body).is_err() {
            let _ = self.names.pop();
            return Err(MakerFault::Memory);
        }
        Ok(())
    }

    /// The grammar of all parts received. F4 if a body names a rule or a word item that doesn't exist, or if there is no operators item although a body reads
    /// or declares operators or there is an initial declaration. F6 if no start rule was named or the name isn't a rule's. A refusal hands the maker back as
    /// it was.
    pub fn finish(self) -> Result<Grammar, Unfinished>
        ensures ok { IfOk result (Says self) }
        ensures refused { MatchOption (finish_fault self) (IfErr result (λ e. e.fault ≡ MakerFault.Memory)) (λ fault. IsErrAnd result (λ e. e.fault ≡ fault)) }
        ensures err { IfErr result (λ e. e.maker ≡ self) }
    {
        match self.ready() {
            Ok((start, numbers, sets)) => Ok(self.grammar(start, numbers, sets)),
            Err(fault) => Err(Unfinished { maker: self, fault }),
        }
    }

    /// Why a class item is refused, if it is.
    fn class_fault(&self, name: &Characters, class: &ClassExpression) -> Option<MakerFault>
        ensures { result ≡ class_fault self.now name.now class.now }
    {
        if class.lacks_item(self.classes.len()) {
            return Some(MakerFault::UnknownName);
        }
        if has_item(self.classes.as_slice(), name.as_slice()) {
            return Some(MakerFault::NameTwice);
        }
        if class.has_descending_range() {
            return Some(MakerFault::BadLiteral);
        }
        if name.len() > NAME_LIMIT || class.has_long_text() || self.classes.len() >= CLASS_LIMIT {
            return Some(MakerFault::LimitPassed);
        }
        None
    }

    /// Why a word item is refused, if it is.
    fn word_fault(&self, item: &WordItem) -> Option<MakerFault>
        ensures { result ≡ word_fault self.now item.now }
    {
        if item.lacks_item(self.classes.len()) {
            return Some(MakerFault::UnknownName);
        }
        if has_word(self.words.as_slice(), item.name.as_slice()) {
            return Some(MakerFault::NameTwice);
        }
        if item.has_bad_literal() {
            return Some(MakerFault::BadLiteral);
        }
        if self.word_passes_limit(item) {
            return Some(MakerFault::LimitPassed);
        }
        None
    }

    /// Whether this word item would pass a limit: a name or literal too long, or too many word items.
    fn word_passes_limit(&self, item: &WordItem) -> bool
        ensures { result ≡ word_passes_limit self.now item.now }
    {
        item.name.len() > NAME_LIMIT || item.has_long_text() || self.words.len() >= WORD_LIMIT
    }

    /// Why an operators item is refused, if it is.
    fn operators_fault(&self, item: &OperatorsItem) -> Option<MakerFault>
        ensures { result ≡ operators_fault self.now item.now }
    {
        if item.lacks_item(self.classes.len()) {
            return Some(MakerFault::UnknownName);
        }
        if self.operators.is_some() {
            return Some(MakerFault::NameTwice);
        }
        if item.has_bad_literal() {
            return Some(MakerFault::BadLiteral);
        }
        if item.passes_limit() {
            return Some(MakerFault::LimitPassed);
        }
        None
    }

    /// Why a rule is refused, if it is.
    fn rule_fault(&self, name: &Characters, body: &[BaseForm]) -> Option<MakerFault>
        ensures { result ≡ rule_fault self.now name.now body.now }
    {
        if lacks_class(self.classes.len(), body) {
            return Some(MakerFault::UnknownName);
        }
        if has_name(self.names.as_slice(), name.as_slice()) {
            return Some(MakerFault::NameTwice);
        }
        if has_bad_literals(body) {
            return Some(MakerFault::BadLiteral);
        }
        if self.passes_limit(name, body) {
            return Some(MakerFault::LimitPassed);
        }
        None
    }

    /// Whether this rule would pass a limit: a name or literal too long, or too many rules or nodes.
    fn passes_limit(&self, name: &Characters, body: &[BaseForm]) -> bool
        ensures { result ≡ passes_limit self.now name.now body.now }
    {
        name.len() > NAME_LIMIT
            || has_long_texts(body)
            || self.names.len() >= RULE_LIMIT
            || body.len() > NODE_LIMIT - self.forms.len()
    }

    /// The number of the start rule, and those of all forms. The maker stays.
    fn numbers(&self) -> Result<(RuleId, Numbers), MakerFault>
        ensures ok { IfOk result (λ x. AreNumbers self.now x.1.parts.items x.1.bodies.items x.0) }
        ensures room { IfOk result (λ x. HasCapacity self.now x.1) }
        ensures refused { MatchOption (finish_fault self.now) (IsOkUnless result MakerFault.Memory) (λ fault. result ≡ Err fault) }
    {
        let start = self.start_number()?;
        let alloc = *self.names.allocator();
        match numbers_of(alloc, self.forms.as_slice(), self.names.len()) {
            Ok(numbers) => Ok((start, numbers)),
            Err(_) => Err(MakerFault::Memory),
        }
    }

    /// The sets of the class expressions received.
    fn sets(&self) -> Result<ContentSets, AllocError>
        ensures { IfOk result (AreContentSets self.now.classes self.now.words self.now.operators (map class_parts self.now.forms)) }
    {
        ContentSets::of(
            *self.names.allocator(),
            self.classes.as_slice(),
            self.words.as_slice(),
            self.operators.as_ref(),
            self.forms.as_slice(),
        )
    }

    /// Everything else that the grammar needs beside the parts received. The maker stays.
    fn ready(&self) -> Result<(RuleId, Numbers, ContentSets), MakerFault>
        ensures ok { IfOk result (λ x. AreNumbers self.now x.1.parts.items x.1.bodies.items x.0) }
        ensures room { IfOk result (λ x. HasCapacity self.now x.1) }
        ensures sets { IfOk result (λ x. AreContentSets self.now.classes self.now.words self.now.operators (map class_parts self.now.forms) x.2) }
        ensures refused { MatchOption (finish_fault self.now) (IsOkUnless result MakerFault.Memory) (λ fault. result ≡ Err fault) }
    {
        let (start, numbers) = self.numbers()?;
        match self.sets() {
            Ok(sets) => Ok((start, numbers, sets)),
            Err(_) => Err(MakerFault::Memory),
        }
    }

    /// The grammar of all parts received, with these numbers and sets. The parts are moved into it.
    fn grammar(self, start: RuleId, numbers: Numbers, sets: ContentSets) -> Grammar
        requires numbers { AreNumbers self numbers.parts.items numbers.bodies.items start }
        requires sets { AreContentSets self.classes self.words self.operators (map class_parts self.forms) sets }
        requires room { HasCapacity self numbers }
        ensures { Says self result }
    {
        let Maker {
            classes,
            words,
            operators,
            initials,
            names,
            forms,
            ..
        } = self;
        let Numbers {
            parts,
            bodies,
            nodes,
            rules,
        } = numbers;
        let nodes = nodes_of(nodes, names.as_slice(), words.as_slice(), forms, parts);
        let rules = rules_of(rules, names, bodies);
        Grammar::new(
            classes, words, operators, initials, nodes, rules, start, sets,
        )
    }

    /// Whether a rule or a word item that is named doesn't exist, or operators are used without an operators item.
    fn is_incomplete(&self) -> bool
        ensures { result ≡ is_incomplete self.now }
    {
        let forms = self.forms.as_slice();
        lacks_name(self.names.as_slice(), self.words.as_slice(), forms)
            || self.operators.is_none() && (!self.initials.is_empty() || use_operators(forms))
    }

    /// The number of the start rule, if everything that is named exists.
    fn start_number(&self) -> Result<RuleId, MakerFault>
        ensures ok { IfOk result (IsReady self.now) }
        ensures refused { MatchOption (finish_fault self.now) (IsOk result) (λ fault. result ≡ Err fault) }
    {
        let names = self.names.as_slice();
        if self.is_incomplete() {
            return Err(MakerFault::UnknownName);
        }
        match place_of_start(names, &self.start) {
            Some(place) => Ok(RuleId::new(place)),
            None => Err(MakerFault::NoStart),
        }
    }
}

/// Whether one of the class items has this name.
fn has_item(items: &[ClassItem], name: &[char]) -> bool
    ensures { result ≡ has_item items.now name.now }
{
    items.iter().any(|item| item.name.as_slice() == name)
}

/// The index of the start rule's name, if one was given and is among these.
fn place_of_start(names: &[Characters], start: &Option<Characters>) -> Option<usize>
    ensures { result ≡ option_and_then (place_of_name names.now) start.now }
{
    match start {
        Some(name) => place_of_name(names, name.as_slice()),
        None => None,
    }
}
