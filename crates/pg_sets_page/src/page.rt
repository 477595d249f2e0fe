//! The page of a grammar's sets.
//!
//! The names of rules and the texts of starts, to which sets refer by number, are made once. Then the page is built rule by rule and
//! node by node. The contract of each function that pushes gives the text that it adds. The only error is that memory ran out.

ghost use Rattle.std.specs.Prelude.{◌≡◌, ◌++◌, ◌+◌, ◌^◌, ◌<◌, ◌≤◌, codes, length, map, string_bytes, IfOk, OnOk};
ghost use Rattle.std.specs.List.{filter, join_by, range_with_len};
ghost use Rattle.pg_graph_bits.specs.Numbers.{contains};
ghost use Rattle.pg_predict.specs.Findings.{name_text};
ghost use Rattle.pg_sets_own.specs.PrintedStarts.{start_text};
ghost use Rattle.pg_sets_page.specs.SetsPage.{IsSetsPage, text_at, list_text, set_text, leaf_word, chain_word, around_word, form_word, word_of, nullable_text, place_text, sets_text, node_line, rank_text, rule_line, end_of, node_lines, rule_text, page_text};

use pg_grammar_form::{Around, Form, Leaf, Node, NodeId, RuleId, Side, WordId};
use pg_grammar_value::{Grammar, Rule};
use pg_graph_bits::BitSet;
use pg_predict::body_of;
use pg_sets::Sets;
use pg_sets_own::{ListedStart, printed_start};
use std::alloc::{AllocError, Global};

/// What a page is made from.
#[derive(Clone, Copy)]
struct Content<'c> {
    grammar: &'c Grammar,
    /// The names of its rules.
    names: &'c [String],
    /// The texts of the starts, to which the sets refer by number.
    starts: &'c [String],
    sets: &'c Sets,
}

/// The page of the sets of a grammar.
pub fn sets_page(alloc: Global, grammar: &Grammar) -> Result<Vec<u8>, AllocError>
    ensures { IfOk result (λ page. IsSetsPage grammar.now page.items) }
{
    let sets = Sets::compute(alloc, grammar)?;
    let names = names_of(alloc, grammar.rules())?;
    let starts = start_texts(alloc, grammar, sets.starts())?;
    let content = Content {
        grammar,
        names: &names,
        starts: &starts,
        sets: &sets,
    };
    page_of(alloc, &content)
}

/// The names of rules.
fn names_of(alloc: Global, rules: &[Rule]) -> Result<Vec<String>, AllocError>
    ensures { IfOk result (λ names. map string_bytes names.items ≡ map name_text rules.now) }
{
    let mut names = Vec::new(alloc);
    for rule in rules {
        names.push(format!(in alloc; "{}", rule.name)?)?;
    }
    Ok(names)
}

/// The printed forms of starts.
fn start_texts(
    alloc: Global,
    grammar: &Grammar,
    starts: &[ListedStart],
) -> Result<Vec<String>, AllocError>
    ensures { IfOk result (λ texts. map string_bytes texts.items ≡ map (start_text grammar.now) starts.now) }
{
    let mut texts = Vec::new(alloc);
    for start in starts {
        texts.push(printed_start(alloc, grammar, start)?)?;
    }
    Ok(texts)
}

/// The page of this content.
fn page_of(alloc: Global, content: &Content<'_>) -> Result<Vec<u8>, AllocError>
    ensures { IfOk result (λ page. page.items ≡ page_text content.now.grammar.now (map string_bytes content.now.names.now) (map string_bytes content.now.starts.now) content.now.sets.now) }
{
    let grammar = content.grammar;
    let mut page = Vec::new(alloc);
    for rule in 0..grammar.rules().len() {
        push_rule_line(alloc, &mut page, content, RuleId::new(rule))?;
        let body = body_of(grammar.rules(), rule);
        let end = end_of(grammar, rule);
        push_node_lines(alloc, &mut page, content, body, end)?;
    }
    Ok(page)
}

/// The end of a rule's nodes: the number after its last.
fn end_of(grammar: &Grammar, rule: usize) -> usize
    requires { rule < length grammar.now.rules }
    ensures { result ≡ end_of grammar.now rule }
{
    match grammar.rules().get(rule + 1) {
        Some(next) => next.body.index(),
        None => grammar.nodes().len(),
    }
}

/// Pushes a rule's name, its heads and its rank.
fn push_rule_line(
    alloc: Global,
    page: &mut Vec<u8>,
    content: &Content<'_>,
    rule: RuleId,
) -> Result<(), AllocError>
    ensures { OnOk result (page.new.items ≡ page.old.items ++ rule_line (map string_bytes content.now.names.now) content.now.sets.now rule) }
{
    let heads = numbers_of(alloc, content.sets.heads(rule))?;
    page.extend_from_slice(text_at(content.names, rule.index()).as_bytes())?;
    page.extend_from_slice(b": heads ")?;
    push_list(page, content.names, &heads)?;
    page.extend_from_slice(b", rank ")?;
    push_rank(alloc, page, content.sets.rank(rule))?;
    page.extend_from_slice(b"\n")
}

/// The numbers of rules.
fn numbers_of(alloc: Global, rules: &[RuleId]) -> Result<Vec<usize>, AllocError>
    ensures { IfOk result (λ numbers. numbers.items ≡ rules.now) }
{
    let mut numbers = Vec::new(alloc);
    for rule in rules {
        numbers.push(rule.index())?;
    }
    Ok(numbers)
}

/// Pushes a rank, or the word for none.
fn push_rank(alloc: Global, page: &mut Vec<u8>, rank: Option<u32>) -> Result<(), AllocError>
    ensures { OnOk result (page.new.items ≡ page.old.items ++ rank_text rank) }
{
    match rank {
        Some(rank) => {
            let rank = format!(in alloc; "{rank}")?;
            page.extend_from_slice(rank.as_bytes())
        }
        None => page.extend_from_slice(b"none"),
    }
}

/// Pushes the lines of the nodes from the body up to the end, without the end.
fn push_node_lines(
    alloc: Global,
    page: &mut Vec<u8>,
    content: &Content<'_>,
    body: usize,
    end: usize,
) -> Result<(), AllocError>
    ensures { OnOk result (page.new.items ≡ page.old.items ++ node_lines content.now.grammar.now (map string_bytes content.now.starts.now) content.now.sets.now body end) }
{
    for node in body..end {
        push_place(alloc, page, content.grammar, body, node)?;
        push_sets(alloc, page, content.starts, content.sets, NodeId::new(node))?;
    }
    Ok(())
}

/// Pushes a node's number in its rule, counted from 1, and the word of its form.
fn push_place(
    alloc: Global,
    page: &mut Vec<u8>,
    grammar: &Grammar,
    body: usize,
    node: usize,
) -> Result<(), AllocError>
    requires after { body ≤ node }
    requires fits { node + 1 < 2 ^ 64 }
    ensures { OnOk result (page.new.items ≡ page.old.items ++ place_text grammar.now body node) }
{
    let number = node - body + 1;
    let word = word_of(grammar, node);
    let text = format!(in alloc; "  {number} {word}: ")?;
    page.extend_from_slice(text.as_bytes())
}

/// The word of the form at a node; empty if there is no such node.
fn word_of(grammar: &Grammar, node: usize) -> &'static str
    ensures { result.now ≡ word_of grammar.now node }
{
    match grammar.nodes().get(node) {
        Some(node) => form_word(node),
        None => "",
    }
}

/// The word for the form in a grammar file; `rule` for a use of a rule, which has no word there.
pub fn form_word(node: &Node) -> &'static str
    ensures { result.now ≡ form_word node.now }
{
    match node {
        Form::Leaf(leaf) => leaf_word(leaf),
        Form::Seq(_) => "seq",
        Form::Choice(_) => "choice",
        Form::Many(_) => "many",
        Form::Chain(side, _, _, _) => chain_word(*side),
        Form::Rule(_) => "rule",
        Form::Expression(_, _) => "expr",
        Form::Around(around, _) => around_word(around),
    }
}

fn leaf_word(leaf: &Leaf<WordId>) -> &'static str
    ensures { result.now ≡ leaf_word leaf.now }
{
    match leaf {
        Leaf::Satisfy(_) => "satisfy",
        Leaf::String(_) => "string",
        Leaf::Word(_) => "word",
        Leaf::NotFollowedBy(_) => "notFollowedBy",
        Leaf::EndOfText => "eof",
        Leaf::Declare(_) => "declare",
    }
}

fn chain_word(side: Side) -> &'static str
    ensures { result.now ≡ chain_word side }
{
    match side {
        Side::Left => "chainl1",
        Side::Right => "chainr1",
    }
}

fn around_word(around: &Around) -> &'static str
    ensures { result.now ≡ around_word around.now }
{
    match around {
        Around::Try => "try",
        Around::Text => "text",
        Around::Skip => "skip",
        Around::Build(_, _) => "build",
        Around::Label(_) => "label",
        Around::Local => "local",
    }
}

/// Pushes whether a node is nullable, its first set and its follow set.
fn push_sets(
    alloc: Global,
    page: &mut Vec<u8>,
    starts: &[String],
    sets: &Sets,
    node: NodeId,
) -> Result<(), AllocError>
    ensures { OnOk result (page.new.items ≡ page.old.items ++ sets_text (map string_bytes starts.now) sets.now node) }
{
    page.extend_from_slice(nullable_text(sets.nullable(node)).as_bytes())?;
    page.extend_from_slice(b", first ")?;
    push_set(alloc, page, starts, sets.first(node))?;
    page.extend_from_slice(b", follow ")?;
    push_set(alloc, page, starts, sets.follow(node))?;
    page.extend_from_slice(b"\n")
}

fn nullable_text(nullable: bool) -> &'static str
    ensures { result.now ≡ nullable_text nullable }
{
    if nullable { "nullable" } else { "not nullable" }
}

/// Pushes the texts of the members of a set.
fn push_set(
    alloc: Global,
    page: &mut Vec<u8>,
    texts: &[String],
    set: &BitSet,
) -> Result<(), AllocError>
    ensures { OnOk result (page.new.items ≡ page.old.items ++ set_text (map string_bytes texts.now) set.now) }
{
    let numbers = members(alloc, set, texts.len())?;
    push_list(page, texts, &numbers)
}

/// The members of a set below a limit.
fn members(alloc: Global, set: &BitSet, limit: usize) -> Result<Vec<usize>, AllocError>
    ensures { IfOk result (λ numbers. numbers.items ≡ filter (contains set.now) (range_with_len 0 limit)) }
{
    let mut numbers = Vec::new(alloc);
    for number in 0..limit {
        if set.contains(number) {
            numbers.push(number)?;
        }
    }
    Ok(numbers)
}

/// Pushes the texts with these numbers, in brackets and separated by semicolons.
fn push_list(page: &mut Vec<u8>, texts: &[String], numbers: &[usize]) -> Result<(), AllocError>
    ensures { OnOk result (page.new.items ≡ page.old.items ++ list_text (map string_bytes texts.now) numbers.now) }
{
    page.extend_from_slice(b"[")?;
    push_joined(page, texts, numbers)?;
    page.extend_from_slice(b"]")
}

/// Pushes the texts with these numbers, separated by semicolons.
fn push_joined(page: &mut Vec<u8>, texts: &[String], numbers: &[usize]) -> Result<(), AllocError>
    ensures { OnOk result (page.new.items ≡ page.old.items ++ join_by (text_at (map string_bytes texts.now)) (codes "; ") numbers.now) }
{
    if let [first, rest @ ..] = numbers {
        page.extend_from_slice(text_at(texts, *first).as_bytes())?;
        for number in rest {
            page.extend_from_slice(b"; ")?;
            page.extend_from_slice(text_at(texts, *number).as_bytes())?;
        }
    }
    Ok(())
}

/// The text with this number; empty if there is none.
fn text_at(texts: &[String], number: usize) -> &str
    ensures { result.now ≡ text_at (map string_bytes texts.now) number }
{
    match texts.get(number) {
        Some(text) => text.as_str(),
        None => "",
    }
}
