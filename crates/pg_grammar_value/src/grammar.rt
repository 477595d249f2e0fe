//! The grammar value: items, rules in file order over one list of nodes in preorder, and the start rule.
//!
//! The invariant says that every number names something. A node's parts are the next whole forms, and the nodes that aren't parts are the rules' bodies.
//! Whatever is named exists, and so does the operators item if operators are used. Rules have distinct names, and so have class items and word items. A class
//! item names only earlier ones. No string and no reserved text is empty, every choice has an alternative, and no range descends. The grammar also keeps the
//! set of each class expression, so that testing a character doesn't go through an expression. A maker (`pg_grammar`) establishes the invariant.
//! class expression contains, so that no character takes going through one. A maker (`pg_grammar`) establishes it.

ghost use Rattle.std.specs.Prelude.{◌≡◌, ◌<◌, length, map, position, slice_get, Some, false, option_copied};
ghost use Rattle.pg_grammar_form.specs.Forms.{parts_of, form_of, has_bad_literal, has_unknown_class, lacks_alternative, NamesRule, NamesWord};
ghost use Rattle.pg_grammar_form.specs.Contents.{class_parts};
ghost use Rattle.pg_grammar_form.specs.ClassItems.{AreClasses, has_character};
ghost use Rattle.pg_grammar_form.specs.WordItems.{AreWords};
ghost use Rattle.pg_grammar_form.specs.OperatorsItems.{AreOperators};
ghost use Rattle.pg_grammar_value.specs.Follows.{PartsFollow, BodiesAreNodes};
ghost use Rattle.std.specs.Str.{bytes_eq};

use pg_grammar_classes::{ClassSite, ContentSets};
use pg_grammar_form::{ClassItem, Decl, Node, NodeId, OperatorsItem, RuleId, WordItem};
use pg_text::Characters;
use std::marker::Model;

/// A rule: its name, and the node that is its body.
#[derive(Drop)]
pub struct Rule {
    /// Its name, which no other rule of its grammar has.
    pub name: Characters,
    /// The node that is its body. It isn't a part of another node.
    pub body: NodeId,
}

/// A grammar, seen as its items, its initial declarations, its nodes, its rules and its start rule.
pub struct Grammar {
    classes: Vec<ClassItem>,
    words: Vec<WordItem>,
    operators: Option<OperatorsItem>,
    initials: Vec<Decl>,
    nodes: Vec<Node>,
    rules: Vec<Rule>,
    start: RuleId,
    sets: ContentSets,
}

// Written out, so that the crates above needn't prove again how each part is dropped.
impl Drop for Grammar {
    fn drop(self) {
        let Grammar {
            classes,
            words,
            operators,
            initials,
            nodes,
            rules,
            start: _,
            sets,
        } = self;
        drop(classes);
        drop(words);
        drop(operators);
        drop(initials);
        drop(nodes);
        drop(rules);
        drop(sets);
    }
}

impl Model for Grammar {
    ghost use Rattle.pg_grammar_value.specs.Grammar.{Grammar as Parts, IsGrammar};
    ghost use Rattle.pg_grammar_value.specs.Sites.{AreGrammarSets};

    ghost Value = { Parts };

    ghost view = { λ g. record { classes = g.classes.items; words = g.words.items; operators = g.operators; initials = g.initials.items; nodes = g.nodes.items; rules = g.rules.items; start = g.start } };

    ghost invariant = { λ g. IsGrammar (record { classes = g.classes.items; words = g.words.items; operators = g.operators; initials = g.initials.items; nodes = g.nodes.items; rules = g.rules.items; start = g.start }) × AreGrammarSets (record { classes = g.classes.items; words = g.words.items; operators = g.operators; initials = g.initials.items; nodes = g.nodes.items; rules = g.rules.items; start = g.start }) g.sets };
}

impl Grammar {
    ghost use Rattle.pg_grammar_value.specs.Grammar.{IsGrammar, rule_names, word_names};
    ghost use Rattle.pg_grammar_value.specs.Sites.{class_at};
    ghost use Rattle.pg_grammar_classes.specs.Contents.{AreContentSets};

    /// The grammar of these parts. The caller owes that they make a grammar, and that the sets are theirs. It takes no memory.
    pub fn new(
        classes: Vec<ClassItem>,
        words: Vec<WordItem>,
        operators: Option<OperatorsItem>,
        initials: Vec<Decl>,
        nodes: Vec<Node>,
        rules: Vec<Rule>,
        start: RuleId,
        sets: ContentSets,
    ) -> Grammar
        requires grammar { IsGrammar (record { classes = classes.items; words = words.items; operators = operators; initials = initials.items; nodes = nodes.items; rules = rules.items; start = start }) }
        requires sets { AreContentSets classes.items words.items operators (map class_parts nodes.items) sets }
        ensures { result ≡ record { classes = classes.items; words = words.items; operators = operators; initials = initials.items; nodes = nodes.items; rules = rules.items; start = start } }
    {
        Grammar {
            classes,
            words,
            operators,
            initials,
            nodes,
            rules,
            start,
            sets,
        }
    }

    /// All nodes, in file order: those of the first rule in preorder, then those of the second, and so on.
    pub fn nodes(&self) -> &[Node]
        ensures all { result.now ≡ self.now.nodes }
        ensures grammar { IsGrammar self.now }
    {
        self.nodes.as_slice()
    }

    /// The class items, in file order. The number of a class item is its index here.
    pub fn class_items(&self) -> &[ClassItem]
        ensures all { result.now ≡ self.now.classes }
        ensures classes { AreClasses result.now }
        ensures grammar { IsGrammar self.now }
    {
        self.classes.as_slice()
    }

    /// The word items, in file order. The number of a word item is its index here.
    pub fn word_items(&self) -> &[WordItem]
        ensures all { result.now ≡ self.now.words }
        ensures words { AreWords (length self.now.classes) result.now }
    {
        self.words.as_slice()
    }

    /// The operators item, if there is one. A grammar that uses operators has one.
    pub fn operators_item(&self) -> Option<&OperatorsItem>
        ensures all { option_copied result ≡ self.now.operators }
        ensures operators { AreOperators (length self.now.classes) self.now.operators }
        ensures grammar { IsGrammar self.now }
    {
        self.operators.as_ref()
    }

    /// The initial declarations, in file order. A table may still refuse them.
    pub fn initials(&self) -> &[Decl]
        ensures all { result.now ≡ self.now.initials }
        ensures grammar { IsGrammar self.now }
    {
        self.initials.as_slice()
    }

    /// The rules, in file order. The number of a rule is its index here.
    pub fn rules(&self) -> &[Rule]
        ensures all { result.now ≡ self.now.rules }
        ensures bodies { BodiesAreNodes (length self.now.nodes) result.now }
    {
        self.rules.as_slice()
    }

    /// The rule from which texts are derived.
    pub fn start_rule(&self) -> RuleId
        ensures start { result ≡ self.now.start }
        ensures rule { result < length self.now.rules }
    {
        self.start
    }

    /// The node with this number. Its parts are later nodes, so going from nodes to parts ends, unless it follows
    /// rules. A string has a character, a choice has an alternative, and no range descends.
    pub fn node(&self, id: NodeId) -> &Node
        requires { id < length self.now.nodes }
        ensures node { slice_get self.now.nodes id ≡ Some result.now }
        ensures parts { PartsFollow id (length self.now.nodes) (parts_of result.now) }
        ensures rule { NamesRule (length self.now.rules) result.now }
        ensures word { NamesWord (length self.now.words) result.now }
        ensures proper { has_bad_literal (form_of (rule_names self.now) (word_names self.now) result.now) ≡ false }
        ensures class { has_unknown_class (length self.now.classes) (form_of (rule_names self.now) (word_names self.now) result.now) ≡ false }
        ensures alternative { lacks_alternative (form_of (rule_names self.now) (word_names self.now) result.now) ≡ false }
    {
        &self.nodes[id.index()]
    }

    /// Whether the class expression at this site has the character; false if there is none. An ASCII character is looked up, and any other is found by binary
    /// search. It takes no memory.
    #[inline]
    pub fn contains(&self, site: ClassSite, c: char) -> bool
        ensures { result ≡ has_character self.now.classes (class_at self.now site) c }
    {
        match self.sets.at(site) {
            Some(set) => set.has(c),
            None => false,
        }
    }

    /// The number of the rule with this name, if there is one.
    pub fn rule(&self, name: &[char]) -> Option<RuleId>
        ensures { result ≡ position (λ rule. bytes_eq rule.name name.now) self.now.rules }
    {
        place_of_rule(self.rules.as_slice(), name).map(RuleId::new)
    }
}

/// The index of the first rule with this name, if there is one.
fn place_of_rule(rules: &[Rule], name: &[char]) -> Option<usize>
    ensures { result ≡ position (λ rule. bytes_eq rule.name name.now) rules.now }
{
    rules.iter().position(|rule| rule.name.as_slice() == name)
}
