//! Enters nodes: a leaf answers at once, and any other form runs its first part.

ghost use Rattle.std.specs.Prelude.{◌≡◌, ◌∷◌, length, slice_get, option_copied, Some, IfOk};
ghost use Rattle.pg_grammar_form.specs.declared.form.Form.TheVariants as form;
ghost use Rattle.pg_grammar_form.specs.declared.form.Leaf.TheVariants as leaf;
ghost use Rattle.pg_language.specs.Leaves.{leaf_outcome};
ghost use Rattle.pg_machine_turns.specs.Tape.{tape_at, tape_enter_at, tape_enter, no_tried, tape_next_alternative, tape_seq, tape_many, tape_chain, tape_rule, tape_told, on_around, forest_in};
ghost use Rattle.pg_machine_turns.specs.Spots.{spot_at};
ghost use Rattle.pg_machine_lists.specs.RunTrees.{tree_count};
ghost use Rattle.pg_machine_lists.specs.ViewLevels.{given_of};
ghost use Rattle.pg_machine_turns.specs.View.{frame_of, on_lists, tape_of};

use crate::around::begin;
use crate::frame::{AroundFrame, ChainFrame, Frame, Mode, PartsFrame, Reply, RoundsFrame, Tried};
use crate::machine::Machine;
use pg_grammar_form::{Around, ChainBuilder, Form, Leaf, Node, NodeId, RuleId, Side, WordId};
use pg_grammar_value::{Grammar, TrailItem};
use pg_machine_lists::Context;
use pg_text::Text;
use std::alloc::AllocError;

impl<'a> Machine<'a> {
    /// Enters the node at the place.
    #[inline(always)]
    pub(crate) fn enter(
        &mut self,
        context: Context<'_, 'a>,
        node: NodeId,
        place: usize,
    ) -> Result<Mode, AllocError>
        ensures { IfOk result (λ mode. tape_of mode self.new ≡
            on_lists (tape_enter_at (given_of context.entry.given) (slice_get context.entry.given.grammar.now.nodes node) place) self.old) }
    {
        match item_at(context.given.grammar.nodes(), node.index()) {
            Some(form) => self.enter_form(context, node, form, place),
            None => Ok(Mode::Endless),
        }
    }

    /// Enters a form at the place.
    #[inline(always)]
    fn enter_form(
        &mut self,
        context: Context<'_, 'a>,
        node: NodeId,
        form: &'a Node,
        place: usize,
    ) -> Result<Mode, AllocError>
        requires { slice_get context.given.grammar.now.nodes node ≡ Some form.now }
        ensures { IfOk result (λ mode. tape_of mode self.new ≡
            on_lists (tape_enter (given_of context.entry.given) form.now place) self.old) }
    {
        match form {
            Form::Leaf(leaf) => self.enter_leaf(context, node, leaf, place),
            Form::Seq(parts) => self.enter_parts(parts.as_slice(), place),
            Form::Choice(parts) => self.enter_choice(parts.as_slice(), place),
            Form::Many(part) => self.enter_rounds(*part, place),
            Form::Chain(side, used, operand, separator) => {
                self.enter_chain(*side, used, *operand, *separator, place)
            }
            Form::Rule(rule) => self.enter_rule(context.given.grammar, *rule, place),
            Form::Expression(builders, term) => {
                self.enter_expression(context, builders, *term, place)
            }
            Form::Around(around, part) => self.enter_around(around, *part, place),
        }
    }

    /// A leaf, which answers at once.
    #[inline(always)]
    #[tactic(auto, using(crate::proofs::LeafClasses::satisfy_class, crate::proofs::LeafClasses::not_followed_class, crate::proofs::LeafClasses::declare_class))]
    fn enter_leaf(
        &mut self,
        context: Context<'_, 'a>,
        node: NodeId,
        leaf: &'a Leaf<WordId>,
        place: usize,
    ) -> Result<Mode, AllocError>
        requires { slice_get context.given.grammar.now.nodes node ≡ Some (form.Leaf leaf.now) }
        ensures { IfOk result (λ mode. tape_of mode self.new ≡
            on_lists (tape_told (leaf_outcome context.entry.given.grammar.now context.entry.given.text.now leaf.now (spot_at self.old.table place))) self.old) }
    {
        let (grammar, text) = (context.given.grammar, context.given.text);
        match leaf {
            Leaf::Satisfy(class) => self.satisfy(grammar, text, node, class, place),
            Leaf::String(characters) => self.string(text, characters.as_slice(), place),
            Leaf::Word(word) => self.enter_word(grammar, text, *word, place),
            Leaf::NotFollowedBy(class) => {
                self.not_followed_by(grammar, text, node, class, place)
            }
            Leaf::EndOfText => self.end_of_text(text, place),
            Leaf::Declare(class) => self.declare(context, node, class, place),
        }
    }

    /// A form around a part: runs the part.
    #[inline(always)]
    fn enter_around(
        &mut self,
        around: &'a Around,
        part: NodeId,
        place: usize,
    ) -> Result<Mode, AllocError>
        ensures { IfOk result (λ mode. tape_of mode self.new ≡
            tape_at part place (on_around around.now place (tree_count self.old.lists.forest) (length self.old.table.operators)
            ∷ self.old.frames)
            (forest_in around.now self.old.lists.forest) self.old.lists.trail.items self.old.lists.messages self.old.table) }
    {
        let frame = AroundFrame {
            around,
            start: place,
            forest: self.lists.forest.len(),
            operators: self.table.operators().len(),
        };
        begin(around, &mut self.lists.forest)?;
        self.enter_part(Frame::Around(frame), part, place)
    }

    /// Runs a part, with a frame that waits for it.
    #[inline(always)]
    pub(crate) fn enter_part(
        &mut self,
        frame: Frame<'a>,
        part: NodeId,
        place: usize,
    ) -> Result<Mode, AllocError>
        ensures { IfOk result (λ mode. tape_of mode self.new ≡
            tape_at part place (frame_of frame.entry ∷ self.old.frames)
            self.old.lists.forest self.old.lists.trail.items self.old.lists.messages self.old.table) }
    {
        self.push(frame)?;
        Ok(Mode::At(part, place))
    }

    /// A sequence: runs its first part; without parts it is ok.
    #[inline(always)]
    fn enter_parts(&mut self, parts: &'a [NodeId], place: usize) -> Result<Mode, AllocError>
        ensures { IfOk result (λ mode. tape_of mode self.new ≡
            on_lists (tape_seq parts.now place) self.old) }
    {
        match parts.split_first() {
            Some((part, rest)) => {
                let before = None;
                self.enter_part(Frame::Parts(PartsFrame { rest, before }), *part, place)
            }
            None => {
                let error = self.lists.no_messages_at(place);
                let (consumed, end) = (false, place);
                Ok(Mode::With(Reply::Succeeded {
                    consumed,
                    end,
                    error,
                }))
            }
        }
    }

    /// A choice: runs its first alternative.
    #[inline(always)]
    fn enter_choice(&mut self, parts: &'a [NodeId], place: usize) -> Result<Mode, AllocError>
        ensures { IfOk result (λ mode. tape_of mode self.new ≡
            on_lists (tape_next_alternative 1 parts.now place no_tried) self.old) }
    {
        self.next_alternative(1, parts, place, Tried::Nothing)
    }

    /// A repetition: runs its first round.
    #[inline(always)]
    fn enter_rounds(&mut self, part: NodeId, place: usize) -> Result<Mode, AllocError>
        ensures { IfOk result (λ mode. tape_of mode self.new ≡
            on_lists (tape_many part place) self.old) }
    {
        let slot = self.lists.trail.len();
        self.push_item(TrailItem::Rounds(0))?;
        let marks = self.marks()?;
        let messages = self.lists.messages.len();
        let rounds = RoundsFrame {
            part,
            count: 0,
            consumed: false,
            start: place,
            slot,
            marks,
            messages,
        };
        self.enter_part(Frame::Rounds(rounds), part, place)
    }

    /// A chain: runs its first operand.
    #[inline(always)]
    fn enter_chain(
        &mut self,
        side: Side,
        used: &'a ChainBuilder,
        operand: NodeId,
        separator: NodeId,
        place: usize,
    ) -> Result<Mode, AllocError>
        ensures { IfOk result (λ mode. tape_of mode self.new ≡
            on_lists (tape_chain (record { side = side; used = used.now; operand = operand; separator = separator }) place) self.old) }
    {
        let slot = self.lists.trail.len();
        self.push_item(TrailItem::Rounds(0))?;
        let chain = ChainFrame {
            side,
            used,
            operand,
            separator,
            slot,
            forest: self.lists.forest.len(),
        };
        self.enter_part(Frame::First(chain), operand, place)
    }

    /// A use of a rule: runs the rule's body.
    #[inline(always)]
    fn enter_rule(
        &mut self,
        grammar: &'a Grammar,
        rule: RuleId,
        place: usize,
    ) -> Result<Mode, AllocError>
        ensures { IfOk result (λ mode. tape_of mode self.new ≡
            on_lists (tape_rule (slice_get grammar.now.rules rule) place) self.old) }
    {
        match grammar.rules().get(rule.index()) {
            Some(named) => self.enter_part(Frame::Rule, named.body, place),
            None => Ok(Mode::Endless),
        }
    }

    /// A word of the leaf's item.
    #[inline(always)]
    #[tactic(auto, using(pg_grammar_value::proofs::Sites::class_at_head, pg_grammar_value::proofs::Sites::class_at_rest))]
    fn enter_word(
        &mut self,
        grammar: &'a Grammar,
        text: &'a Text,
        word: WordId,
        place: usize,
    ) -> Result<Mode, AllocError>
        ensures { IfOk result (λ mode. tape_of mode self.new ≡
            on_lists (tape_told (leaf_outcome grammar.now text.now (leaf.Word word) (spot_at self.old.table place))) self.old) }
    {
        match item_at(grammar.word_items(), word.index()) {
            Some(item) => self.word(grammar, text, word, item, place),
            None => Ok(Mode::Endless),
        }
    }
}

/// The item with this number, if there is one.
fn item_at<T>(items: &[T], number: usize) -> Option<&T>
    ensures { option_copied result ≡ slice_get items.now number }
{
    items.get(number)
}
