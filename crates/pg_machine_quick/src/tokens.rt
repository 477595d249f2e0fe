//! Tokens at once: a form `text` around a leaf and all characters of a class that come after it, as in `text(many1(satisfy(digit)))`.
//!
//! The code of one takes a frame and five turns for what is one look at the text. Here it is one turn, which leads where these five do.

ghost use Rattle.std.specs.Prelude.{◌≡◌, ◌≤◌, ◌+◌, Some, length, take, drop, slice_get, IfOk, IfSome};
ghost use Rattle.pg_grammar_form.specs.declared.form.Around.TheVariants.{Build};
ghost use Rattle.pg_language.specs.Derives.{made_by};
ghost use Rattle.pg_machine_plan.specs.declared.instruction.Keep.TheVariants.{Kept};
ghost use Rattle.pg_machine_plan.specs.declared.instruction.Instruction.TheVariants.{Open};
ghost use Rattle.pg_machine_quick.specs.Landmarks.{IsToken, IsWrapped};
ghost use Rattle.pg_machine_quick.specs.Looks.{Leads};
ghost use Rattle.pg_machine_quick.specs.Running.{shown, Does};
ghost use Rattle.pg_machine_quick.specs.Tape.{tape, tape_goes};
ghost use Rattle.pg_machine_quick.specs.Tokens.{IsOfClass, IsTaken, IsText, IsWithin, Takes, TakesAll, built_tape, tape_wrapped, token_tape, wrapped_tape};
ghost use Rattle.pg_machine_quick.specs.Turns.{added};

use crate::context::Context;
use crate::frame::Before;
use crate::landmarks::Landmark;
use crate::reading::{Reading, counted, reading_at};
use crate::running::Running;
use crate::step::Step;
use crate::trees::{make, push};
use pg_grammar_classes::ClassSite;
use pg_grammar_form::{Around, BuilderUse, Form, Leaf, NodeId};
use pg_machine_plan::{Instruction, Keep, Plan};
use pg_text::Text;
use std::alloc::AllocError;

/// The code of a token, behind the beginning of its form.
#[derive(Clone, Copy)]
pub struct Token {
    /// The leaf.
    pub first: NodeId,
    /// The leaf of whose class all characters are taken after it.
    pub rest: NodeId,
    /// Whether the token's leaf is kept.
    pub keep: Keep,
    /// The form.
    pub node: NodeId,
}

/// The code of a form around a token, behind its beginning: a builder's, as in `build(num, text(many1(satisfy(digit))))`.
#[derive(Clone, Copy)]
pub struct Wrapped {
    /// The token.
    pub token: Token,
    /// Whether the form's trees are kept.
    pub keep: Keep,
    /// The form.
    pub node: NodeId,
}

/// What a token takes.
#[derive(Clone, Copy)]
pub struct Taken<'r> {
    /// Its characters.
    pub characters: &'r [char],
    /// How many of them come after those of its leaf.
    pub more: usize,
}

impl<'a> Running<'a> {
    /// Begins a form around a part, or takes a token or a form around one at once.
    pub(crate) fn begin_form(
        &mut self,
        context: Context<'_>,
        counts: bool,
    ) -> Result<Step, AllocError>
        requires { slice_get context.plan.now.code self.old.pc ≡ Some (Open counts) }
        ensures { IfOk result (λ step. Leads context.entry (shown self.old) step (shown self.new)) }
    {
        match context.plan.landmark(self.pc) {
            Some(Landmark::BeginsToken(token)) => self.begin_token(context, counts, *token),
            Some(Landmark::BeginsWrapped(wrapped)) => {
                self.begin_wrapped(context, counts, *wrapped)
            }
            Some(Landmark::Plain | Landmark::EndsRow(_) | Landmark::BeginsPrefixes(_)) | None => {
                self.begin_part(context, counts)
            }
        }
    }

    /// Takes a form around a token at once, or begins it where the token's leaf doesn't take anything.
    fn begin_wrapped(
        &mut self,
        context: Context<'_>,
        counts: bool,
        wrapped: Wrapped,
    ) -> Result<Step, AllocError>
        requires begin { slice_get context.plan.now.code self.old.pc ≡ Some (Open counts) }
        requires wrapped { IsWrapped context.plan.now self.old.pc wrapped }
        ensures { IfOk result (λ step. Leads context.entry (shown self.old) step (shown self.new)) }
    {
        match taken_at(context, wrapped.token, self.place) {
            Some(taken) => self.take_wrapped(context, wrapped, taken),
            None => self.begin_part(context, counts),
        }
    }

    /// Takes a token at once, or begins its form where its leaf doesn't take anything.
    fn begin_token(
        &mut self,
        context: Context<'_>,
        counts: bool,
        token: Token,
    ) -> Result<Step, AllocError>
        requires begin { slice_get context.plan.now.code self.old.pc ≡ Some (Open counts) }
        requires token { IsToken context.plan.now self.old.pc token }
        ensures { IfOk result (λ step. Leads context.entry (shown self.old) step (shown self.new)) }
    {
        let keep = token.keep;
        match taken_at(context, token, self.place) {
            Some(taken) => self.take_token(keep, taken),
            None => self.begin_part(context, counts),
        }
    }

    /// Begins a form around a part.
    fn begin_part(&mut self, context: Context<'_>, counts: bool) -> Result<Step, AllocError>
        requires { slice_get context.plan.now.code self.old.pc ≡ Some (Open counts) }
        ensures { IfOk result (λ step. Leads context.entry (shown self.old) step (shown self.new)) }
    {
        self.open(counts)
    }

    /// A form around a token has taken these characters.
    fn take_wrapped(
        &mut self,
        context: Context<'_>,
        wrapped: Wrapped,
        taken: Taken<'_>,
    ) -> Result<Step, AllocError>
        requires { IsWithin self.old.place taken }
        ensures { IfOk result (λ step. Does (tape_wrapped context.entry wrapped taken.entry (shown self.old) (slice_get context.entry.grammar.now.nodes wrapped.node)) step (shown self.new)) }
    {
        match context.grammar.nodes().get(wrapped.node.index()) {
            Some(Form::Around(around, _)) => self.take_around(context.text, wrapped, around, taken),
            Some(
                Form::Leaf(_)
                | Form::Seq(_)
                | Form::Choice(_)
                | Form::Many(_)
                | Form::Chain(_, _, _, _)
                | Form::Rule(_)
                | Form::Expression(_, _),
            )
            | None => Ok(Step::GivesUp),
        }
    }

    /// The same, where this is the form.
    fn take_around(
        &mut self,
        text: &Text,
        wrapped: Wrapped,
        around: &Around,
        taken: Taken<'_>,
    ) -> Result<Step, AllocError>
        requires { IsWithin self.old.place taken }
        ensures { IfOk result (λ step. Does (tape_goes (wrapped_tape text.now wrapped around.now (shown self.old) taken.entry.characters.now taken.entry.more)) step (shown self.new)) }
    {
        match (wrapped.keep, wrapped.token.keep) {
            (Keep::Kept, Keep::Kept) => self.take_kept(text, wrapped, around, taken),
            (Keep::Hidden, Keep::Kept | Keep::Hidden) | (Keep::Kept, Keep::Hidden) => {
                self.take_apart(text, wrapped, around, taken)
            }
        }
    }

    /// The same, where the trees of both are kept.
    fn take_kept(
        &mut self,
        text: &Text,
        wrapped: Wrapped,
        around: &Around,
        taken: Taken<'_>,
    ) -> Result<Step, AllocError>
        requires within { IsWithin self.old.place taken }
        requires form { wrapped.keep ≡ Kept }
        requires token { wrapped.token.keep ≡ Kept }
        ensures { IfOk result (λ step. Does (tape_goes (wrapped_tape text.now wrapped around.now (shown self.old) taken.entry.characters.now taken.entry.more)) step (shown self.new)) }
    {
        match around {
            Around::Build(used, symbol) => self.take_built(used, symbol.as_str(), taken),
            Around::Try | Around::Text | Around::Skip | Around::Label(_) | Around::Local => {
                self.take_apart(text, wrapped, around, taken)
            }
        }
    }

    /// A builder around a token has taken these characters: one tree with one leaf.
    fn take_built(
        &mut self,
        used: &BuilderUse,
        symbol: &str,
        taken: Taken<'_>,
    ) -> Result<Step, AllocError>
        requires { IsWithin self.old.place taken }
        ensures { IfOk result (λ step. Does (tape_goes (built_tape used.now symbol.now (shown self.old) taken.entry.characters.now taken.entry.more)) step (shown self.new)) }
    {
        let Some(pc) = self.pc.checked_add(7) else {
            return Ok(Step::GivesUp);
        };
        let Some(nodes) = self.nodes.checked_add(taken.more + 6) else {
            return Ok(Step::GivesUp);
        };
        let place = self.place + taken.characters.len();
        if !self
            .trees
            .push_built(&used.shape, symbol, taken.characters, self.place)?
        {
            return Ok(Step::GivesUp);
        }
        self.pc = pc;
        self.place = place;
        self.nodes = nodes;
        self.taken = true;
        Ok(Step::GoesOn)
    }

    /// A form around a token has taken these characters: first the token, and then what the form does with its tree.
    #[inline(never)]
    fn take_apart(
        &mut self,
        text: &Text,
        wrapped: Wrapped,
        around: &Around,
        taken: Taken<'_>,
    ) -> Result<Step, AllocError>
        ensures { IfOk result (λ step. Does (tape_goes (wrapped_tape text.now wrapped around.now (shown self.old) taken.entry.characters.now taken.entry.more)) step (shown self.new)) }
    {
        let Some(before) = self.before() else {
            return Ok(Step::GivesUp);
        };
        match self.take_token(wrapped.token.keep, taken)? {
            Step::GoesOn => self.end_around(text, wrapped.keep, around, before),
            Step::GivesUp | Step::Stops => Ok(Step::GivesUp),
        }
    }

    /// Ends a form around a token, before which it was so.
    fn end_around(
        &mut self,
        text: &Text,
        keep: Keep,
        around: &Around,
        before: Before,
    ) -> Result<Step, AllocError>
        ensures { IfOk result (λ step. Does (tape_goes (tape (self.old.pc + 2) self.old.place (shown self.old).stack (added keep (take before.trees self.old.trees)
            (made_by around.now text.now before.place self.old.place (drop before.trees self.old.trees))) (self.old.nodes + 1) self.old.taken)) step (shown self.new)) }
    {
        let (Some(pc), Some(nodes)) = (self.pc.checked_add(2), self.nodes.checked_add(1)) else {
            return Ok(Step::GivesUp);
        };
        if before.trees as usize > self.trees.len()
            || before.place as usize > self.place
            || self.place > text.len()
        {
            return Ok(Step::GivesUp);
        }
        if !make(&mut self.trees, keep, around, text, before, self.place)? {
            return Ok(Step::GivesUp);
        }
        self.pc = pc;
        self.nodes = nodes;
        Ok(Step::GoesOn)
    }

    /// A token has taken these characters: they are one leaf.
    fn take_token(&mut self, keep: Keep, taken: Taken<'_>) -> Result<Step, AllocError>
        ensures { IfOk result (λ step. Does (tape_goes (token_tape keep (shown self.old) taken.entry.characters.now taken.entry.more)) step (shown self.new)) }
    {
        let Some(pc) = self.pc.checked_add(5) else {
            return Ok(Step::GivesUp);
        };
        let Some(place) = self.place.checked_add(taken.characters.len()) else {
            return Ok(Step::GivesUp);
        };
        let Some(entered) = taken.more.checked_add(5) else {
            return Ok(Step::GivesUp);
        };
        let Some(nodes) = self.nodes.checked_add(entered) else {
            return Ok(Step::GivesUp);
        };
        if !push(&mut self.trees, keep, taken.characters, self.place)? {
            return Ok(Step::GivesUp);
        }
        self.pc = pc;
        self.place = place;
        self.nodes = nodes;
        self.taken = true;
        Ok(Step::GoesOn)
    }
}

/// The token whose form begins there, if its code is one's.
pub(crate) fn token_at(plan: &Plan, pc: usize) -> Option<Token>
    ensures { IfSome result (IsToken plan.now pc) }
{
    let second = pc.checked_add(1)?;
    let Some(Instruction::Enter) = plan.code().get(second) else {
        return None;
    };
    let third = second.checked_add(1)?;
    let Some(Instruction::Read(Keep::Hidden, first)) = plan.code().get(third) else {
        return None;
    };
    let fourth = third.checked_add(1)?;
    let Some(Instruction::Span(Keep::Hidden, rest)) = plan.code().get(fourth) else {
        return None;
    };
    let fifth = fourth.checked_add(1)?;
    let Some(Instruction::Close(keep, node)) = plan.code().get(fifth) else {
        return None;
    };
    Some(Token {
        first: *first,
        rest: *rest,
        keep: *keep,
        node: *node,
    })
}

/// The form around a token that begins there, if its code is one's.
pub(crate) fn wrapped_at(plan: &Plan, pc: usize) -> Option<Wrapped>
    ensures { IfSome result (IsWrapped plan.now pc) }
{
    let inner = pc.checked_add(1)?;
    let Some(Instruction::Open(_)) = plan.code().get(inner) else {
        return None;
    };
    let token = token_at(plan, inner)?;
    let Some(Instruction::Close(keep, node)) = plan.code().get(inner.checked_add(5)?) else {
        return None;
    };
    Some(Wrapped {
        token,
        keep: *keep,
        node: *node,
    })
}

/// What a token takes at a place of the text. None where its leaf doesn't take anything, or where its form isn't `text`.
#[inline(always)]
fn taken_at<'r>(context: Context<'r>, token: Token, place: usize) -> Option<Taken<'r>>
    ensures taken { IfSome result (IsTaken context.entry token place) }
    ensures within { IfSome result (IsWithin place) }
{
    let _part = text_at(context, token.node)?;
    let first = taken_first(context, token.first, place)?;
    let more = taken_more(context, token.rest, place.checked_add(first)?)?.len();
    let characters = stretch(context.text.characters(), place, first + more);
    Some(Taken { characters, more })
}

/// So many characters from a place on.
#[inline(always)]
fn stretch(characters: &[char], place: usize, count: usize) -> &[char]
    requires { place + count ≤ length characters.now }
    ensures all { result.now ≡ take count (drop place characters.now) }
    ensures count { length result.now ≡ count }
{
    &characters[place..place + count]
}

/// How many characters the leaf at a node takes at a place, if it takes any.
#[inline(always)]
fn taken_first(context: Context<'_>, node: NodeId, place: usize) -> Option<usize>
    ensures { IfSome result (Takes context.entry node place) }
{
    match context.grammar.nodes().get(node.index())? {
        Form::Leaf(Leaf::Satisfy(_)) => taken_one(context, node, place),
        Form::Leaf(
            Leaf::String(_)
            | Leaf::Word(_)
            | Leaf::NotFollowedBy(_)
            | Leaf::EndOfText
            | Leaf::Declare(_),
        ) => taken_by_leaf(context, node, place),
        Form::Seq(_)
        | Form::Choice(_)
        | Form::Many(_)
        | Form::Chain(_, _, _, _)
        | Form::Rule(_)
        | Form::Expression(_, _)
        | Form::Around(_, _) => None,
    }
}

/// The same where the leaf is of a class: one character of it.
#[inline(always)]
fn taken_one(context: Context<'_>, node: NodeId, place: usize) -> Option<usize>
    requires { IsOfClass context.grammar.now node }
    ensures { IfSome result (Takes context.entry node place) }
{
    let c = context.text.char_at(place)?;
    if context.grammar.contains(ClassSite::Node(node), c) {
        Some(1)
    } else {
        None
    }
}

/// The same of any leaf.
#[inline(never)]
fn taken_by_leaf(context: Context<'_>, node: NodeId, place: usize) -> Option<usize>
    ensures { IfSome result (Takes context.entry node place) }
{
    let found = context.grammar.nodes().get(node.index())?;
    match reading_at(context.grammar, context.text, node, found, place)? {
        Reading::Took(count) => Some(count),
        Reading::Nothing | Reading::Failed(_) => None,
    }
}

/// All characters from a place on of the class of the leaf at a node, one after another. None where the leaf has no class, or where the text has no such
/// place.
#[inline(always)]
fn taken_more<'r>(context: Context<'r>, node: NodeId, place: usize) -> Option<&'r [char]>
    ensures all { IfSome result (λ cs. TakesAll context.entry node place cs.now) }
    ensures within { IfSome result (λ cs. place + length cs.now ≤ length context.entry.text.now) }
{
    let characters = context.text.characters();
    if place > characters.len() {
        return None;
    }
    let rest = &characters[place..];
    match context.grammar.nodes().get(node.index()) {
        Some(Form::Leaf(Leaf::Satisfy(_))) => {
            let count = counted(context.grammar, ClassSite::Node(node), rest);
            Some(&rest[..count])
        }
        Some(
            Form::Leaf(
                Leaf::String(_)
                | Leaf::Word(_)
                | Leaf::NotFollowedBy(_)
                | Leaf::EndOfText
                | Leaf::Declare(_),
            )
            | Form::Seq(_)
            | Form::Choice(_)
            | Form::Many(_)
            | Form::Chain(_, _, _, _)
            | Form::Rule(_)
            | Form::Expression(_, _)
            | Form::Around(_, _),
        )
        | None => None,
    }
}

/// The part of the form at a node, if that is a form `text`.
#[inline(always)]
fn text_at(context: Context<'_>, node: NodeId) -> Option<NodeId>
    ensures { IfSome result (λ part. IsText context.entry node) }
{
    match context.grammar.nodes().get(node.index()) {
        Some(Form::Around(Around::Text, part)) => Some(*part),
        Some(
            Form::Around(
                Around::Try | Around::Skip | Around::Build(_, _) | Around::Label(_) | Around::Local,
                _,
            )
            | Form::Leaf(_)
            | Form::Seq(_)
            | Form::Choice(_)
            | Form::Many(_)
            | Form::Chain(_, _, _, _)
            | Form::Rule(_)
            | Form::Expression(_, _),
        )
        | None => None,
    }
}
