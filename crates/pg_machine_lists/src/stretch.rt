//! Operations on a stretch of an expression: further messages after it, and operators noted and applied.

ghost use Rattle.std.specs.Prelude.{◌≡◌, ◌∷◌, [], Some, IfOk, OnOk};
ghost use Rattle.std.specs.Str.{encode_utf8_all};
ghost use Rattle.pg_pred.specs.Offer.{offer_of, builder_shape};
ghost use Rattle.pg_machine_lists.specs.RunTrees.{built_after};
ghost use Rattle.pg_grammar_value.specs.declared.trail.TrailItem.TheVariants.{Ops};
ghost use Rattle.pg_machine_lists.specs.TapeLevels.{said_after, after_kept, noted_read, with_read};
ghost use Rattle.pg_machine_lists.specs.ViewLevels.{said_of, stretch_of};

use crate::build::build_after;
use crate::level::{Context, Stretch};
use crate::lists::Lists;
use crate::run_forest::RunForest;
use crate::said::{Said, merge_said};
use pg_grammar_form::BuilderUse;
use pg_grammar_value::{AppliedOperator, AppliedOperators, Fixity, TrailItem};
use pg_message_tape::KeptError;
use pg_text::{Characters, utf8};
use std::alloc::{AllocError, Global};

impl<'a> Lists<'a> {
    /// Merges further messages with the error of the stretch.
    pub(crate) fn said_after(
        &mut self,
        said: Said<'a>,
        stretch: Stretch,
    ) -> Result<Stretch, AllocError>
        ensures stretch { IfOk result (λ after. stretch_of after self.new ≡ said_after (said_of said.entry) (stretch_of stretch self.old)) }
        ensures place { IfOk result (λ after. after.place ≡ stretch.place) }
    {
        let error = merge_said(&mut self.messages, said, stretch.error)?;
        Ok(Stretch {
            consumed: stretch.consumed,
            place: stretch.place,
            error,
        })
    }

    /// Puts the error of the stretch after a kept one, unless the stretch consumed. `consumed` says whether what precedes the stretch consumed.
    pub(crate) fn after_kept(
        &mut self,
        consumed: bool,
        kept: KeptError,
        stretch: Stretch,
    ) -> Result<Stretch, AllocError>
        ensures stretch { IfOk result (λ after. stretch_of after self.new ≡ after_kept consumed kept (stretch_of stretch self.old)) }
        ensures place { IfOk result (λ after. after.place ≡ stretch.place) }
    {
        let error = self.error_after(kept, stretch.consumed, stretch.error)?;
        Ok(Stretch {
            consumed: consumed || stretch.consumed,
            place: stretch.place,
            error,
        })
    }
}

/// Adds the operator to the item at an index of the trail.
pub(crate) fn note_read(
    alloc: Global,
    trail: &mut Vec<TrailItem>,
    slot: usize,
    fixity: Fixity,
    symbol: &[char],
) -> Result<(), AllocError>
    ensures { OnOk result (trail.new.items ≡ noted_read slot (record { fixity = fixity; symbol = symbol.now }) trail.old.items) }
{
    let symbol = Characters::new(Vec::from_slice(alloc, symbol)?);
    let operator = AppliedOperator { fixity, symbol };
    if slot < trail.len() {
        add_read(alloc, &mut trail[slot], operator)?;
    }
    Ok(())
}

/// Adds the operator to the item; an item of another kind is replaced.
fn add_read(
    alloc: Global,
    item: &mut TrailItem,
    operator: AppliedOperator,
) -> Result<(), AllocError>
    ensures { OnOk result (item.new ≡ with_read (Some item.old) operator) }
{
    match item {
        TrailItem::Ops(operators) => operators.push(operator),
        TrailItem::Alt(_) => {
            *item = one_read(alloc, operator)?;
            Ok(())
        }
        TrailItem::Rounds(_) => {
            *item = one_read(alloc, operator)?;
            Ok(())
        }
    }
}

/// An item with one operator.
fn one_read(alloc: Global, operator: AppliedOperator) -> Result<TrailItem, AllocError>
    ensures { IfOk result (λ item. item ≡ Ops (operator ∷ [])) }
{
    let mut operators = Vec::new(alloc);
    operators.push(operator)?;
    Ok(TrailItem::Ops(AppliedOperators::new(alloc, operators)?))
}

/// Builds the trees after the first ones into one, if trees are kept, by the builder with the symbol.
pub(crate) fn apply(
    context: Context<'_, '_>,
    used: &BuilderUse,
    symbol: &[char],
    count: usize,
    forest: &mut RunForest,
) -> Result<(), AllocError>
    requires { builder_shape (offer_of context.registry.now) used.now.name ≡ Some used.now.shape }
    ensures { OnOk result (forest.new ≡ built_after used.now.shape (encode_utf8_all symbol.now) count forest.old) }
{
    if !forest.keeps() {
        return forest.count_as_one(count);
    }
    let symbol = utf8(context.alloc, symbol)?;
    build_after(context.registry, used, symbol.as_str(), count, forest)
}
