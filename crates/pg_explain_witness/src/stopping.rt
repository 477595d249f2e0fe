//! Whether a run gets stuck at a node as noted, asked once more of the machine so that it is proved.

ghost use Rattle.std.specs.Prelude.{◌≡◌, true, IfOk, IfSome};
ghost use Rattle.pg_pred.specs.Offer.{offer_of};
ghost use Rattle.pg_grammar_value.specs.Fits.{Fits};
ghost use Rattle.pg_language.specs.Answers.{given};
ghost use Rattle.pg_language.specs.declared.reading.Reading.TheVariants.{Library};
ghost use Rattle.pg_explain_witness.specs.Stopping.{IsReentered, LinkIdles, NeverEndsAt, RoundIdles};

use crate::answering::{Link, Manner, answers_so, comes_again, operand_answers_so, table_at};
use crate::asks::Shows;
use crate::halting::Halt;
use crate::judging::Case;
use crate::losing::form_of;
use pg_grammar_form::Form;
use std::alloc::{AllocError, Global};

/// The place where a round of the finding's node consumes nothing, if one does as noted.
pub(crate) fn idle_round(
    alloc: Global,
    case: &Case<'_>,
    halt: Option<Halt>,
) -> Result<Option<usize>, AllocError>
    requires { Fits (offer_of case.now.registry.now) case.now.grammar.now }
    ensures { IfOk result (λ found. IfSome found (RoundIdles (given Library case.now.grammar.now case.now.text.now) case.now.table.now case.now.node)) }
{
    match halt {
        Some(halt) => {
            let idles = round_idles(alloc, case, halt)?;
            Ok(if idles { Some(halt.place) } else { None })
        }
        None => Ok(None),
    }
}

/// The place where the run never leaves the finding's node, if that is so as noted.
pub(crate) fn endless_at(
    alloc: Global,
    case: &Case<'_>,
    halt: Option<Halt>,
    shows: Shows,
) -> Result<Option<usize>, AllocError>
    requires { Fits (offer_of case.now.registry.now) case.now.grammar.now }
    ensures { IfOk result (λ found. IfSome found (NeverEndsAt (given Library case.now.grammar.now case.now.text.now) case.now.table.now case.now.node)) }
{
    match halt {
        Some(halt) => {
            let never_ends = never_ends(alloc, case, halt, shows)?;
            Ok(if never_ends { Some(halt.place) } else { None })
        }
        None => Ok(None),
    }
}

/// Whether the run never leaves the node, as noted.
fn never_ends(alloc: Global, case: &Case<'_>, halt: Halt, shows: Shows) -> Result<bool, AllocError>
    requires { Fits (offer_of case.now.registry.now) case.now.grammar.now }
    ensures { IfOk result (λ never_ends. never_ends ≡ true →
        NeverEndsAt (given Library case.now.grammar.now case.now.text.now) case.now.table.now case.now.node halt.place) }
{
    match shows {
        Shows::Reentry => is_reentered(alloc, case, halt),
        Shows::Loss | Shows::EmptyLink | Shows::EmptyRound => link_idles(alloc, case, halt),
    }
}

/// Whether the node is entered again at its place, as noted.
fn is_reentered(alloc: Global, case: &Case<'_>, halt: Halt) -> Result<bool, AllocError>
    requires { Fits (offer_of case.now.registry.now) case.now.grammar.now }
    ensures { IfOk result (λ is. is ≡ true →
        IsReentered (given Library case.now.grammar.now case.now.text.now) case.now.table.now case.now.node halt.place) }
{
    match table_at(alloc, case, case.node, halt.place, halt.entered)? {
        Some(under) => comes_again(alloc, case, case.node, halt.place, under, halt.again),
        None => Ok(false),
    }
}

/// Whether the node is a repetition and a round of it consumes nothing, as noted.
fn round_idles(alloc: Global, case: &Case<'_>, halt: Halt) -> Result<bool, AllocError>
    requires { Fits (offer_of case.now.registry.now) case.now.grammar.now }
    ensures { IfOk result (λ idles. idles ≡ true →
        RoundIdles (given Library case.now.grammar.now case.now.text.now) case.now.table.now case.now.node halt.place) }
{
    let Some(Form::Many(part)) = form_of(case.grammar, case.node) else {
        return Ok(false);
    };
    match table_at(alloc, case, *part, halt.place, halt.entered)? {
        Some(under) => answers_so(alloc, case, *part, halt.place, under, Manner::Idle),
        None => Ok(false),
    }
}

/// Whether the node is a chain and a link of it consumes nothing, as noted.
fn link_idles(alloc: Global, case: &Case<'_>, halt: Halt) -> Result<bool, AllocError>
    requires { Fits (offer_of case.now.registry.now) case.now.grammar.now }
    ensures { IfOk result (λ idles. idles ≡ true →
        LinkIdles (given Library case.now.grammar.now case.now.text.now) case.now.table.now case.now.node halt.place) }
{
    let Some(Form::Chain(_, _, operand, separator)) = form_of(case.grammar, case.node) else {
        return Ok(false);
    };
    let Some(under) = table_at(alloc, case, *separator, halt.place, halt.entered)? else {
        return Ok(false);
    };
    let link = Link {
        separator: *separator,
        operand: *operand,
    };
    operand_answers_so(alloc, case, link, halt.place, under, Manner::Idle)
}
