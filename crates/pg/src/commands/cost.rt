//! Whether a grammar is accepted, and its step cost if it is.

ghost use Rattle.std.specs.Prelude.{◌≡◌, IfOk};
ghost use Rattle.pg_pred.specs.Offer.{offer_of};
ghost use Rattle.pg_bench_grammar.specs.Loading.{judged_grammar};
ghost use Rattle.pg.specs.Status.{IsCheckStatus, IsJudgedStatus, check_status};

use crate::commands::NO;
use pg_bench_grammar::{Judgement, LoadedFile, check_loaded, load};
use pg_bench_places::{InFront, placed_loaded};
use pg_pred::Registry;
use pg_predict::Checked;
use pg_report::{Handle, Names, print_page, print_report};
use pg_tree::Meter;
use std::alloc::{AllocError, Global};
use std::io;

/// Prints that a grammar is accepted, with its step cost, or its findings. Each line has this prefix, if there is one.
pub(crate) fn check_with_cost<R: AllocGlobal + Print + Eprint>(
    rt: &Handle<R>,
    bytes: &[u8],
    grammar: &str,
    registry: &Registry,
    in_front: Option<InFront>,
) -> Result<u8, AllocError>
    ensures { IfOk result (IsCheckStatus (offer_of registry.now) bytes.now) }
{
    match load(rt.alloc(), grammar, bytes, registry) {
        Ok(loaded) => {
            let status = tell_loaded(rt, &loaded, in_front);
            drop(loaded);
            status
        }
        Err(fault) => print_report(rt, fault, Names::of_grammar(grammar)),
    }
}

/// As `check_with_cost`, for a loaded grammar file.
fn tell_loaded<R: AllocGlobal + Print + Eprint>(
    rt: &Handle<R>,
    loaded: &LoadedFile,
    in_front: Option<InFront>,
) -> Result<u8, AllocError>
    ensures { IfOk result (IsJudgedStatus (judged_grammar loaded.now.judgement)) }
{
    match &loaded.judgement {
        Judgement::Accepted(checked) => tell_cost(rt, checked, loaded.name, in_front),
        Judgement::Refused(_) => tell_refused(rt, loaded, in_front),
    }
}

/// Prints the findings, each after this prefix, if there is one.
fn tell_refused<R: AllocGlobal + Print + Eprint>(
    rt: &Handle<R>,
    loaded: &LoadedFile,
    in_front: Option<InFront>,
) -> Result<u8, AllocError>
    ensures { IfOk result (IsJudgedStatus (judged_grammar loaded.now.judgement)) }
{
    match in_front {
        Some(in_front) => tell_placed(rt, loaded, in_front),
        None => tell_findings(rt, loaded),
    }
}

/// Prints that the grammar in the file with this name is accepted, and its step cost.
#[tactic(auto, using(crate::proofs::Statuses::costed_status))]
fn tell_cost<R: AllocGlobal + Print + Eprint>(
    rt: &Handle<R>,
    checked: &Checked,
    name: &str,
    in_front: Option<InFront>,
) -> Result<u8, AllocError>
    ensures { IfOk result (IsJudgedStatus checked.now.grammar) }
{
    let line = cost_line(rt.alloc(), checked.cost(), name, in_front)?;
    print_page(rt, line.as_str())
}

/// The line of an accepted grammar with this step cost.
fn cost_line(
    alloc: Global,
    cost: u64,
    name: &str,
    in_front: Option<InFront>,
) -> Result<String, AllocError> {
    let line = match in_front {
        Some(InFront::Name | InFront::PlaceOrName) => {
            format!(in alloc; "{name}: accepted, step cost {cost}\n")?
        }
        Some(InFront::Place) | None => format!(in alloc; "accepted, step cost {cost}\n")?,
    };
    Ok(line)
}

/// Prints the findings, each after this prefix.
fn tell_placed<R: AllocGlobal + Print + Eprint>(
    rt: &Handle<R>,
    loaded: &LoadedFile,
    in_front: InFront,
) -> Result<u8, AllocError>
    ensures { IfOk result (IsJudgedStatus (judged_grammar loaded.now.judgement)) }
{
    let mut writer = Meter::new(io::writer(rt));
    match placed_loaded(rt.alloc(), loaded, &mut writer, in_front, false) {
        Ok(is_accepted) => Ok(status_of_check(is_accepted)),
        Err(fault) => print_report(rt, fault, Names::of_grammar(loaded.name)),
    }
}

/// Prints the findings without a prefix.
fn tell_findings<R: AllocGlobal + Print + Eprint>(
    rt: &Handle<R>,
    loaded: &LoadedFile,
) -> Result<u8, AllocError>
    ensures { IfOk result (IsJudgedStatus (judged_grammar loaded.now.judgement)) }
{
    let mut writer = Meter::new(io::writer(rt));
    match check_loaded(rt.alloc(), loaded, &mut writer, false) {
        Ok(accepted) => Ok(status_of_check(accepted)),
        Err(fault) => print_report(rt, fault, Names::of_grammar(loaded.name)),
    }
}

/// The exit status of a check.
fn status_of_check(accepted: bool) -> u8
    ensures { result ≡ check_status accepted }
{
    if accepted { 0 } else { NO }
}
