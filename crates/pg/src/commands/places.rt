//! Trees of a text with places.

ghost use Rattle.std.specs.Prelude.{◌≡◌, ◌⊎◌, IfOk};
ghost use Rattle.pg_pred.specs.Offer.{offer_of};
ghost use Rattle.pg_grammar_value.specs.Fits.{Fits};
ghost use Rattle.pg_table.specs.Tables.{initial, whole};
ghost use Rattle.pg.specs.Status.{IsTextStatus};

use crate::commands::parse::tell_steps;
use pg_bench::{BenchFault, ParsedText, parsed_text};
use pg_bench_grammar::AcceptedGrammar;
use pg_command_line::Steps;
use pg_pred::Registry;
use pg_report::{Handle, Names, UNUSABLE, print_report, say};
use pg_trail_places::{DerivedText, PlacesFault, write_placed};
use pg_tree::Meter;
use std::alloc::AllocError;
use std::io;
use std::io::Read;

/// Parses the text that a file gives by a loaded grammar, and prints its forest with places.
pub(crate) fn places_text<F: Read + Drop, R: AllocGlobal + Print + Eprint>(
    rt: &Handle<R>,
    accepted: &AcceptedGrammar,
    file: F,
    names: Names,
    registry: &Registry,
    steps: Steps,
) -> Result<u8, AllocError>
    requires fits { Fits (offer_of registry.now) accepted.now.checked.grammar }
    requires table { initial accepted.now.checked.grammar ≡ whole accepted.now.table }
    ensures { IfOk result (IsTextStatus accepted.now.checked.grammar (F.remaining file)) }
{
    let mut reader = Meter::new(file);
    match parsed_text(rt.alloc(), accepted, registry, &mut reader) {
        Ok(parsed) => {
            tell_steps(rt, parsed.parse.done, names.text, steps);
            print_places(rt, accepted, parsed, names)
        }
        Err(fault) => print_report(rt, fault, names),
    }
}

/// Prints the forest of a text that was parsed, with places.
fn print_places<R: AllocGlobal + Print + Eprint>(
    rt: &Handle<R>,
    accepted: &AcceptedGrammar,
    parsed: ParsedText,
    names: Names,
) -> Result<u8, AllocError>
    ensures { IfOk result (λ status. (status ≡ 0) ⊎ (status ≡ UNUSABLE)) }
{
    let status = print_placed(rt, accepted, &parsed, names);
    drop(parsed);
    status
}

/// As `print_places`, of a text that is lent.
fn print_placed<R: AllocGlobal + Print + Eprint>(
    rt: &Handle<R>,
    accepted: &AcceptedGrammar,
    parsed: &ParsedText,
    names: Names,
) -> Result<u8, AllocError>
    ensures { IfOk result (λ status. (status ≡ 0) ⊎ (status ≡ UNUSABLE)) }
{
    let derived = DerivedText {
        grammar: accepted.checked.as_checked().grammar(),
        table: &accepted.table,
        text: &parsed.text,
        trail: &parsed.parse.success.trail,
    };
    let mut writer = Meter::new(io::writer(rt));
    match write_placed(
        rt.alloc(),
        &derived,
        &parsed.parse.success.forest,
        &mut writer,
    ) {
        Ok(()) => Ok(0),
        Err(PlacesFault::Writer) => print_report(rt, BenchFault::Writer, names),
        Err(PlacesFault::Memory) => Err(AllocError),
        Err(PlacesFault::NoPlaces) => {
            say(
                rt,
                format_args!("{}: no places found for its trees", names.text),
            );
            Ok(UNUSABLE)
        }
    }
}
