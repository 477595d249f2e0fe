//! Replaying trails over a text.

ghost use Rattle.std.specs.Prelude.{IfOk};
ghost use Rattle.pg_pred.specs.Offer.{offer_of};
ghost use Rattle.pg.specs.Status.{IsReplayStatus};

use crate::commands::NO;
use pg_bench::replay_bytes;
use pg_pred::Registry;
use pg_report::{Handle, Names, UNUSABLE, inputs_with_trail, print_report};
use pg_tree::Meter;
use std::alloc::AllocError;
use std::io;
use std::io::{Input, Read};
use std::rt::Files;

/// Replays the trail in a file over the text in another, by the grammar in a third.
pub(crate) fn replay_files<R: AllocGlobal + Files + Input + Print + Eprint>(
    rt: &Handle<R>,
    grammar: &str,
    text: &str,
    trail: &str,
    registry: &Registry,
) -> Result<u8, AllocError> {
    match inputs_with_trail(rt, grammar, text, trail)? {
        Some((bytes, file, items)) => {
            let names = Names {
                grammar,
                text,
                trail,
            };
            replay_text(
                rt,
                bytes.as_slice(),
                file,
                items.as_slice(),
                names,
                registry,
            )
        }
        None => Ok(UNUSABLE),
    }
}

/// As `replay_files`, over the text that an open file gives.
fn replay_text<F: Read + Drop, R: AllocGlobal + Print + Eprint>(
    rt: &Handle<R>,
    bytes: &[u8],
    file: F,
    items: &[u8],
    names: Names,
    registry: &Registry,
) -> Result<u8, AllocError>
    ensures { IfOk result (IsReplayStatus (offer_of registry.now) bytes.now (F.remaining file) names.entry.text.now items.now) }
{
    let mut reader = Meter::new(file);
    let mut writer = Meter::new(io::writer(rt));
    match replay_bytes(
        rt.alloc(),
        bytes,
        registry,
        names.text,
        &mut reader,
        items,
        &mut writer,
    ) {
        Ok(true) => Ok(0),
        Ok(false) => Ok(NO),
        Err(fault) => print_report(rt, fault, names),
    }
}
