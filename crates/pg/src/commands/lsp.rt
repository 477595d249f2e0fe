//! Serving an editor.

use pg_command_line::VERSION;
use pg_pred::Registry;
use pg_report::{cannot_write, refuse};
use pg_server::{Ended, Server, serve};
use std::alloc::AllocError;
use std::io;
use std::io::{BufReader, Input};

/// The exit status after the end of input without `exit`.
const NO_EXIT: u8 = 1;

/// How many bytes of standard input are read ahead: more than a change of a long grammar file has, so that the next change behind it is seen.
const AHEAD: usize = 1_048_576;

/// Serves an editor over standard input and output. Answers the exit status.
pub(crate) fn serve_editor<R: AllocGlobal + Input + Print + Eprint>(
    rt: &R,
    registry: &Registry,
) -> Result<u8, AllocError> {
    match BufReader::with_capacity(rt.alloc(), AHEAD, rt.reader()) {
        Ok(reader) => serve_input(rt, registry, reader),
        Err(_) => Err(AllocError),
    }
}

/// As `serve_editor`, from what standard input gives.
fn serve_input<R: AllocGlobal + Input + Print + Eprint>(
    rt: &R,
    registry: &Registry,
    reader: BufReader<R::Reader>,
) -> Result<u8, AllocError> {
    let mut reader = reader;
    let mut server = Server::new(rt.alloc(), VERSION);
    let mut writer = io::writer(rt);
    let ended = serve(rt.alloc(), &mut server, registry, &mut reader, &mut writer);
    drop(server);
    drop(reader);
    match ended {
        Ok(ended) => Ok(status_of(rt, ended)),
        Err(error) => Err(error),
    }
}

/// The exit status of a session. Says why it couldn't go on.
fn status_of<R: Eprint>(rt: &R, ended: Ended) -> u8 {
    match ended {
        Ended::Exit(status) => status,
        Ended::NoExit => NO_EXIT,
        Ended::Fault(fault) => refuse(rt, format_args!("pgw: {fault}")),
        Ended::Writer => cannot_write(rt),
    }
}
