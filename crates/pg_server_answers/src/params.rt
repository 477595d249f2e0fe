//! The parameters of requests.

use pg_server_positions::Position;
use serde_json::Value;

/// The position that is asked about.
pub(crate) fn position_of(params: &Value) -> Option<Position> {
    position_in(params.get("position")?)
}

/// The position that a value is.
pub(crate) fn position_in(position: &Value) -> Option<Position> {
    let line = position.get("line")?.as_u64()?;
    let unit = position.get("character")?.as_u64()?;
    Some(Position {
        line: line as usize,
        unit: unit as usize,
    })
}

/// The beginning and the end of the range that is asked about.
pub(crate) fn range_of(params: &Value) -> Option<(Position, Position)> {
    let range = params.get("range")?;
    let start = position_in(range.get("start")?)?;
    let end = position_in(range.get("end")?)?;
    Some((start, end))
}

/// Whether quick fixes are among the kinds of actions that are asked for. All are where no kinds are named.
pub(crate) fn wants_fixes(params: &Value) -> bool {
    match params.pointer("/context/only") {
        Some(Value::Array(kinds)) => kinds.iter().any(is_of_fixes),
        Some(_) | None => true,
    }
}

/// Whether a kind of actions has quick fixes.
fn is_of_fixes(kind: &Value) -> bool {
    match kind.as_str() {
        Some(kind) => kind.is_empty() || kind == "quickfix",
        None => false,
    }
}

/// The new name that is asked for.
pub(crate) fn new_name(params: &Value) -> Option<&str> {
    params.get("newName")?.as_str()
}

/// Whether definitions are asked for beside uses.
pub(crate) fn wants_declaration(params: &Value) -> bool {
    match params.pointer("/context/includeDeclaration") {
        Some(wants) => wants.as_bool() == Some(true),
        None => false,
    }
}
