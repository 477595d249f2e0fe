//! The limit on an operator's symbol, and the precedences. A grammar says how many operators a table may hold.

/// The most characters of a symbol.
pub const SYMBOL_LIMIT: usize = 16;

/// The precedences, the tightest first.
pub const PRECEDENCES: [u8; 10] = [9, 8, 7, 6, 5, 4, 3, 2, 1, 0];
