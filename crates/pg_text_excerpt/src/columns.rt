//! How many columns of a terminal a character takes.

use std::alloc::AllocError;

/// Ranges of characters that are two columns wide (ours: the wide blocks of Unicode's East Asian Width, and pictures).
const WIDE: [(char, char); 12] = [
    ('\u{1100}', '\u{115f}'),
    ('\u{2e80}', '\u{303e}'),
    ('\u{3041}', '\u{a4cf}'),
    ('\u{a960}', '\u{a97c}'),
    ('\u{ac00}', '\u{d7a3}'),
    ('\u{f900}', '\u{faff}'),
    ('\u{fe30}', '\u{fe6f}'),
    ('\u{ff00}', '\u{ff60}'),
    ('\u{ffe0}', '\u{ffe6}'),
    ('\u{1f300}', '\u{1f64f}'),
    ('\u{1f900}', '\u{1f9ff}'),
    ('\u{20000}', '\u{3fffd}'),
];

/// Ranges of characters that combine with the one before them, or can't be seen.
const WITHOUT_COLUMN: [(char, char); 5] = [
    ('\u{300}', '\u{36f}'),
    ('\u{200b}', '\u{200f}'),
    ('\u{20d0}', '\u{20ff}'),
    ('\u{fe00}', '\u{fe0f}'),
    ('\u{feff}', '\u{feff}'),
];

/// How many columns a character takes. A tab counts as one, since its width depends on the terminal.
pub(crate) fn columns(c: char) -> usize {
    if is_in(&WIDE, c) {
        2
    } else if is_in(&WITHOUT_COLUMN, c) {
        0
    } else {
        1
    }
}

fn is_in(ranges: &[(char, char)], c: char) -> bool {
    ranges.iter().any(|range| range.0 <= c && c <= range.1)
}

/// Whether a character is shown as it is. A control character isn't, since a terminal would obey it.
pub fn is_shown(c: char) -> bool {
    !matches!(c, '\0'..='\u{1f}' | '\u{7f}'..='\u{9f}' | '\u{2028}'..='\u{202e}' | '\u{2066}'..='\u{2069}')
}

/// Pushes a character. A control character other than a tab is replaced by one that stands for it.
pub fn push_shown(page: &mut String, c: char) -> Result<(), AllocError> {
    if is_shown(c) || c == '\t' {
        page.push(c)
    } else {
        page.push('\u{fffd}')
    }
}

/// Pushes blanks as wide as a character.
pub(crate) fn push_room(page: &mut String, c: char) -> Result<(), AllocError> {
    if c == '\t' {
        return page.push('\t');
    }
    push_times(page, ' ', columns(c))
}

/// Pushes a character a number of times.
pub(crate) fn push_times(page: &mut String, c: char, times: usize) -> Result<(), AllocError> {
    for _ in 0..times {
        page.push(c)?;
    }
    Ok(())
}
