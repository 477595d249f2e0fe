//! The recipes.

/// A part of the page on findings. It says how to write an idiom so that it is accepted, or which similar one to write if it can't be.
#[derive(Clone, Copy, Debug, PartialEq, Eq)]
pub enum Recipe {
    /// Two strings begin alike.
    AlikeStrings,
    /// A keyword beside words that could be the same keyword.
    Keyword,
    /// `x = e` beside `e`.
    Assignment,
    /// Nodes that begin with the same word.
    AlikeNodes,
    /// An `else` that belongs to the nearest `if`.
    NearestElse,
    /// A run that reads as much as it can.
    Greedy,
    /// A text that ends at the next quote.
    Quote,
    /// A text that ends with several characters.
    LongEnd,
    /// A comment that ends with its line, or with the text.
    LineComment,
    /// A comment mark that begins like an operator.
    CommentMark,
    /// Lines between line feeds.
    Lines,
    /// Two quotes that mean one.
    DoubledQuote,
    /// Blanks that are skipped in two places.
    Blanks,
    /// Blanks before a text that goes to the end of the line.
    LeadingBlanks,
}

impl Recipe {
    /// Its heading on the page on findings (docs/FINDINGS.md).
    pub fn heading(self) -> &'static str {
        match self {
            Recipe::AlikeStrings => "Two strings with a common beginning",
            Recipe::Keyword => "Keywords",
            Recipe::Assignment => "An assignment beside an expression",
            Recipe::AlikeNodes => "Nodes that begin alike",
            Recipe::NearestElse => "An else of the nearest if",
            Recipe::Greedy => "Take all that you can",
            Recipe::Quote => "Until the next quote",
            Recipe::LongEnd => "Until a text of several characters",
            Recipe::LineComment => "A comment to the end of the line, or of the text",
            Recipe::CommentMark => "A comment mark that begins as an operator does",
            Recipe::Lines => "Where lines count",
            Recipe::DoubledQuote => "A quoted text in which two quotes mean one",
            Recipe::Blanks => "Blanks in one place only",
            Recipe::LeadingBlanks => "Blanks before the rest of the line",
        }
    }

    /// The code of the finding whose page has the heading; `pgw help` prints that page.
    pub fn code(self) -> &'static str {
        match self {
            Recipe::AlikeStrings | Recipe::Keyword | Recipe::Assignment | Recipe::AlikeNodes => {
                "C4"
            }
            Recipe::NearestElse => "C5",
            Recipe::Greedy
            | Recipe::Quote
            | Recipe::LongEnd
            | Recipe::LineComment
            | Recipe::CommentMark
            | Recipe::Lines
            | Recipe::DoubledQuote
            | Recipe::Blanks
            | Recipe::LeadingBlanks => "C6",
        }
    }
}
