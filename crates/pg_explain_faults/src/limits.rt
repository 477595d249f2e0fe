//! The limit that a file exceeds.

use crate::tokens::Tokens;
use pg_file_tokens::{Mark, Token};

/// The limit that is exceeded at this token.
pub(crate) fn limit_words(tokens: &Tokens, number: usize) -> &'static str {
    match tokens.token(number) {
        Some(Token::Name(_)) => "a name has at most 64 characters",
        Some(Token::Literal(_) | Token::WrongLiteral) => { "a literal has at most 1024 characters" }
        Some(Token::Mark(Mark::Open)) => "parentheses can be nested at most 64 deep",
        Some(Token::Mark(Mark::Semicolon)) => item_words(tokens, tokens.item(number)),
        Some(Token::Mark(_) | Token::Number(_) | Token::Bad) | None => {
            "a grammar file has at most 262144 bytes"
        }
    }
}

/// How many items there may be of the kind that begins with this token.
fn item_words(tokens: &Tokens, item: usize) -> &'static str {
    if tokens.is_word(item, "class") {
        "a file has at most 256 classes"
    } else if tokens.is_word(item, "word") {
        "a file has at most 64 word items"
    } else {
        "a file has at most 512 rules and 8192 forms, as `pgw print` shows them"
    }
}
