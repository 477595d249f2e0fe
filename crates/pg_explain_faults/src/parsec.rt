//! What to write in a grammar file instead of a combinator that Parsec has and grammar files don't.

use pg_file_tokens::is_word;

/// A name of Parsec's, and what to write instead (Text.Parsec's modules Prim, Combinator, Char, Token and Expr).
const INSTEAD: [(&str, &str); 60] = [
    (
        "lookAhead",
        "only notFollowedBy(CLASS) looks ahead, and only at one character",
    ),
    (
        "sepEndBy",
        "write option(items) with this rule: items = seq(v, option(seq(skip(s), option(items))))",
    ),
    (
        "sepEndBy1",
        "write a rule: items = seq(v, option(seq(skip(s), option(items))))",
    ),
    ("endBy1", "write many1(seq(v, skip(s)))"),
    (
        "manyTill",
        "write seq(many(v), end), if v can't begin like the end",
    ),
    (
        "count",
        "repeat the value as often as you need it: seq(v, v, v)",
    ),
    ("skipMany", "write skip(many(v))"),
    ("skipMany1", "write skip(many1(v))"),
    ("optional", "write skip(option(v))"),
    ("optionMaybe", "write option(v)"),
    ("chainl", "write option(chainl1(BUILDER, v, s))"),
    ("chainr", "write option(chainr1(BUILDER, v, s))"),
    (
        "buildExpressionParser",
        "write expr(BUILDER, BUILDER, BUILDER, term), with `operators` and `table` items",
    ),
    (
        "makeExprParser",
        "write expr(BUILDER, BUILDER, BUILDER, term), with `operators` and `table` items",
    ),
    ("char", "write string(\"x\")"),
    ("anyChar", "write satisfy(not \"\")"),
    ("anyToken", "write satisfy(not \"\")"),
    ("anySingle", "write satisfy(not \"\")"),
    ("oneOf", "write satisfy(\"xyz\")"),
    ("noneOf", "write satisfy(not \"xyz\")"),
    ("digit", "write satisfy(digit)"),
    ("octDigit", "write satisfy(octDigit)"),
    ("hexDigit", "write satisfy(hexDigit)"),
    ("letter", "write satisfy(letter)"),
    ("alphaNum", "write satisfy(alphaNum)"),
    ("space", "write satisfy(space)"),
    ("spaces", "write skip(many(satisfy(space)))"),
    (
        "upper",
        "write satisfy(\"A\"..\"Z\"), or a class with other capital letters",
    ),
    (
        "lower",
        "write satisfy(\"a\"..\"z\"), or a class with other small letters",
    ),
    ("newline", "write string(\"\\n\")"),
    ("crlf", "write string(\"\\r\\n\")"),
    (
        "endOfLine",
        "write choice(string(\"\\n\"), string(\"\\r\\n\"))",
    ),
    ("tab", "write string(\"\\t\")"),
    ("tokens", "write string(\"xyz\")"),
    (
        "parserZero",
        "leave it out: a choice fails by itself if no alternative can begin",
    ),
    (
        "mzero",
        "leave it out: a choice fails by itself if no alternative can begin",
    ),
    (
        "empty",
        "leave it out: a choice fails by itself if no alternative can begin",
    ),
    (
        "fail",
        "leave it out: a choice fails by itself if no alternative can begin",
    ),
    ("unexpected", "label(v, \"name\") says what was expected"),
    ("return", "write seq()"),
    ("pure", "write seq()"),
    ("parserPlus", "write choice(v, w)"),
    ("labels", "write label(v, \"name\")"),
    (
        "someTill",
        "write seq(many1(v), end), if v can't begin like the end",
    ),
    ("some", "write many1(v)"),
    ("parens", "write between(string(\"(\"), string(\")\"), v)"),
    ("braces", "write between(string(\"{\"), string(\"}\"), v)"),
    ("brackets", "write between(string(\"[\"), string(\"]\"), v)"),
    ("angles", "write between(string(\"<\"), string(\">\"), v)"),
    ("commaSep", "write sepBy(v, string(\",\"))"),
    ("commaSep1", "write sepBy1(v, string(\",\"))"),
    ("semiSep", "write sepBy(v, string(\";\"))"),
    ("semiSep1", "write sepBy1(v, string(\";\"))"),
    ("symbol", "write a rule: seq(string(\"x\"), blanks)"),
    ("lexeme", "write a rule: seq(v, blanks)"),
    ("whiteSpace", "write a rule: skip(many(satisfy(space)))"),
    ("identifier", "write word(NAME), with a `word` item"),
    (
        "reservedOp",
        "write a `reserved` symbol of the `operators` item",
    ),
    ("natural", "write build(num, text(many1(satisfy(digit))))"),
    (
        "integer",
        "write build(num, text(seq(option(string(\"-\")), many1(satisfy(digit)))))",
    ),
];

/// What to write instead of the combinator with this name, if grammar files don't have it.
pub(crate) fn in_place_of(name: &[char]) -> Option<&'static str> {
    for one in &INSTEAD {
        if is_word(one.0, name) {
            return Some(one.1);
        }
    }
    None
}
