//! How large a grammar may be (ours).
//!
//! A maker refuses whatever passes one of these, with F8. The limits on items, rules, nodes and operators are part of a grammar's invariant, so code that
//! adds or multiplies such numbers can rely on them. Only makers check those on names and literals.

ghost use Rattle.std.specs.Prelude.{◌≡◌, length};
ghost use Rattle.std.specs.Str.{chars};

/// The most characters of a name, both where it is given and where it is used.
pub const NAME_LIMIT: usize = 64;
/// The most characters of a literal in a string, a class or a message, of a reserved text, and of a builder's or an
/// operator's symbol. An escape counts as one.
pub const LITERAL_LIMIT: usize = 1024;
/// The most class items of a grammar.
pub const CLASS_LIMIT: usize = 256;
/// The most word items of a grammar.
pub const WORD_LIMIT: usize = 64;
/// The most operators that a grammar may allow in a table.
pub const OPERATOR_LIMIT: usize = 64;
/// The most rules of a grammar.
pub const RULE_LIMIT: usize = 512;
/// The most nodes of a grammar, over all its rules.
pub const NODE_LIMIT: usize = 8192;

/// How many characters a text has.
pub fn characters_in(text: &str) -> usize
    ensures { result ≡ length (chars text.now) }
{
    text.chars().count()
}
