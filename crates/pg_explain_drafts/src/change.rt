//! The kinds of changes, in words.

/// A kind of change.
#[derive(Clone, Copy)]
pub enum Change {
    /// A string is tried as a whole.
    Try,
    /// It also says what may not follow the shorter of two strings.
    NotBefore,
    /// The common beginning of several alternatives is read once.
    ReadOnce,
    /// A keyword is reserved.
    Reserved,
    /// The alternative that can be empty comes last.
    EmptyLast,
    /// What is repeated or optional isn't optional itself.
    NoInnerOption,
    /// What is repeated has at least one round or value.
    Many1,
    /// A round is one of its parts, each of which consumes.
    OneOf,
    /// An alternative that consumes nothing is left out.
    EmptyOut,
    /// Blanks are read in one place.
    BlanksOnce,
    /// What has to be there comes before what may be left out.
    NeededFirst,
    /// A run of characters becomes a word, which reads as much as it can.
    Word,
    /// A separator ends each value.
    EndBy,
    /// A left recursion becomes a chain.
    Chain,
    /// A left recursion becomes a repetition.
    Repeated,
}

impl Change {
    /// The change as advice.
    pub fn words(self) -> &'static str {
        match self {
            Change::Try => "put `try` around each string, so that it is read whole or not at all",
            Change::NotBefore =>
                "put `try` around each string, and say what may not follow the shorter one",
            Change::ReadOnce => "read their common beginning once",
            Change::Reserved => "reserve the keyword, so that it isn't read as a word",
            Change::EmptyLast => "put the alternative that can be empty last",
            Change::NoInnerOption =>
                "make the inner part required: the outer form is optional already",
            Change::Many1 => "require at least one inside",
            Change::OneOf => "make each round read one of its parts",
            Change::EmptyOut => "leave out the empty alternative",
            Change::BlanksOnce => "read blanks in one place only",
            Change::NeededFirst => "put what has to be there before what may be left out",
            Change::Word => "make it a word, which reads as many characters as it can",
            Change::EndBy => "end each value with the separator",
            Change::Chain => "turn the left recursion into a chain",
            Change::Repeated => "turn the left recursion into a repetition",
        }
    }
}
