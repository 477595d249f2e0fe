//! Laws about every error, beyond what a single call says.
//!
//! A law is a function that does nothing when it runs. Its clause is the law, and calling the function gives the clause.

ghost use Rattle.std.specs.Prelude.{◌≡◌, ◌≤◌, true};
ghost use Rattle.pg_message.specs.Messages.{Text, Messages, is_empty, with_messages, with_repeats};
ghost use Rattle.pg_message.specs.Errors.{merged};
ghost use Rattle.pg_message.specs.Printed.{printed};
ghost use Rattle.pg_message.specs.declared.error.ParseError.{ParseError};

/// The law that merging is associative: errors may be merged as the answers come, or later ones first.
pub fn merging_is_associative()
    ensures { (first second third : ParseError) →
        merged first (merged second third) ≡ merged (merged first second) third }
{}

/// The law that merging with an error without messages changes no error at its place or after it, from either side. At
/// the same place the positions have to be equal, as they are in one text.
pub fn errors_without_messages_change_nothing()
    ensures after { (error nothing : ParseError) → is_empty nothing.messages ≡ true →
        nothing.place ≤ error.place → merged error nothing ≡ error }
    ensures before { (error nothing : ParseError) → is_empty nothing.messages ≡ true →
        nothing.place ≤ error.place → (nothing.place ≡ error.place → nothing.position ≡ error.position) →
        merged nothing error ≡ error }
{}

/// The law that repeats aren't printed: an error prints the same whether merging drops the texts that it has already or
/// keeps them twice, as Text.Parsec.Error does.
pub fn repeats_are_not_printed()
    ensures { (error : ParseError) (more : Messages) (name : Text) →
        printed (record error { messages = with_messages error.messages more }) name ≡
        printed (record error { messages = with_repeats error.messages more }) name }
{}
