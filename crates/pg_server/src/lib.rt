//! The language server: what it knows, and what it says to each message.
//!
//! [`Server`] is the state: the open documents, what positions count, and how far the session is. [`Server::handle`] is a pure function of the state and a
//! message, and answers what is said to it; it calls no reader and no writer. Diagnostics aren't among that: a change only keeps the text, and
//! [`Server::publish`] makes those of one document after the other. So [`serve`] looks over the messages that have been read already before it asks for
//! diagnostics, and states of a document that are gone by then have none.
//!
//! `requests` is the list of what can be asked about documents, `notifications` of what the server is told, `session` begins and ends it, and `published`
//! makes JSON of diagnostics.
#![tactic(auto)]

mod notifications;
mod outcome;
mod params;
mod published;
mod reaction;
mod requests;
mod server;
mod serving;
mod session;

pub use reaction::Reaction;
pub use server::Server;
pub use serving::{Ended, serve};
