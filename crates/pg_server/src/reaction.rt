//! What a message brings about.

use pg_server_messages::Outgoing;

/// What the server does at once when a message comes, beside keeping what it says.
#[derive(Drop)]
pub enum Reaction {
    /// It says nothing.
    Nothing,
    /// It says this.
    Says(Outgoing),
    /// It ends, with this exit status.
    Ends(u8),
}
