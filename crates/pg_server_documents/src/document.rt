//! A document.

/// A document of the editor.
#[derive(Drop)]
pub struct Document {
    /// The number that the client gave to this state of it.
    pub version: i64,
    /// Its text, whole.
    pub text: String,
    /// Whether the client was told what is wrong with this state of it.
    pub is_told: bool,
}
