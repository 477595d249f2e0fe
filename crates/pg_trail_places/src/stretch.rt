//! Stretches of a text.

/// The stretch of a text that a tree's form read, in characters from 0 (ours). A text has at most 1,048,576 characters, so these have 32 bits.
#[derive(Clone, Copy)]
pub struct Stretch {
    /// How many characters stand before the first one.
    pub start: u32,
    /// How many characters stand before the end.
    pub end: u32,
    /// Whether this is a leaf that a builder joined from others, so that its text may lack what was skipped.
    pub is_joined: bool,
}

impl Stretch {
    /// The stretch between two places. The only error is that a place has more than 32 bits, which no text's has.
    pub(crate) fn between(start: usize, end: usize) -> Option<Stretch> {
        match (u32::try_from(start), u32::try_from(end)) {
            (Ok(start), Ok(end)) => Some(Stretch {
                start,
                end,
                is_joined: false,
            }),
            (Err(_), _) | (_, Err(_)) => None,
        }
    }

    /// The same stretch, of a leaf that was joined.
    pub(crate) fn joined(self) -> Stretch {
        let Stretch { start, end, .. } = self;
        Stretch {
            start,
            end,
            is_joined: true,
        }
    }
}
