//! The notes made of a node during a replay or a run.

use std::alloc::{AllocError, Global};

/// How a node goes on from a place.
#[derive(Clone, Copy)]
pub(crate) enum Next {
    /// A choice picks this alternative, counting from 1.
    Alternative(usize),
    /// A repetition has a round.
    Round,
    /// An expression has a term at this place, after operators and gaps.
    Term(usize),
    /// It ends at this place.
    End(usize),
    /// It fails, with none of its parts.
    Failure,
}

/// A note: the node, entered at a place, goes on in this way from another place, after this many terms.
#[derive(Clone, Copy)]
struct Note {
    /// The number of turns before that: until the choice, the expression or the round is entered, or the rounds end.
    turns: u64,
    entered: usize,
    terms: usize,
    from: usize,
    next: Next,
}

/// Where a node loses a derivation.
#[derive(Clone, Copy)]
pub(crate) struct Lost {
    /// The place where the node is entered.
    pub(crate) entered: usize,
    /// The place where it loses the derivation.
    pub(crate) place: usize,
    /// How the derivation goes on there.
    pub(crate) derived: Next,
    /// How the run goes on there.
    pub(crate) ran: Next,
    /// How many turns of the replay lead to where the choice or the expression is entered, or the rounds end.
    pub(crate) derived_turns: u64,
    /// How many turns of the machine lead to where the choice or the expression is entered, or the part that begins the round.
    pub(crate) ran_turns: u64,
}

/// A visit of a node that hasn't ended yet.
#[derive(Clone, Copy)]
struct Visit {
    /// Whether it is a visit of the node that the notes are about.
    is_noted: bool,
    turns: u64,
    entered: usize,
    terms: usize,
    from: usize,
    /// Whether a term has begun and its end isn't known yet.
    in_term: bool,
}

/// The notes of a node, and the visits that haven't ended yet, the innermost last.
#[derive(Drop)]
pub(crate) struct Notes {
    /// How many turns have been made.
    turns: u64,
    visits: Vec<Visit>,
    made: Vec<Note>,
}

impl Notes {
    /// No notes yet.
    pub(crate) fn new(alloc: Global) -> Notes {
        Notes {
            turns: 0,
            visits: Vec::new(alloc),
            made: Vec::new(alloc),
        }
    }

    /// Counts a turn.
    pub(crate) fn turn(&mut self) {
        self.turns = self.turns.saturating_add(1);
    }

    /// Forgets all notes.
    pub(crate) fn forget(&mut self) {
        self.visits.clear();
        self.made.clear();
    }

    /// Begins a visit at the place.
    pub(crate) fn begin(&mut self, is_noted: bool, place: usize) -> Result<(), AllocError> {
        self.visits.push(Visit {
            is_noted,
            turns: self.turns,
            entered: place,
            terms: 0,
            from: place,
            in_term: false,
        })?;
        Ok(())
    }

    /// Notes that the next step of the innermost visit begins at this turn.
    pub(crate) fn mark(&mut self) {
        let turns = self.turns;
        if let Some(visit) = self.visits.last_mut() {
            visit.turns = turns;
        }
    }

    /// Ends the innermost visit.
    pub(crate) fn end(&mut self) {
        let _visit = self.visits.pop();
    }

    /// Notes how the innermost visit goes on from its latest place.
    pub(crate) fn go_on(&mut self, next: Next) -> Result<(), AllocError> {
        match self.visits.last() {
            Some(visit) if visit.is_noted => {
                let note = Note {
                    turns: visit.turns,
                    entered: visit.entered,
                    terms: visit.terms,
                    from: visit.from,
                    next,
                };
                self.made.push(note)?;
                Ok(())
            }
            Some(_) | None => Ok(()),
        }
    }

    /// Notes how the innermost visit goes on from the place.
    pub(crate) fn go_on_from(&mut self, place: usize, next: Next) -> Result<(), AllocError> {
        self.come_to(place);
        self.go_on(next)
    }

    /// Moves the innermost visit on to the place, with no term open.
    pub(crate) fn come_to(&mut self, place: usize) {
        if let Some(visit) = self.visits.last_mut() {
            visit.from = place;
            visit.in_term = false;
        }
    }

    /// Ends the open term of the innermost visit at the place, if there is one.
    pub(crate) fn end_term(&mut self, place: usize) {
        if let Some(visit) = self.visits.last() {
            if visit.in_term {
                self.come_to(place);
            }
        }
    }

    /// Begins a term of the innermost visit at the place.
    pub(crate) fn begin_term(&mut self, place: usize) -> Result<(), AllocError> {
        self.go_on(Next::Term(place))?;
        if let Some(visit) = self.visits.last_mut() {
            visit.terms = visit.terms.saturating_add(1);
            visit.in_term = true;
        }
        Ok(())
    }

    /// Where the node loses the derivation of these notes to the run of the other notes, if it does.
    pub(crate) fn parting(&self, ran: &Notes) -> Option<Lost> {
        for note in &self.made {
            if let Some(other) = victor(*note, &ran.made) {
                return Some(Lost {
                    entered: note.entered,
                    place: note.from,
                    derived: note.next,
                    ran: other.next,
                    derived_turns: note.turns,
                    ran_turns: other.turns,
                });
            }
        }
        None
    }
}

/// The first of a run's notes that a derivation's note loses to, if there is one.
fn victor(note: Note, others: &[Note]) -> Option<Note> {
    for other in others {
        if are_of_one_place(note, *other) && is_lost_to(note.next, other.next) {
            return Some(*other);
        }
    }
    None
}

/// Whether two notes are of the same visit and the same place in it.
fn are_of_one_place(one: Note, other: Note) -> bool {
    one.entered == other.entered && one.terms == other.terms && one.from == other.from
}

/// Whether a node that goes on in the way `ran` loses a derivation that goes on in the way `derived`. An alternative loses to an earlier one, and the end of
/// a repetition to one more round. If an alternative or a round of the derivation fails in the run, one of its parts has lost the derivation.
fn is_lost_to(derived: Next, ran: Next) -> bool {
    match (derived, ran) {
        (Next::Alternative(had), Next::Alternative(answers)) => answers < had,
        (Next::Term(had), Next::Term(read)) | (Next::End(had), Next::End(read)) => had != read,
        (Next::End(_), Next::Round)
        | (Next::Term(_), Next::End(_) | Next::Failure)
        | (Next::End(_), Next::Term(_) | Next::Failure) => true,
        (Next::Alternative(_), Next::Round | Next::Term(_) | Next::End(_) | Next::Failure)
        | (
            Next::Round | Next::Failure,
            Next::Alternative(_) | Next::Round | Next::Term(_) | Next::End(_) | Next::Failure,
        )
        | (Next::Term(_), Next::Alternative(_) | Next::Round)
        | (Next::End(_), Next::Alternative(_)) => false,
    }
}
