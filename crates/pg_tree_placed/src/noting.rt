//! Notes on the steps that are written otherwise than by themselves, made from the last step to the first.
//!
//! Each step takes kids of the nodes around it, whose numbers of kids that are left are known (`pending.rt`). Where none is left, a node begins. The notes stand with
//! that on the last step first. Most steps have none: so what makes one is out of line.

ghost use Rattle.std.specs.Prelude.{◌≡◌, ◌∷◌, ◌+◌, ◌<◌, ◌≤◌, ℕ, List, [], length, reverse, get_or, IfOk, OnOk};
ghost use Rattle.pg_tree.specs.Json.{json};
ghost use Rattle.pg_tree_placed.specs.Made.{made_on};
ghost use Rattle.pg_tree_placed.specs.Forward.{noted_text};
ghost use Rattle.pg_tree_placed.specs.Noted.{AreJoined, AreNoted, StepsBack, note_of, way_of, with_node, with_note};
ghost use Rattle.pg_tree_placed.specs.Named.{label_at};
ghost use Rattle.pg_tree_placed.specs.Written.{finished, lifts, open_in, unfinished};
ghost use Rattle.pg_tree_placed.specs.declared.entry.Entry.TheVariants.{Leaf, Join};

use crate::entry::Entry;
use crate::note::{Note, Way};
use crate::pending::{Around, Pending, sum};
use pg_tree::Label;
use std::alloc::{AllocError, Global};

/// The notes on steps, that on the last step first. The errors are running out of memory, and numbers that don't fit into 32 bits.
pub(crate) fn notes_of(
    alloc: Global,
    labels: &[Label],
    entries: &[Entry],
) -> Result<Vec<Note>, AllocError>
    ensures { (text : List ℕ) → IfOk result (λ notes. noted_text text labels.now entries.now notes.items ≡ json (reverse (made_on text labels.now [] entries.now))) }
{
    let mut notes = Vec::new(alloc);
    note_all(alloc, labels, entries, &mut notes)?;
    Ok(notes)
}

/// Makes them, beginning with none. At the end no node is open, where each step has the trees that it takes. Most steps are leaves, and told apart first.
fn note_all(
    alloc: Global,
    labels: &[Label],
    entries: &[Entry],
    notes: &mut Vec<Note>,
) -> Result<(), AllocError>
    requires { notes.old.items ≡ [] }
    ensures { (text : List ℕ) → OnOk result (noted_text text labels.now entries.now notes.new.items ≡ json (reverse (made_on text labels.now [] entries.now))) }
{
    let mut pending = Pending::new(alloc);
    let mut steps = entries.len();
    while steps > 0 {
        steps -= 1;
        if let Entry::Leaf(_, _) = entries[steps] {
            pending.take_one();
            note(&mut pending, false, steps, notes)?;
            continue;
        }
        if let Entry::Join(kids) = entries[steps] {
            steps = leave(&mut pending, kids, entries, steps, notes)?;
            continue;
        }
        let is_lifted = go_back(&mut pending, labels, entries[steps])?;
        note(&mut pending, is_lifted, steps, notes)?;
    }
    if pending.is_empty() {
        Ok(())
    } else {
        Err(AllocError)
    }
}

/// Goes back over a step, and says whether its node is lifted. A joined leaf is the matter of `leave`: here it would be an error.
#[inline(always)]
fn go_back(pending: &mut Pending, labels: &[Label], entry: Entry) -> Result<bool, AllocError>
    ensures { IfOk result (λ b. StepsBack labels.now (open_in pending.old) entry b (open_in pending.new)) }
{
    match entry {
        Entry::Leaf(_, _) => {
            pending.take_one();
            Ok(false)
        }
        Entry::Single(label, _, _) => {
            let is_lifted = pending.lifts(labels, u32::from(label));
            pending.take_one();
            Ok(is_lifted)
        }
        Entry::Join(_) => Err(AllocError),
        Entry::Node(label, kids) => back_to_node(pending, labels, kids_around(kids, 0, label)),
        Entry::Flat(label, kids) => back_to_node(pending, labels, kids_around(0, kids, label)),
    }
}

/// Goes back over a node: it is open then, or it is lifted and its kids stand in its place.
#[inline(always)]
fn back_to_node(pending: &mut Pending, labels: &[Label], node: Around) -> Result<bool, AllocError>
    ensures lifted { IfOk result (λ b. b ≡ lifts labels.now (open_in pending.old) (label_at labels.now node.label)) }
    ensures open { IfOk result (λ b. open_in pending.new ≡ with_node b node (open_in pending.old)) }
{
    if pending.lifts(labels, node.label) {
        pending.lift(node)?;
        return Ok(true);
    }
    pending.take_one();
    pending.open(node)?;
    Ok(false)
}

/// Goes back over a joined leaf of so many trees, and over all of their steps, with a note at the first. Says how many steps are left.
#[inline(never)]
fn leave(
    pending: &mut Pending,
    kids: u32,
    entries: &[Entry],
    last: usize,
    notes: &mut Vec<Note>,
) -> Result<usize, AllocError>
    requires within { last < length entries.now }
    requires joined { get_or entries.now last (Leaf 0 0) ≡ Join kids }
    ensures fewer { IfOk result (λ first. first ≤ last) }
    ensures noted { IfOk result (λ first. (labels : List (List ℕ)) → AreNoted labels entries.now (last + 1) (open_in pending.old) (reverse notes.old.items) → AreNoted labels entries.now first (open_in pending.new) (reverse notes.new.items)) }
{
    pending.take_one();
    let first = first_joined(entries, last, kids)?;
    let steps = sum(last - first, 1)?;
    push_note(pending, Way::Joined(steps), first, notes)?;
    Ok(first)
}

/// The first step of so many trees that a step joins.
fn first_joined(entries: &[Entry], last: usize, kids: u32) -> Result<usize, AllocError>
    requires { last ≤ length entries.now }
    ensures fewer { IfOk result (λ first. first ≤ last) }
    ensures joined { IfOk result (λ first. AreJoined entries.now kids first last) }
{
    let mut left = kids;
    let mut first = last;
    while left > 0 {
        if first == 0 {
            return Err(AllocError);
        }
        first -= 1;
        left = sum(entries[first].kids(), left - 1)?;
    }
    Ok(first)
}

/// Drops the nodes that begin at a step, and makes a note of them, if there are any or the step's node is lifted.
#[inline(always)]
fn note(
    pending: &mut Pending,
    is_lifted: bool,
    step: usize,
    notes: &mut Vec<Note>,
) -> Result<(), AllocError>
    ensures open { OnOk result (open_in pending.new ≡ unfinished (open_in pending.old)) }
    ensures noted { OnOk result (reverse notes.new.items ≡ with_note step (finished (open_in pending.old)) (way_of is_lifted) (reverse notes.old.items)) }
{
    if !is_lifted && !pending.has_full() {
        return Ok(());
    }
    push_note(pending, way_of(is_lifted), step, notes)
}

/// The same where a note is made in any case.
#[inline(never)]
fn push_note(
    pending: &mut Pending,
    way: Way,
    step: usize,
    notes: &mut Vec<Note>,
) -> Result<(), AllocError>
    ensures open { OnOk result (open_in pending.new ≡ unfinished (open_in pending.old)) }
    ensures noted { OnOk result (reverse notes.new.items ≡ note_of step (finished (open_in pending.old)) way ∷ reverse notes.old.items) }
{
    let begins = pending.drop_full()?;
    let step = sum(step, 0)?;
    notes.push(Note { step, begins, way })?;
    Ok(())
}

/// How a step is written whose node is lifted, or isn't.
fn way_of(is_lifted: bool) -> Way
    ensures { result ≡ way_of is_lifted }
{
    if is_lifted { Way::Lifted } else { Way::Shown }
}

/// Kids of an open node that are left.
fn kids_around(plain: u32, flat: u32, label: u32) -> Around
    ensures { result ≡ record { plain = plain; flat = flat; label = label } }
{
    Around { plain, flat, label }
}
