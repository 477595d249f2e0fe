//! Marks on numbered things: a list with one mark for each.

ghost use Rattle.std.specs.Prelude.{◌≡◌};
ghost use Rattle.pg_graph.specs.Marks.{is_marked};

/// Whether a number is marked; one past the end isn't.
pub fn is_marked(marks: &[bool], number: usize) -> bool
    ensures { result ≡ is_marked marks.now number }
{
    match marks.get(number) {
        Some(mark) => *mark,
        None => false,
    }
}
