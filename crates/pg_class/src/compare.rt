//! Comparing the characters of two classes.
//!
//! Both lists ascend, so they are read side by side. Whichever range can't matter for the other list's later ranges is
//! passed. Only `class.rt` calls this.
ghost use Rattle.std.specs.Prelude.{◌↔◌, IsTrue};
ghost use Rattle.pg_class.specs.Ranges.{AreDisjoint, IsClass, IsWithin};

/// Whether no character is in both classes.
pub fn are_disjoint(class: &[(char, char)], other: &[(char, char)]) -> bool
    requires class { IsClass class.now }
    requires other { IsClass other.now }
    ensures { IsTrue result ↔ AreDisjoint class.now other.now }
{
    let (mut i, mut j) = (0, 0);
    while i < class.len() && j < other.len() {
        let (range, next) = (class[i], other[j]);
        if range.1 < next.0 {
            i += 1;
        } else if next.1 < range.0 {
            j += 1;
        } else {
            return false;
        }
    }
    true
}

/// Whether each character of the class is in the other. A range that isn't inside a single range of the other has a
/// character that the other leaves out, as there is one between any two of its ranges.
pub fn is_within(class: &[(char, char)], other: &[(char, char)]) -> bool
    requires class { IsClass class.now }
    requires other { IsClass other.now }
    ensures { IsTrue result ↔ IsWithin class.now other.now }
{
    let (mut i, mut j) = (0, 0);
    while i < class.len() && j < other.len() {
        let (range, next) = (class[i], other[j]);
        if next.1 < range.1 {
            j += 1;
        } else if next.0 <= range.0 {
            i += 1;
        } else {
            return false;
        }
    }
    i == class.len()
}
