//! Looking up names in a list of named things.
//!
//! Names are compared byte by byte, from the first thing to the last, without taking memory. The registry checks its
//! lists with these and finds what it lends.

ghost use Rattle.std.specs.Prelude.{◌≡◌, ℕ, List, map, find, option_copied};
ghost use Rattle.std.specs.Str.{bytes_eq};
ghost use Rattle.pg_pred.specs.Names.{has_name, has_twice};

/// A thing with a name.
pub trait Named {
    ghost name_of: { Self → List ℕ };

    /// The name.
    fn name(&self) -> &str
        ensures { result.now ≡ name_of self.now };
}

/// Whether two of these have the same name.
pub fn has_twice<T: Named>(all: &[T]) -> bool
    ensures { result ≡ has_twice (map T.name_of all.now) }
{
    let mut rest = all;
    while let Some((first, others)) = rest.split_first() {
        if has_name(others, first.name()) {
            return true;
        }
        rest = others;
    }
    false
}

/// Whether one of these has the name.
fn has_name<T: Named>(all: &[T], name: &str) -> bool
    ensures { result ≡ has_name (map T.name_of all.now) name.now }
{
    for one in all {
        if one.name() == name {
            return true;
        }
    }
    false
}

/// The first of these that has the name.
pub fn with_name<'a, T: Named>(all: &'a [T], name: &str) -> Option<&'a T>
    ensures { option_copied result ≡ find (λ one. bytes_eq (T.name_of one) name.now) all.now }
{
    for one in all {
        if one.name() == name {
            return Some(one);
        }
    }
    None
}
