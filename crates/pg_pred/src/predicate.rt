//! A named class with a function that decides membership.
//!
//! The function may always be called, and decides membership for every character. Both are facts of the type: `new`
//! requires them, and a predicate never changes once it is made. Callers of `holds` rely on the class alone.

ghost use Rattle.std.specs.Prelude.{◌≡◌, string_bytes};
ghost use Rattle.pg_class.specs.Ranges.{has};
ghost use Rattle.pg_pred.specs.Tells.{Tells};

use crate::named::Named;
use pg_class::Class;

/// A stored test of characters.
pub type Test = Box<dyn Fn(char) -> bool>;

/// A named class with a function that decides membership.
#[derive(Drop)]
#[derive_where(Debug)]
pub struct Predicate {
    pub name: String,
    pub class: Class,
    #[derive_where(skip)]
    pub test: Test,
    pub ghost callable: { Test.IsAlwaysCallable test },
    pub ghost tells: { Tells class (Test.post test) },
}

impl Predicate {
    /// The predicate of this function. The caller owes that it decides membership in the class for every character.
    pub fn new(name: String, class: Class, test: Test) -> Predicate
        requires callable { Test.IsAlwaysCallable test }
        requires tells { Tells class (Test.post test) }
        ensures name { result.name ≡ name }
        ensures class { result.class ≡ class }
    {
        Predicate { name, class, test }
    }

    /// Whether the character is in the class, as the stored function answers.
    pub fn holds(&self, c: char) -> bool
        ensures { result ≡ has self.now.class c }
    {
        (self.test)(c)
    }

    /// The class.
    pub fn class(&self) -> &Class
        ensures { result.now ≡ self.now.class }
    {
        &self.class
    }

    /// The name.
    pub fn name(&self) -> &str
        ensures { result.now ≡ string_bytes self.now.name }
    {
        self.name.as_str()
    }
}

impl Named for Predicate {
    ghost name_of = { λ p. string_bytes p.name };

    fn name(&self) -> &str {
        self.name()
    }
}
