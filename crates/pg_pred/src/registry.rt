//! The predicates and builders that a grammar may name.
//!
//! No two predicates have the same name, and no two builders. That is a fact of the type: `new` checks it before it
//! takes anything over. A predicate and a builder may share a name. Layers above see a registry as its offer: a class
//! for each predicate's name and a shape for each builder's.

ghost use Rattle.std.specs.Prelude.{◌≡◌, ◌||◌, ◌↔◌, map, find, true, false, Some, string_bytes, option_copied, IsErr, IsNone, IfOk, IfErr, IfSome};
ghost use Rattle.std.specs.Str.{bytes_eq};
ghost use Rattle.pg_pred.specs.Names.{has_twice};

use crate::builder::Builder;
use crate::named::{has_twice, with_name};
use crate::predicate::Predicate;
use thiserror::Error;

/// Predicates and builders, each found by its name.
#[derive(Debug, Drop)]
pub struct Registry {
    pub predicates: Vec<Predicate>,
    pub builders: Vec<Builder>,
    pub ghost predicates_differ: { has_twice (map (λ p. string_bytes p.name) predicates.items) ≡ false },
    pub ghost builders_differ: { has_twice (map (λ b. string_bytes b.name) builders.items) ≡ false },
}

/// Two predicates have the same name, or two builders have. Both lists are handed back.
#[derive(Debug, Drop, Error)]
#[error("G1 name defined twice")]
pub struct RegistryFault {
    pub predicates: Vec<Predicate>,
    pub builders: Vec<Builder>,
}

impl Registry {
    ghost use Rattle.pg_pred.specs.Offer.{offer_of, predicate_class, builder_shape};

    /// The registry of these lists. It takes no memory. G1 if a name occurs twice in one of them; the lists are then
    /// handed back unchanged.
    pub fn new(
        predicates: Vec<Predicate>,
        builders: Vec<Builder>,
    ) -> Result<Registry, RegistryFault>
        ensures twice { IsErr result ↔ ((has_twice (map (λ p. string_bytes p.name) predicates.items)
            || has_twice (map (λ b. string_bytes b.name) builders.items)) ≡ true) }
        ensures predicates { IfOk result (λ r. r.predicates ≡ predicates) }
        ensures builders { IfOk result (λ r. r.builders ≡ builders) }
        ensures back { IfErr result (λ r. r ≡ record { predicates = predicates; builders = builders }) }
    {
        if has_twice(predicates.as_slice()) || has_twice(builders.as_slice()) {
            return Err(RegistryFault {
                predicates,
                builders,
            });
        }
        Ok(Registry {
            predicates,
            builders,
        })
    }

    /// The predicate with this name, if there is one. It takes no memory.
    pub fn predicate(&self, name: &str) -> Option<&Predicate>
        ensures found { option_copied result ≡ find (λ p. bytes_eq (string_bytes p.name) name.now) self.now.predicates.items }
        ensures class { IfSome result (λ p. predicate_class (offer_of self.now) name.now ≡ Some p.now.class) }
        ensures none { IsNone result ↔ IsNone (predicate_class (offer_of self.now) name.now) }
    {
        with_name(self.predicates.as_slice(), name)
    }

    /// The builder with this name, if there is one. It takes no memory.
    pub fn builder(&self, name: &str) -> Option<&Builder>
        ensures found { option_copied result ≡ find (λ b. bytes_eq (string_bytes b.name) name.now) self.now.builders.items }
        ensures shape { IfSome result (λ b. builder_shape (offer_of self.now) name.now ≡ Some b.now.shape) }
        ensures none { IsNone result ↔ IsNone (builder_shape (offer_of self.now) name.now) }
    {
        with_name(self.builders.as_slice(), name)
    }
}
