//! The program's registry, and its use.
//!
//! Only the function that makes a box knows what the box answers, so boxes aren't handed out. `with_registry` makes the predicates and calls `with_builders`,
//! which makes the builders and calls `with_both`, which lends the registry to the user. Each stored function is proved to agree with its class or shape, and
//! the registry to offer exactly what `specs/ProgramOffer.antt` says.

ghost use Rattle.std.specs.Prelude.{◌≡◌, map, string_bytes, IfOk};
ghost use Rattle.pg_pred.specs.Offer.{Offer, offer_of};
ghost use Rattle.pg_pred_program.specs.Builders.{builder_shapes};
ghost use Rattle.pg_pred_program.specs.Kinds.{AreOfAllKinds};
ghost use Rattle.pg_pred_program.specs.ProgramOffer.{IsProgramOffer, IsGiven};

use crate::kind::Kind;
use crate::shapes::builder_shapes;
use pg_pred::{Builder, Predicate, Registry};
use pg_tree::{Forest, built};
use std::alloc::{AllocError, Global};

/// What a caller does with the registry.
pub trait UsesRegistry {
    /// Its result.
    type Answer;

    /// The results that it may give with the offer of a registry.
    ghost Gives: { Self → Offer → Self.Answer → Type 0 };

    /// Runs with the program's registry.
    fn run(&self, registry: &Registry) -> Result<Self::Answer, AllocError>
        requires { IsProgramOffer (offer_of registry.now) }
        ensures { IfOk result (Gives self.now (offer_of registry.now)) };
}

/// Makes the program's registry and returns the user's answer with it. The only error is running out of memory, here or in the user.
pub fn with_registry<U: UsesRegistry>(alloc: Global, user: &U) -> Result<U::Answer, AllocError>
    ensures { IfOk result (IsGiven (U.Gives user.now)) }
{
    let mut predicates = Vec::new(alloc);
    for kind in Kind::ALL {
        let name = String::from_str(alloc, kind.name())?;
        let class = kind.class(alloc)?;
        let test = Box::new(alloc, move |c: char| kind.has(c))?;
        predicates.push(Predicate::new(name, class, test))?;
    }
    with_builders(alloc, user, predicates)
}

/// Makes the program's builders, and the registry of them and these predicates.
fn with_builders<U: UsesRegistry>(
    alloc: Global,
    user: &U,
    predicates: Vec<Predicate>,
) -> Result<U::Answer, AllocError>
    requires predicates { AreOfAllKinds (map (λ p. (string_bytes p.name, p.class)) predicates.items) }
    ensures { IfOk result (IsGiven (U.Gives user.now)) }
{
    let mut builders = Vec::new(alloc);
    for (name, shape) in builder_shapes(alloc)? {
        let made = shape.copy(alloc)?;
        let make = Box::new(
            alloc,
            move |alloc: Global, symbol: &str, kids: Forest| built(alloc, &made, symbol, kids),
        )?;
        builders.push(Builder::new(name, shape, make))?;
    }
    with_both(user, predicates, builders)
}

/// Makes the registry of these predicates and builders, and returns the user's answer with it.
fn with_both<U: UsesRegistry>(
    user: &U,
    predicates: Vec<Predicate>,
    builders: Vec<Builder>,
) -> Result<U::Answer, AllocError>
    requires predicates { AreOfAllKinds (map (λ p. (string_bytes p.name, p.class)) predicates.items) }
    requires builders { map (λ b. (string_bytes b.name, b.shape)) builders.items ≡ builder_shapes }
    ensures { IfOk result (IsGiven (U.Gives user.now)) }
{
    match Registry::new(predicates, builders) {
        Ok(registry) => user.run(&registry),
        Err(_) => unreachable!(),
    }
}
