//! Filters of addresses.
ghost use Rattle.std.specs.Prelude.{◌≡◌, ℕ, Bool};
ghost use Rattle.i9_tracer.specs.Closures.{TakesEachAddress};

use std::marker::Model;

/// A closure from an address to a `bool`, by words that the invariant of a struct can name. Every such closure
/// has them, and they say what its own contract does.
pub trait AddressTest {
    /// It may be called on an address.
    ghost can_test: { Self → ℕ → Type 0 };

    /// It may give an answer at an address.
    ghost allows: { Self → ℕ → Bool → Type 0 };

    /// Calls it.
    fn test(&self, a: u32) -> bool
        requires { can_test self.now a }
        ensures { allows self.now a result };
}

impl<F: Fn(u32) -> bool> AddressTest for F {
    ghost can_test = { λ f a. F.pre f a };

    ghost allows = { λ f a answer. F.post f a answer };

    fn test(&self, a: u32) -> bool {
        self(a)
    }
}

/// A closure that says which addresses pass, and that may be called on each of them. Its relation, the answers that
/// the closure's own contract allows at an address, is `allows` of the closure, for which a clause takes the filter.
///
/// Make a filter in a function that has F as a parameter: the check covers no function in which a filter of a closure
/// of its own stands.
#[derive(Drop)]
pub struct Filter<F: Fn(u32) -> bool + AddressTest> {
    f: F,
}

impl<F: Fn(u32) -> bool + AddressTest> Model for Filter<F> {
    ghost Value = { F };

    ghost view = { λ filter. filter.f };

    ghost invariant = { λ filter. TakesEachAddress (F.AddressTest.can_test filter.f) };
}

impl<F: Fn(u32) -> bool + AddressTest> Filter<F> {
    /// Keeps a closure that may be called on each address, 0 to FFFFFFFF.
    pub fn new(f: F) -> Filter<F>
        requires { TakesEachAddress (F.AddressTest.can_test f) }
        ensures { result ≡ f }
    {
        Filter { f }
    }

    /// Whether an address passes: what the closure answers, which is one of the answers that its contract allows
    /// there.
    pub fn passes(&self, a: u32) -> bool
        ensures { F.AddressTest.allows self.now a result }
    {
        self.f.test(a)
    }
}
