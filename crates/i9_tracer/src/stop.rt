//! Stops at views.
ghost use Rattle.std.specs.Prelude.{◌≡◌, ◌<◌, ◌^◌, Bool};
ghost use Rattle.std.specs.Borrow.{Bor};
ghost use Rattle.std.specs.Fn.{FnReturnsAt};
ghost use Rattle.std.specs.List.{All};
ghost use Rattle.i9_model.specs.Numbers.{IsWord};
ghost use Rattle.i9_model.specs.declared.view.View.{View as Shown};
ghost use Rattle.i9_tracer.specs.Closures.{IsView, TakesEachView};

use i9_model::View;
use std::marker::Model;

/// A closure from a view to a `bool`, by words that the invariant of a struct can name. Every such closure has them,
/// and they say what its own contract does.
pub trait ViewTest {
    /// It may be called on a view.
    ghost can_test: { Self → Shown → Type 0 };

    /// It may give an answer at a view.
    ghost allows: { Self → Shown → Bool → Type 0 };

    /// Calls it.
    fn test(&self, v: &View) -> bool
        requires { can_test self.now v.now }
        ensures { allows self.now v.now result };
}

impl<F: Fn(&View) -> bool> ViewTest for F {
    ghost can_test = { λ f v. (shown : Bor Shown) → shown.now ≡ v → F.pre f shown };

    ghost allows = { λ f v answer. FnReturnsAt F.Fn f v answer };

    fn test(&self, v: &View) -> bool {
        self(v)
    }
}

/// Reads words, so that they are known to have 32 bits.
fn read_words(words: &[u32])
    ensures { All IsWord words.now }
{
    for word in words {
        let _word = *word;
    }
}

/// Reads the numbers of a view, so that they are known to be in their ranges.
fn read_view(v: &View)
    requires { v.now.count < 2 ^ 32 }
    ensures { IsView v.now }
{
    let (_ip, _ac, _pc) = (v.ip, v.ac, v.pc);
    let (_tc, _marks) = (v.tc, v.marks);
    read_words(&v.regs);
}

/// A closure that says at which views it holds, as a breakpoint of a debugger does, and that may be called on each of
/// them. Its relation, the answers that the closure's own contract allows at a view, is `allows` of the closure, for
/// which a clause takes the stop.
///
/// Make a stop in a function that has F as a parameter: the check covers no function in which a stop of a closure of
/// its own stands.
#[derive(Drop)]
pub struct Stop<F: Fn(&View) -> bool + ViewTest> {
    f: F,
}

impl<F: Fn(&View) -> bool + ViewTest> Model for Stop<F> {
    ghost Value = { F };

    ghost view = { λ stop. stop.f };

    ghost invariant = { λ stop. TakesEachView (F.ViewTest.can_test stop.f) };
}

impl<F: Fn(&View) -> bool + ViewTest> Stop<F> {
    /// Keeps a closure that may be called on each view.
    pub fn new(f: F) -> Stop<F>
        requires { TakesEachView (F.ViewTest.can_test f) }
        ensures { result ≡ f }
    {
        Stop { f }
    }

    /// Whether it holds at a view whose count is below 2^32, as that of each machine is: what the closure answers,
    /// which is one of the answers that its contract allows there.
    pub fn holds(&self, v: &View) -> bool
        requires { v.now.count < 2 ^ 32 }
        ensures { F.ViewTest.allows self.now v.now result }
    {
        read_view(v);
        self.f.test(v)
    }
}
