//! What stands before an instruction, as one.
ghost use Rattle.std.specs.Prelude.{◌≡◌, ◌∷◌, ◌++◌, [], List};
ghost use Rattle.i9_isa.specs.declared.inst.Inst.{Inst};
ghost use Rattle.i9_tune.specs.Greedy.{plain_need};
ghost use Rattle.i9_tune.specs.Fronts.{binds, IsFront};

use i9_model::Need;

/// What the instructions that stand before others read and write, as sets of resources, and whether one of them is a
/// load or a store. So whether another one depends on one of them takes the same steps however many they are.
#[derive(Clone, Copy)]
pub(crate) struct Front {
    /// The resources that are read or written.
    touched: u64,
    /// The resources that are written.
    written: u64,
    /// Whether one is a load or a store.
    request: bool,
}

impl Front {
    /// No instruction.
    #[tactic(auto, using(crate::proofs::Fronts::none_bound))]
    pub(crate) fn new() -> Front
        ensures { IsFront [] result }
    {
        Front {
            touched: 0,
            written: 0,
            request: false,
        }
    }

    /// Whether an instruction that needs this depends on one of them.
    pub(crate) fn binds(&self, n: &Need) -> bool
        ensures { result ≡ binds self.now n.now }
    {
        self.written & (n.reads | n.writes) != 0
            || n.writes & self.touched != 0
            || (self.request && n.request)
    }

    /// One more, which needs this.
    #[tactic(auto, using(crate::proofs::Fronts::one_more))]
    pub(crate) fn add(&mut self, n: &Need)
        ensures { (before : List Inst) (i : Inst) → IsFront before self.old → n.now ≡ plain_need i
            → IsFront (before ++ i ∷ []) self.new }
    {
        self.touched |= n.reads | n.writes;
        self.written |= n.writes;
        self.request |= n.request;
    }
}
