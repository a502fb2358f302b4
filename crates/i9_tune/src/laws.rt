//! Laws of blocks, as the contracts of calls that do nothing.

ghost use Rattle.std.specs.Prelude.{◌≡◌, ◌<◌, ◌≤◌, ◌%◌, ◌∷◌, [], ℕ, List, Ok, true};
ghost use Rattle.i9_isa.specs.declared.op.Op.{Op};
ghost use Rattle.i9_isa.specs.declared.inst.Inst.{Inst};
ghost use Rattle.i9_isa.specs.Words.{bit};
ghost use Rattle.i9_isa.specs.Resources.{reads_code};
ghost use Rattle.i9_isa.specs.Operands.{words_read};
ghost use Rattle.i9_isa.specs.Table.{row_of};
ghost use Rattle.i9_isa.specs.Valid.{IsValid};
ghost use Rattle.i9_model.specs.declared.need.Facts.{Facts};
ghost use Rattle.i9_model.specs.Needs.{inst_need};
ghost use Rattle.i9_model.specs.Results.{results_by};
ghost use Rattle.std.specs.List.{AllByRecursion, flat_map};
ghost use Rattle.std.specs.List.Sorted.{IsPermutation};
ghost use Rattle.i9_model.specs.Writes.{last_put};
ghost use Rattle.i9_model.specs.Memory.{Memory};
ghost use Rattle.i9_model.specs.State.{State};
ghost use Rattle.i9_tune.specs.Inputs.{IsSameWords, AreSame};
ghost use Rattle.i9_tune.specs.Blocks.{is_allowed, AreApart};
ghost use Rattle.i9_tune.specs.Deeds.{AgreeBeside, AreSameIn, DoesSame};
ghost use Rattle.i9_tune.specs.Passes.{ArePassed, AreAsGood};
ghost use Rattle.i9_tune.specs.Orders.{IsOrder, AreAllowed};
ghost use Rattle.i9_tune.specs.Standings.{byte_length, StandAt, AreWords, HoldsWords, Replaces, DoTheSame};
ghost use Rattle.i9_tune.specs.Greedy.{AreTunable, IsGreedy, IsTuned, span_of};
ghost use Rattle.i9_tune.specs.Reading.{block_at};
ghost use Rattle.i9_tune.specs.Tuning.{AreCodes, IsTuning};

/// A result sees of its sources the words that the name reads, and of the arithmetic controls bit 12 and, where the
/// name reads it, the condition code.
pub fn a_result_sees_its_sources()
    ensures { (op : Op) (a b x y : List ℕ) (c z ac bc : ℕ)
        → IsSameWords (words_read (row_of op).a) a x → IsSameWords (words_read (row_of op).b) b y
        → (0 < words_read (row_of op).c → c ≡ z)
        → (reads_code op ≡ true → ac % 8 ≡ bc % 8) → bit ac 12 ≡ bit bc 12
        → AreSame op ac bc (results_by op a b c ac) (results_by op x y z bc) }
{}

/// An allowed instruction sees what its need reads, with the marks of these registers, and beside them bit 12 of the
/// arithmetic controls, which no allowed instruction changes, the orders of bytes, the bytes that it loads, and which
/// of them are soft: where all that is the same, it does the same, with the same marks and the same misuse of marked
/// registers. So a need names all that is read, as `actions_keep_to_their_needs` says of what is written.
pub fn an_instruction_sees_what_its_need_reads()
    ensures { (f : Facts) (i : Inst) (s t : State) → IsValid i → is_allowed i ≡ true
        → AreSameIn (inst_need i f).reads s t → AgreeBeside i s t → DoesSame i s t }
{}

/// Two instructions that are apart may change places.
pub fn instructions_that_are_apart_change_places()
    ensures { (area : ℕ × ℕ) (i j : Inst) (is : List Inst) (s : State) → is_allowed i ≡ true → is_allowed j ≡ true
        → AreApart i j → ArePassed area (i ∷ j ∷ is) s → AreAsGood area (i ∷ j ∷ is) (j ∷ i ∷ is) s }
{}

/// A block does the same in every order in which instructions that depend on each other keep theirs.
pub fn orders_are_as_good()
    ensures { (area : ℕ × ℕ) (block order : List Inst) (s : State) → AreAllowed block → IsOrder block order
        → ArePassed area block s → AreAsGood area block order s }
{}

/// From every state at whose instruction address a block stands and is done, without hazard, fault, exit or trace
/// event and without a load or store that has a byte of the block: each such order of it, and so the tuned block, is
/// done where it stands there instead, leaves the same state, and sends the same bytes to the port page, but that the
/// block's own bytes are those of the order. Where trace enable is set, no enabled instruction breakpoint is at a byte
/// of the block (`Replaces`).
pub fn tuned_blocks_do_the_same()
    ensures order { (block order : List Inst) (s t : State) → AreAllowed block → IsOrder block order
        → Replaces block order s t → DoTheSame (s.ip, byte_length block) block order s t }
    ensures tuned { (block tuned : List Inst) (s t : State) → AreTunable block → IsTuned block tuned
        → Replaces block tuned s t → DoTheSame (s.ip, byte_length block) block tuned s t }
{}

/// A block has one greedy order, and so one tuned block. That is a permutation of it in which instructions that depend
/// on each other keep their order, and takes no more turns.
pub fn a_block_is_tuned_one_way()
    ensures some { (block : List Inst) → (tuned : List Inst) × IsTuned block tuned }
    ensures greedy { (block p q : List Inst) → IsGreedy [] block p → IsGreedy [] block q → p ≡ q }
    ensures tuned { (block p q : List Inst) → IsTuned block p → IsTuned block q → p ≡ q }
    ensures order { (block tuned : List Inst) → AreTunable block → IsTuned block tuned → IsOrder block tuned }
    ensures permutation { (block order : List Inst) → IsOrder block order → IsPermutation block order }
    ensures no_more { (block tuned : List Inst) → IsTuned block tuned → span_of tuned ≤ span_of block }
{}

/// A block that stands in an image of bytes may be tuned, and a block that may be tuned has one text.
pub fn a_block_has_one_text()
    ensures tunable { (pairs : List (ℕ × ℕ)) (n a : ℕ) (block : List Inst)
        → AllByRecursion (λ (p : ℕ × ℕ). p.1 < 256) pairs
        → block_at (last_put pairs) n a ≡ Ok block → AreTunable block }
    ensures some { (a : ℕ) (block : List Inst) → AreTunable block → (text : List ℕ) × IsTuning a block text }
    ensures one { (a : ℕ) (block : List Inst) (s t : List ℕ) → AreTunable block
        → IsTuning a block s → IsTuning a block t → s ≡ t }
{}

/// Instructions stand where their words are in memory, and the words that are printed of a tuned block are words of it.
pub fn instructions_stand_by_their_words()
    ensures stand { (m : Memory) (a : ℕ) (is : List Inst) (ws : List ℕ) → AreWords is ws → HoldsWords m a ws
        → StandAt m a is }
    ensures printed { (is : List Inst) (codes : List (List ℕ)) → AreCodes is codes
        → AreWords is (flat_map (λ (ws : List ℕ). ws) codes) }
{}
