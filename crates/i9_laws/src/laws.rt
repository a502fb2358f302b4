//! Laws of whole runs, as the contracts of calls that do nothing.

ghost use Rattle.std.specs.Prelude.{◌≡◌, ◌%◌, ◌<◌, ◌∷◌, ◌++◌, ℕ, List, IsTrue, Ok};
ghost use Rattle.i9_model.specs.declared.layout.TheConstants.{AC_MASK, PC_MASK, TC_MASK, PFP};
ghost use Rattle.i9_model.specs.declared.calls.Sys.{Sys};
ghost use Rattle.i9_model.specs.Image.{Part, pairs_of, AreParts};
ghost use Rattle.i9_model.specs.declared.interrupts.TheConstants.{LINE_MASK};
ghost use Rattle.i9_model.specs.declared.dma.TheConstants.{COMMAND_MASK};
ghost use Rattle.i9_model.specs.Memory.{Memory};
ghost use Rattle.i9_model.specs.Calls.{Caller, planned_calls, Undoes};
ghost use Rattle.i9_model.specs.ScheduleText.{IsPlan};
ghost use Rattle.i9_model.specs.Run.{Given, Record, IsPast, state_after};
ghost use Rattle.i9_model.specs.HeldFrames.{AreInMemory};
ghost use Rattle.i9_laws.specs.Kept.{IsWithin, IsWord, HasBytes};
ghost use Rattle.i9_laws.specs.LiveFrames.{live_after, addresses_of, AreSaved};
ghost use Rattle.i9_laws.specs.Undone.{is_call, is_entry, is_return, LeavesRecord, GivesRegisters, GivesControls};
ghost use Rattle.i9_laws.specs.Undone.{HasControls, GivesOldControls};

/// Kept bits stay: along every run the arithmetic, the process and the trace controls have no bits but those that are
/// kept, and the instruction address is a multiple of 4; where the plan is one of a schedule, whose pins are 0 to 7 and
/// channels 0 to 3, the pending and the mask word have the bits of lines alone, and the DMA command word those of
/// channels; and where besides the bytes of the image have 8 bits, as those of segments and of a schedule's feeds have,
/// bytes of memory have 8 bits, and registers and the instruction address 32.
#[tactic(auto, using(crate::proofs::KeptBits::kept_after, crate::proofs::KeptLines::lines_after, crate::proofs::WordsAfter::words_after, crate::proofs::WordsAfter::parts_bytes))]
pub fn kept_bits_stay()
    ensures ac { (g : Given) (rs : List Record) → IsPast g rs → IsWithin AC_MASK (state_after g rs).ac }
    ensures pc { (g : Given) (rs : List Record) → IsPast g rs → IsWithin PC_MASK (state_after g rs).pc }
    ensures tc { (g : Given) (rs : List Record) → IsPast g rs → IsWithin TC_MASK (state_after g rs).trace.tc }
    ensures ip { (g : Given) (rs : List Record) → IsPast g rs → (state_after g rs).ip % 4 ≡ 0 }
    ensures pending { (g : Given) (rs : List Record) → IsPlan g.plan → IsPast g rs
        → IsWithin LINE_MASK (state_after g rs).interrupts.pending }
    ensures mask { (g : Given) (rs : List Record) → IsPlan g.plan → IsPast g rs
        → IsWithin LINE_MASK (state_after g rs).interrupts.mask }
    ensures command { (g : Given) (rs : List Record) → IsPlan g.plan → IsPast g rs
        → IsWithin COMMAND_MASK (state_after g rs).dma.dmac }
    ensures registers { (g : Given) (rs : List Record) → HasBytes g.image → IsPlan g.plan → IsPast g rs
        → (r : ℕ) → IsWord ((state_after g rs).regs r) }
    ensures address { (g : Given) (rs : List Record) → HasBytes g.image → IsPlan g.plan → IsPast g rs
        → IsWord (state_after g rs).ip }
    ensures bytes { (g : Given) (rs : List Record) → HasBytes g.image → IsPlan g.plan → IsPast g rs
        → (a : ℕ) → (state_after g rs).memory.bytes a < 256 }
    ensures images { (ps : List Part) → AreParts ps → HasBytes (pairs_of ps) }
{}

/// A live frame keeps its words: along every run the frames that are live after the records have the addresses of the
/// state's live frames, and the words that their saves wrote stand in memory: those of 32 bits at addresses of 32 bits,
/// and so all, where the bytes of the image have 8 bits and the plan is one of a schedule.
#[tactic(auto, using(crate::proofs::LiveFrames::live_addresses, crate::proofs::LiveFrames::live_in_memory, crate::proofs::LiveFrames::live_saved))]
pub fn a_live_frame_keeps_its_words()
    ensures addresses { (g : Given) (rs : List Record) → IsPast g rs
        → (state_after g rs).frames.live ≡ addresses_of (live_after rs) }
    ensures words { (g : Given) (rs : List Record) → IsPast g rs
        → AreInMemory (state_after g rs).memory (live_after rs) }
    ensures saved { (g : Given) (rs : List Record) → HasBytes g.image → IsPlan g.plan → IsPast g rs
        → AreSaved (state_after g rs).memory (live_after rs) }
{}

/// A return undoes a call. Where call, callx, calls or the entry of a fault or of an interrupt is in the past of a run,
/// and a return comes next, then whatever was done between: registers and the instruction address come back where the
/// live frames are again those right after the call, with their words (pfp names the call's frame then, since the
/// return meets no hazard); the controls are those of such a return where pfp is what it was right after the call;
/// after a fault or an interrupt they are those from before it, where its record below fp still has them. A return
/// right after a call finds all this as the call left it; the entry of an interrupt that software asked for leaves its
/// record, where the request's two bytes, which it clears, lie beside it.
pub fn a_return_undoes_a_call()
    ensures registers { (g : Given) (rs between : List Record) (call back : Record) → HasBytes g.image → IsPlan g.plan
        → IsPast g (back ∷ between ++ call ∷ rs) → IsTrue (is_call call.kind) → IsTrue (is_return back.kind)
        → live_after (between ++ call ∷ rs) ≡ live_after (call ∷ rs) → GivesRegisters call back }
    ensures controls { (g : Given) (rs between : List Record) (call back : Record)
        → IsPast g (back ∷ between ++ call ∷ rs) → IsTrue (is_call call.kind) → IsTrue (is_return back.kind)
        → back.before.regs PFP ≡ call.after.regs PFP → GivesControls call back }
    ensures entry { (g : Given) (rs between : List Record) (call back : Record)
        → IsPast g (back ∷ between ++ call ∷ rs) → IsTrue (is_entry call.kind) → IsTrue (is_return back.kind)
        → back.before.regs PFP ≡ call.after.regs PFP → HasControls call.before back.before
        → GivesOldControls call back }
    ensures at_once { (g : Given) (rs : List Record) (call back : Record) → HasBytes g.image → IsPlan g.plan
        → IsPast g (back ∷ call ∷ rs) → IsTrue (is_call call.kind) → IsTrue (is_return back.kind)
        → GivesRegisters call back × GivesControls call back }
    ensures entry_at_once { (g : Given) (rs : List Record) (call back : Record)
        → IsPast g (back ∷ call ∷ rs) → IsTrue (is_entry call.kind) → LeavesRecord call.kind call.before
        → IsTrue (is_return back.kind) → GivesOldControls call back }
{}

/// A return right after a system call undoes it, whatever is in memory then: it meets no hazard,
/// goes to the frame that the call saved, and gives back the process controls.
#[tactic(auto, using(crate::proofs::Undoing::call_undone))]
pub fn returns_undo_system_calls()
    ensures { (c : Caller) (later : Memory) (table n ac : ℕ) (s : Sys)
        → planned_calls c table n ≡ Ok s → Undoes later c.frames c.pc ac s }
{}
