//! The instruction at the instruction address, with its words.
ghost use Rattle.std.specs.Prelude.{◌≡◌, None};
ghost use Rattle.i9_isa.specs.Words.{words_of};
ghost use Rattle.i9_model.specs.Hazards.{read_hazard};
ghost use Rattle.i9_model.specs.Step.{first_word};
ghost use Rattle.i9_processor.specs.State.{state_of};
ghost use Rattle.i9_plan.specs.Kept.{inst_in, words_in};
ghost use Rattle.i9_plan.specs.Planned.{IsFetched};

use crate::decode_cache::DecodeCache;
use i9_decode::BadWord;
use i9_processor::Processor;

/// The words of an instruction. The second is 0 where there is none.
#[derive(Clone, Copy)]
pub struct Words {
    pub first: u32,
    pub second: u32,
}

/// Why no instruction is there: its fetch meets a hazard at this byte, or its first word is refused.
#[derive(Clone, Copy, Debug)]
pub(crate) enum Unread {
    Meets(u32),
    Refused { first: u32, why: BadWord },
}

/// Reads the second word of an instruction that has two, where nothing stands against it.
#[inline(never)]
#[tactic(auto, using(crate::proofs::Fetching::fetch_rules))]
fn fetch_long(p: &Processor, decodes: &mut DecodeCache) -> Result<(), Unread>
    requires clear { read_hazard (state_of p.now).frames (state_of p.now).ip 4 ≡ None }
    requires first { (words_in decodes.old).first ≡ first_word (state_of p.now) }
    requires long { words_of (inst_in decodes.old) ≡ 2 }
    ensures fetched { IsFetched (state_of p.now) decodes.new result }
{
    let at = p.ip().wrapping_add(4);
    if let Some(a) = p.check_read(at, 4) {
        return Err(Unread::Meets(a));
    }
    decodes.lengthen(p.hard_word(at));
    Ok(())
}

/// Reads the instruction at the instruction address into the decode cache, or tells why there is none. The second
/// word is read where there is one.
#[inline(always)]
#[tactic(auto, using(crate::proofs::Fetching::fetch_rules))]
pub(crate) fn fetch(p: &Processor, decodes: &mut DecodeCache) -> Result<(), Unread>
    ensures fetched { IsFetched (state_of p.now) decodes.new result }
{
    let first = match p.first_word() {
        Ok(first) => first,
        Err(a) => return Err(Unread::Meets(a)),
    };
    if let Err(why) = decodes.read(p.ip(), first) {
        return Err(Unread::Refused { first, why });
    }
    if decodes.is_long() {
        fetch_long(p, decodes)
    } else {
        Ok(())
    }
}
