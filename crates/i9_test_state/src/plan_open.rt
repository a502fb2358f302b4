//! What is planned while something is open, and what is known of instructions, in the state of the other tests.
use crate::plan::given;
use crate::plan_state::ready;
use crate::plan_told::{done_text, effect_text, planned_text};
use crate::rows::{hex_words, rows_hold};
use i9_model::Facts;
use i9_plan::{DecodeCache, Open, Planned, facts, plan_here, plan_next, plan_open};
use i9_processor::{Effect, Processor};
use std::alloc::Global;
use std::test::Fail;

/// What waits until all is done: barriers, what is refused, faults before anything is done, and hazards.
const WAITS: &str = "\
call                            | 0 1F2002 1000 9000008 0  | waits
ret                             | 0 1F2002 1000 A000000 0  | waits
flushreg                        | 0 1F2002 1000 66000680 0 | waits
syncf                           | 0 1F2002 1000 66000780 0 | waits
modac                           | 0 1F2002 1000 64A09A87 0 | waits
atadd                           | 0 1F2002 1000 61A05111 0 | waits
mov 5, sf1                      | 0 1F2002 1000 5C082E05 0 | waits
a word without an instruction   | 0 1F2002 1000 0 0        | waits
ld at 4001                      | 0 1F2002 1000 90A46000 0 | waits
mov of sf0 in user mode         | 0 1F2000 1000 5CA00620 0 | waits
faulte where it is equal        | 2 1F2002 1000 1A000000 0 | waits
st to the live frame            | 0 1F2002 1000 92A42000 0 | waits
a first word in the live frame  | 0 1F2002 3002 8CA83000 0 | waits
a second word in the live frame | 0 1F2002 2FFC 8CA83000 0 | waits
";

/// What is done, or what its result raises: faults that may be imprecise, that are precise, and while trace enable is
/// set.
const RUNS: &str = "\
mov 5, g4                | 0 1F2002 1000 5CA01E05 0 | Mov 5CA01E05 0: 0 1F2002 0 1004, r20 5
addo 3, 4, g4            | 0 1F2002 1000 59A11803 0 | Addo 59A11803 0: 0 1F2002 0 1004, r20 7
mov of sf1, which is 0   | 0 1F2002 1000 5CA00621 0 | Mov 5CA00621 0: 0 1F2002 0 1004, r20 0
ld at 1110               | 0 1F2002 1000 90A72D0A 0 | Ld 90A72D0A 0: 0 1F2002 0 1004, r20 1300
ld of the live frame     | 0 1F2002 1000 90A42000 0 | Ld 90A42000 0: 0 1F2002 0 1004, r20 --------
ldq at 1110              | 0 1F2002 1000 B0A72D0A 0 | Ldq B0A72D0A 0: 0 1F2002 0 1004, r20 1300 0 1 0
st g5 at 4008            | 0 1F2002 1000 92AF6000 0 | St 92AF6000 0: 0 1F2002 0 1004, 4008 04 01 00 06
stob g4 to the console   | 0 1F2002 1000 82A03000 E0000000 | Stob 82A03000 E0000000: 0 1F2002 0 1008, E0000000 05
b 0x1008                 | 0 1F2002 1000 8000008 0  | B 8000008 0: 0 1F2002 0 1008
cmpobe, taken            | 0 1F2002 1000 3200E010 0 | Cmpobe 3200E010 0: 2 1F2002 0 1010
faulte where it is greater | 1 1F2002 1000 1A000000 0 | Faulte 1A000000 0: 1 1F2002 0 1004
lda 0x1234, g5           | 0 1F2002 1000 8CA83000 1234 | Lda 8CA83000 1234: 0 1F2002 0 1008, r21 1234
bal 0x1008               | 0 1F2002 1000 B000008 0  | Bal B000008 0: 0 1F2002 0 1008, r30 1004
mov 5, g4, traced        | 0 1F2003 1000 5CA01E05 0 | Mov 5CA01E05 0: 0 1F2003 0 1004, r20 5
fmark, traced            | 0 1F2003 1000 66000600 0 | Fmark 66000600 0: 0 1F2003 0 1004, trace 0 80
muli that overflows      | 0 1F2002 1000 74A48092 0 | Muli 74A48092 0: fault 3 1
divi by 0                | 0 1F2002 1000 74A11D80 0 | Divi 74A11D80 0: fault 3 2
muli, precise            | 8000 1F2002 1000 74A48092 0 | Muli 74A48092 0: fault 3 1
divi, precise            | 8000 1F2002 1000 74A11D80 0 | Divi 74A11D80 0: fault 3 2
addi that overflows, traced | 0 1F2003 1000 59A48092 0 | Addi 59A48092 0: fault 3 1
";

/// What is planned while something is open.
pub(crate) fn open_text(alloc: Global, p: &Processor) -> Result<String, Fail> {
    let mut decodes = DecodeCache::new(alloc)?;
    let mut effect = Effect::blank();
    match plan_open(p, &mut decodes, &mut effect) {
        Open::Waits { .. } => Ok(format!(in alloc; "waits")?),
        Open::Runs => done_text(alloc, &decodes, &effect_text(alloc, &effect)?),
        Open::Faults(number) => {
            let what = format!(in alloc; "fault {} {}", number.0, number.1)?;
            done_text(alloc, &decodes, &what)
        }
    }
}

/// What is planned while something is open, in the state of a row.
fn planned_open(alloc: Global, state: &str) -> Result<String, Fail> {
    let p = given(alloc, state)?;
    open_text(alloc, &p)
}

#[test]
fn plans_while_something_is_open(rt: HostRuntime) -> Result<(), Fail> {
    rows_hold(&rt, rt.alloc(), &[WAITS, RUNS], planned_open)
}

/// What waits, once all is done: whether it had been read then, and what is planned.
const READ: &str = "\
flushreg             | 0 1F2002 1000 66000680 0 | true, then Flushreg 66000680 0: 0 1F2002 0 1004, flushes
syncf                | 0 1F2002 1000 66000780 0 | true, then Syncf 66000780 0: 0 1F2002 0 1004
ret                  | 0 1F2002 1000 A000000 0  | true, then Ret A000000 0: 0 1F2002 0 8, returns 3000 0
no instruction       | 0 1F2002 1000 0 0        | false, then refused 2 1
ld at 4001           | 0 1F2002 1000 90A46000 0 | false, then Ld 90A46000 0: fault 2 3
st to the live frame | 0 1F2002 1000 92A42000 0 | false, then meets 3010
";

/// What is planned of what waits, once all is done, and whether it had been read.
fn read_text(alloc: Global, state: &str) -> Result<String, Fail> {
    let p = &given(alloc, state)?;
    let mut decodes = DecodeCache::new(alloc)?;
    let mut effect = Effect::blank();
    let Open::Waits { read } = plan_open(p, &mut decodes, &mut effect) else {
        return Err("it does not wait".into());
    };
    let planned = plan_here(p, read, &mut decodes, &mut effect);
    let text = planned_text(alloc, &decodes, &planned, &effect)?;
    Ok(format!(in alloc; "{read}, then {text}")?)
}

#[test]
fn reads_a_barrier_once(rt: HostRuntime) -> Result<(), Fail> {
    rows_hold(&rt, rt.alloc(), &[READ], read_text)
}

/// What is known of an instruction that moves so many frames (the last number): its address, its data access, its
/// waits and its frames, and then, where it is so, that it touches the port page, that it raises a fault or a trace
/// fault, that it meets a hazard, and that it passes nothing.
const KNOWN: &str = "\
addo                    | 0 1F2002 1000 59A11803 0 0    | 1000 None 0 0
addo, where AC has bit 15 | 8000 1F2002 1000 59A11803 0 0 | 1000 None 0 0 alone
addo, traced            | 0 1F2003 1000 59A11803 0 0    | 1000 None 0 0 alone
fmark, traced           | 0 1F2003 1000 66000600 0 0    | 1000 None 0 0 trace alone
ld at 1110              | 0 1F2002 1000 90A72D0A 0 0    | 1000 Some((4368, 4)) 3 0
ld at 4001              | 0 1F2002 1000 90A46000 0 0    | 1000 Some((16385, 4)) 3 0 fault
atadd of the word of 4001 | 0 1F2002 1000 61A05111 0 0  | 1000 Some((16384, 4)) 8 0
call                    | 0 1F2002 1000 9000008 0 1     | 1000 None 0 1
stob to the console     | 0 1F2002 1000 82A03000 E0000000 0 | 1000 Some((3758096384, 1)) 0 0 port
ldq that reaches the port page | 0 1F2002 1000 B0A03000 DFFFFFF8 0 | 1000 Some((3758096376, 16)) 0 0 port fault
ldl that ends below it  | 0 1F2002 1000 98A03000 DFFFFFF8 0 | 1000 Some((3758096376, 8)) 0 0
";

/// A word, where something holds.
fn where_so(holds: bool, word: &'static str) -> &'static str {
    if holds { word } else { "" }
}

/// What is known of an instruction.
fn facts_text(alloc: Global, f: &Facts) -> Result<String, Fail> {
    let Facts {
        ip,
        access,
        waits,
        frames,
        ..
    } = f;
    let mut text = format!(in alloc; "{ip:X} {access:?} {waits} {frames}")?;
    text.push_str(where_so(f.port, " port"))?;
    text.push_str(where_so(f.fault, " fault"))?;
    text.push_str(where_so(f.trace, " trace"))?;
    text.push_str(where_so(f.hazard, " hazard"))?;
    text.push_str(where_so(f.alone, " alone"))?;
    Ok(text)
}

/// What is known of the instruction of a row, where it meets no hazard.
fn known_text(alloc: Global, text: &str) -> Result<String, Fail> {
    let numbers = hex_words(alloc, text)?;
    let [ac, pc, at, first, second, frames] = numbers.as_slice() else {
        return Err("a row has six numbers".into());
    };
    let p = ready(alloc, *at, (*first, *second), *ac, *pc)?;
    let mut decodes = DecodeCache::new(alloc)?;
    let frames = (*frames).min(15) as u8;
    let mut effect = Effect::blank();
    match plan_next(&p, &mut decodes, &mut effect) {
        Planned::Runs => {
            let is_traced = effect.trace.is_some();
            facts_text(alloc, &facts(&p, &decodes, frames, false, is_traced))
        }
        Planned::Faults(_) => facts_text(alloc, &facts(&p, &decodes, frames, true, false)),
        _ => Err("no instruction is there".into()),
    }
}

#[test]
fn knows_facts(rt: HostRuntime) -> Result<(), Fail> {
    rows_hold(&rt, rt.alloc(), &[KNOWN], known_text)
}
