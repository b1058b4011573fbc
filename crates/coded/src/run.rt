// Lists of calls, made of an axis from power-up on.
ghost use Rattle.std.specs.Prelude.{◌≡◌, ◌<◌, [], length, IfSome, IsNone, ◌↔◌, None, Err, is_ok, true};
ghost use Rattle.coded.specs.Calls.{answers_of, IsStuck};

use crate::call::{Call, answers, next_call};
use crate::shown::Shown;
use axis::axis::Axis;
use bed::kind::{BaseProfile, BedKind, DriveKind, ProfileKind, Smoothings};
use block::refusal::{Refusal, answer_number};
use drive::phase::PhaseDrive;
use drive::pulse::PulseDrive;
use drive::traits::Drive;
use profile::creep::Creep;
use profile::traits::Profile;
use ramp::ramp::Ramp;
use smoothing::smoothed::Smoothed;

// The most words that a block can have here.
const MOST_WORDS: usize = 255;
// What the buffer of a reading holds before it.
const BEFORE: i16 = 7;

// Why a list of calls was not made to its end.
#[derive(Clone, Copy, PartialEq, Eq, Debug)]
pub enum Unmade {
    // What comes next is no call.
    Unreadable,
    // There is no room for the answers of the next call. It was not made.
    NoRoom,
}

fn number(answer: Result<(), Refusal>) -> i32 {
    answer_number(answer) as i32
}

fn make_block<D: Drive, P: Profile>(axis: &mut Axis<D, P>, bytes: &[u8]) -> Result<(), Refusal> {
    let (pairs, _) = bytes.as_chunks::<2>();
    let count = pairs.len().min(MOST_WORDS);
    let mut words = [0i16; MOST_WORDS];
    for (word, pair) in words.iter_mut().zip(pairs) {
        *word = i16::from_le_bytes(*pair);
    }
    axis.block(&words[..count])
}

// A reading into a buffer of as many words as there is room for after the answer.
fn make_reading<D: Drive, P: Profile>(axis: &Axis<D, P>, out: &mut [i32]) {
    let Some((answer, shown)) = out.split_first_mut() else {
        return;
    };
    let count = shown.len().min(MOST_WORDS);
    let mut buffer = [BEFORE; MOST_WORDS];
    *answer = number(axis.reading(&mut buffer[..count]));
    for (shown, word) in shown.iter_mut().zip(&buffer) {
        *shown = *word as i32;
    }
}

fn look_at<D: Shown>(drive: &D, out: &mut [i32]) {
    if let Some(front) = out.first_chunk_mut::<3>() {
        *front = [drive.place(), drive.tripped() as i32, drive.shown()];
    }
}

// Makes a call and writes its answers to the front of `out`. Where there is no room for them it is not made.
#[inline(never)]
fn make<D: Shown, P: Profile>(axis: &mut Axis<D, P>, call: Call, out: &mut [i32]) -> Option<usize>
    ensures room { IsNone result ↔ (length out.old < answers_of call.entry) }
    ensures written { IfSome result (λ count. count ≡ answers_of call.entry) }
    ensures none { result ≡ None → out.new ≡ out.old }
{
    let count = answers(&call);
    if out.len() < count {
        return None;
    }
    let out = &mut out[..count];
    match call {
        Call::SetUp(speed) => out.fill(number(axis.set_up(speed))),
        Call::Block(bytes) => out.fill(number(make_block(axis, bytes))),
        Call::Event(code) => out.fill(number(axis.event(code))),
        Call::Ticks(_) => {
            for steps in out {
                *steps = axis.tick();
            }
        }
        Call::Reading(_) => make_reading(axis, out),
        Call::Drive => look_at(axis.drive(), out),
    }
    Some(count)
}

// Makes the calls one after the other. A call that cannot be read or whose answers find no room ends it, with all before it made.
fn run_over<D: Shown + Drop, P: Profile + Drop>(
    drive: D,
    profile: P,
    calls: &[u8],
    out: &mut [i32],
) -> Result<(), Unmade>
    ensures unreadable { IsStuck calls.now (length out.old) Unmade.Unreadable → (result ≡ Err Unmade.Unreadable) × (out.new ≡ out.old) }
    ensures crowded { IsStuck calls.now (length out.old) Unmade.NoRoom → (result ≡ Err Unmade.NoRoom) × (out.new ≡ out.old) }
    ensures none { calls.now ≡ [] → (is_ok result ≡ true) × (out.new ≡ out.old) }
{
    let mut axis = Axis::power_up(drive, profile);
    let mut rest = calls;
    let mut at = 0;
    while !rest.is_empty() {
        let next = next_call(rest).ok_or(Unmade::Unreadable)?;
        at += make(&mut axis, next.call, &mut out[at..]).ok_or(Unmade::NoRoom)?;
        rest = next.rest;
    }
    Ok(())
}

fn smooth<P: Profile>(below: P, length: u32) -> Smoothed<P> {
    Smoothed::new(below, length as usize)
}

fn run_on_base<D: Shown + Drop, P: Profile + Drop>(
    drive: D,
    base: P,
    smoothings: Smoothings,
    calls: &[u8],
    out: &mut [i32],
) -> Result<(), Unmade>
    ensures unreadable { IsStuck calls.now (length out.old) Unmade.Unreadable → (result ≡ Err Unmade.Unreadable) × (out.new ≡ out.old) }
    ensures crowded { IsStuck calls.now (length out.old) Unmade.NoRoom → (result ≡ Err Unmade.NoRoom) × (out.new ≡ out.old) }
    ensures none { calls.now ≡ [] → (is_ok result ≡ true) × (out.new ≡ out.old) }
{
    match smoothings {
        Smoothings::Unsmoothed => run_over(drive, base, calls, out),
        Smoothings::Once(length) => run_over(drive, smooth(base, length), calls, out),
        Smoothings::Twice(outer, inner) => {
            run_over(drive, smooth(smooth(base, inner), outer), calls, out)
        }
    }
}

fn run_on_drive<D: Shown + Drop>(
    drive: D,
    kind: ProfileKind,
    calls: &[u8],
    out: &mut [i32],
) -> Result<(), Unmade>
    ensures unreadable { IsStuck calls.now (length out.old) Unmade.Unreadable → (result ≡ Err Unmade.Unreadable) × (out.new ≡ out.old) }
    ensures crowded { IsStuck calls.now (length out.old) Unmade.NoRoom → (result ≡ Err Unmade.NoRoom) × (out.new ≡ out.old) }
    ensures none { calls.now ≡ [] → (is_ok result ≡ true) × (out.new ≡ out.old) }
{
    match kind.base {
        BaseProfile::Creep => run_on_base(drive, Creep::new(), kind.smoothings, calls, out),
        BaseProfile::Ramp => run_on_base(drive, Ramp::new(), kind.smoothings, calls, out),
    }
}

// Makes the calls of an axis over a bed of this kind, whose drive stands at 0, and writes their answers to the front of `out`.
pub fn run_calls(bed: BedKind, calls: &[u8], out: &mut [i32]) -> Result<(), Unmade>
    ensures unreadable { IsStuck calls.now (length out.old) Unmade.Unreadable → (result ≡ Err Unmade.Unreadable) × (out.new ≡ out.old) }
    ensures crowded { IsStuck calls.now (length out.old) Unmade.NoRoom → (result ≡ Err Unmade.NoRoom) × (out.new ≡ out.old) }
    ensures none { calls.now ≡ [] → (is_ok result ≡ true) × (out.new ≡ out.old) }
{
    match bed.drive {
        DriveKind::Pulse => run_on_drive(PulseDrive::new(), bed.profile, calls, out),
        DriveKind::Phase => run_on_drive(PhaseDrive::new(), bed.profile, calls, out),
    }
}
