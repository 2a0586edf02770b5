// The calls of the crate fiswalend under their names for C: include/fiswalend.h declares them, a slice as a pointer and a length,
// and says what the caller must see to.
#![tactic(auto)]

ghost use Rattle.judge.specs.Checking.{check_answer};
ghost use Rattle.judge.specs.Claiming.{claim_answer};
ghost use Rattle.judge.specs.Converting.{convert_answer};
ghost use Rattle.judge.specs.Trying.{trial_check};
ghost use Rattle.fiswalend.specs.Calls.{CheckCall, ClaimCall, ConvertCall, WalkCall, TrialWalkCall};
ghost use Rattle.fiswalend.specs.History.{AddCall, VersionCall, WindBackCall};

use changes::Change;

// Whether a picture is sound: the number, and the answer in the buffer.
#[unsafe(no_mangle)]
pub extern "C" fn fpb_check(picture: &[u8], answer: &mut [u8]) -> u32
    ensures { CheckCall (check_answer picture.now) answer.old result answer.new }
{
    fiswalend::fpb_check(picture, answer)
}

// Where a packet goes: the number, and the answer in the buffer.
#[unsafe(no_mangle)]
pub extern "C" fn fpb_walk(
    picture: &[u8],
    answer: &mut [u8],
    kind: u32,
    start: u32,
    target: u64,
) -> u32
    ensures { WalkCall picture.now kind start target answer.old result answer.new }
{
    fiswalend::fpb_walk(picture, answer, kind, start, target)
}

// Whether a picture would be sound with the patch's vectors put in: the number, and the answer in the buffer.
#[unsafe(no_mangle)]
pub extern "C" fn fpb_trial_check<'a>(picture: &'a [u8], patch: &'a [u8], answer: &mut [u8]) -> u32
    ensures { CheckCall (trial_check picture.now patch.now) answer.old result answer.new }
{
    fiswalend::fpb_trial_check(picture, patch, answer)
}

// Where a packet would go with the patch's vectors put in: the number, and the answer in the buffer.
#[unsafe(no_mangle)]
pub extern "C" fn fpb_trial_walk<'a>(
    picture: &'a [u8],
    patch: &'a [u8],
    answer: &mut [u8],
    kind: u32,
    start: u32,
    target: u64,
) -> u32
    ensures { TrialWalkCall picture.now patch.now kind start target answer.old result answer.new }
{
    fiswalend::fpb_trial_walk(picture, patch, answer, kind, start, target)
}

// The number, and where it is 0 the decoders of the port that claim the target.
#[unsafe(no_mangle)]
pub extern "C" fn fpb_claim(
    picture: &[u8],
    port: u32,
    kind: u32,
    target: u64,
    decoders: &mut u32,
) -> u32
    ensures { ClaimCall (claim_answer picture.now port kind target) decoders.old result decoders.new }
{
    fiswalend::fpb_claim(picture, port, kind, target, decoders)
}

// The number, and where it is 0 what the port decides.
#[unsafe(no_mangle)]
pub extern "C" fn fpb_convert(picture: &[u8], port: u32, target: u64, decided: &mut u32) -> u32
    ensures { ConvertCall (convert_answer picture.now port target) decided.old result decided.new }
{
    fiswalend::fpb_convert(picture, port, target, decided)
}

// Adds a run behind the changes kept, whole or not at all, and says how many are kept then.
#[unsafe(no_mangle)]
pub extern "C" fn fpb_history_add(
    first: &[u8],
    room: &mut [Change],
    run: &[Change],
    kept: u32,
    now_kept: &mut u32,
) -> u32
    ensures { AddCall first.now room.old run.now kept now_kept.old result room.new now_kept.new }
{
    fiswalend::fpb_history_add(first, room, run, kept, now_kept)
}

// Writes version k into a buffer: the first picture, then the first k changes made.
#[unsafe(no_mangle)]
pub extern "C" fn fpb_history_version(
    first: &[u8],
    room: &[Change],
    out: &mut [u8],
    kept: u32,
    k: u32,
) -> u32
    ensures { VersionCall first.now room.now kept k out.old result out.new }
{
    fiswalend::fpb_history_version(first, room, out, kept, k)
}

// Winds back to version k: the changes behind it are dropped, and the next run stands in their room.
#[unsafe(no_mangle)]
pub extern "C" fn fpb_history_wind_back(kept: u32, k: u32, now_kept: &mut u32) -> u32
    ensures { WindBackCall kept k now_kept.old result now_kept.new }
{
    fiswalend::fpb_history_wind_back(kept, k, now_kept)
}
