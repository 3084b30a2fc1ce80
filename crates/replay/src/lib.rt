// Lists of calls given as numbers, each run on one session over parts of lent buffers.
//
// Five numbers a call: what it is (0 closes, any other number feeds), where in the lent samples its piece starts, how many samples it
// has, how many bytes of output and how many numbers of work it is lent. Closing looks at none of the other four. Outputs stand one
// behind the other from the front of `out`; work is lent from its front. A reading's samples are the bytes of its file, and its work is
// the extension buffer.
//
// Each call's answer is three numbers: the refusal's number, or 0; how many were taken, or the refusal's place (closing a making: 0;
// closing a reading: the frame count); how many bytes were written, or 0.
//
// The run ends with the list, before a call whose parts are not there (a piece past the samples, output or work past what is lent), or
// where an answer's three numbers have no room.
#![tactic(auto)]

ghost use Rattle.replay.specs.Decode as Decode;
ghost use Rattle.replay.specs.Encode as Encode;

use crate::run::run;
use decode_session::DecodeSession;
use encode_session::EncodeSession;

mod call;
mod run;
mod session;

// Runs the calls on a reading session, and says how many were made.
pub fn replay_decode(
    session: &mut DecodeSession,
    calls: &[usize],
    file: &[u8],
    out: &mut [u8],
    ext: &mut [u8],
    answers: &mut [usize],
) -> usize
    ensures { Decode.Replays session.old calls.now file.now out.old ext.old answers.old
        result session.new out.new ext.new answers.new }
{
    run(session, calls, file, ext, out, answers)
}

// Runs the calls on a making session, and says how many were made.
pub fn replay_encode(
    session: &mut EncodeSession,
    calls: &[usize],
    samples: &[u8],
    work: &mut [i16],
    out: &mut [u8],
    answers: &mut [usize],
) -> usize
    ensures { Encode.Replays session.old calls.now samples.now work.old out.old
        answers.old result session.new work.new out.new answers.new }
{
    run(session, calls, samples, work, out, answers)
}
