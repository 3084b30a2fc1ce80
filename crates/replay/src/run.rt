// The run, on any session.
ghost use Rattle.std.specs.Prelude.{◌≡◌, length};
ghost use Rattle.replay.specs.Calls.{named, There, three_of};
ghost use Rattle.replay.specs.Run.{Makes, Ran};

use crate::call::{Named, next_call, numbers};
use crate::session::Session;
use error::{Fed, Result};

// One call, whose output is the front of what is left to lend.
fn make_call<S: Session>(
    session: &mut S,
    call: Named,
    samples: &[u8],
    work: &mut [S::Work],
    out: &mut [u8],
) -> Result<Fed>
    requires { There call (length samples.now) (length out.old) (length work.old) }
    ensures { Makes S.feeds S.closes samples.now call session.old out.old work.old result
        session.new out.new work.new }
{
    match call {
        Named::Close => session.closing(),
        Named::Feed(part) => {
            let end = part.start + part.size;
            session.feeding(
                &samples[part.start..end],
                &mut out[..part.room],
                &mut work[..part.lent],
            )
        }
    }
}

// An answer's numbers. One by one: `copy_from_slice` would have the archive for C ask for memmove.
fn store(places: &mut [usize], answer: Result<Fed>)
    requires { length places.old ≡ 3 }
    ensures { places.new ≡ three_of answer }
{
    let three = numbers(answer);
    places[0] = three[0];
    places[1] = three[1];
    places[2] = three[2];
}

// Runs the calls on a session, and says how many were made.
pub(crate) fn run<S: Session>(
    session: &mut S,
    calls: &[usize],
    samples: &[u8],
    work: &mut [S::Work],
    out: &mut [u8],
    answers: &mut [usize],
) -> usize
    ensures { Ran S.feeds S.closes samples.now
        (named calls.now (length samples.now) (length out.old) (length work.old) (length answers.old))
        session.old out.old work.old answers.old result session.new out.new work.new answers.new }
{
    let mut lent: usize = 0;
    // By index: zipped chunks of five and of three would need a count of the calls made beside them, for the answer.
    let most = (calls.len() / 5).min(answers.len() / 3);
    for made in 0..most {
        let room = out.len() - lent;
        let next = next_call(&calls[5 * made..], samples.len(), room, work.len());
        let Some(call) = next else {
            return made;
        };
        let answer = make_call(session, call, samples, work, &mut out[lent..]);
        store(&mut answers[3 * made..3 * made + 3], answer);
        lent += call.room();
    }
    most
}
