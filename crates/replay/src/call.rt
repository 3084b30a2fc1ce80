// The call that the next five numbers name, and an answer's three numbers.
ghost use Rattle.std.specs.Prelude.{◌≤◌, ◌≡◌, length};
ghost use Rattle.replay.specs.Calls.{Tests, Nexts, room_of, three_of};

use error::{Fed, Result};

// What a feeding call is lent: the piece, so many bytes of output, and so many numbers of work.
#[derive(Clone, Copy)]
pub(crate) struct Lending {
    pub(crate) start: usize,
    pub(crate) size: usize,
    pub(crate) room: usize,
    pub(crate) lent: usize,
}

impl Lending {
    // Whether so many samples, bytes of output and numbers of work have the parts.
    fn is_there(self, samples: usize, room: usize, work: usize) -> bool
        ensures { Tests self samples room work result }
    {
        self.start <= samples
            && self.size <= samples - self.start
            && self.room <= room
            && self.lent <= work
    }
}

// No Option<Lending>: `next_call` answers an Option of it, and two of three values would be None.
#[derive(Clone, Copy)]
pub(crate) enum Named {
    Close,
    Feed(Lending),
}

impl Named {
    // How many bytes of output the call is lent.
    pub(crate) fn room(self) -> usize
        ensures { result ≡ room_of self }
    {
        match self {
            Named::Close => 0,
            Named::Feed(part) => part.room,
        }
    }
}

// The call that the first five numbers name; none where its parts are not there.
pub(crate) fn next_call(
    numbers: &[usize],
    samples: usize,
    room: usize,
    work: usize,
) -> Option<Named>
    requires { 5 ≤ length numbers.now }
    ensures { Nexts numbers.now samples room work result }
{
    if numbers[0] == 0 {
        return Some(Named::Close);
    }
    let part = Lending {
        start: numbers[1],
        size: numbers[2],
        room: numbers[3],
        lent: numbers[4],
    };
    if part.is_there(samples, room, work) {
        Some(Named::Feed(part))
    } else {
        None
    }
}

// A call's answer as numbers.
pub(crate) fn numbers(answer: Result<Fed>) -> [usize; 3]
    ensures { result ≡ three_of answer }
{
    match answer {
        Ok(fed) => [0, fed.taken, fed.written],
        Err(e) => [usize::from(e.kind.number()), e.offset, 0],
    }
}
