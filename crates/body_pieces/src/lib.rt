// Bodies read from pieces of a file: plane after plane, in the asked format, up to a ceiling.
#![tactic(auto)]

ghost use Rattle.std.specs.Prelude.{◌≡◌};
ghost use Rattle.body_pieces.specs.Internal.Body.{advanced, Bodies};

use crate::convert::convert;
use image::{PixelFormat, PlaneLayout};

mod convert;

// How many bytes of the piece are taken and written, and the whole planes and the bytes of the begun one after them. A session adds the
// header's bytes to the first and keeps the sizes in its header, so neither `Fed` nor `BodyPlace` would go through whole.
#[derive(Clone, Copy)]
pub struct BodyFed {
    pub taken: usize,
    pub written: usize,
    pub whole: usize,
    pub begun: usize,
}

// A literal of it takes six lines, and `advance` has five.
fn fed(taken: usize, written: usize, whole: usize, begun: usize) -> BodyFed
    ensures { result ≡ record { taken = taken; written = written; whole = whole; begun = begun } }
{
    BodyFed {
        taken,
        written,
        whole,
        begun,
    }
}

// How far the body goes where so many bytes are given and there is room for so many. 16 planes can pass 64 bits, so no total is kept.
fn advance(
    ceiling: usize,
    plane: usize,
    whole: usize,
    begun: usize,
    given: usize,
    room: usize,
) -> BodyFed
    ensures { result ≡ advanced ceiling plane whole begun given room }
{
    if plane <= begun {
        return fed(0, 0, whole, begun);
    }
    if ceiling <= whole {
        return fed(given, 0, whole, begun);
    }
    let most = given.min(room);
    let left = plane - begun;
    if most < left {
        return fed(most, most, whole, begun + most);
    }
    let rest = most - left;
    let further = rest / plane;
    let ahead = ceiling - 1 - whole;
    if ahead <= further {
        return fed(given, left + ahead * plane, ceiling, 0);
    }
    fed(most, most, whole + 1 + further, rest % plane)
}

// Where a body of this size goes on: behind so many whole planes and bytes of the begun one.
#[derive(Clone, Copy)]
pub struct BodyPlace {
    pub width: u32,
    pub height: u32,
    pub whole: usize,
    pub begun: usize,
}

// The body from a place on, up to a ceiling of planes.
pub fn feed_body(
    format: PixelFormat,
    ceiling: usize,
    place: BodyPlace,
    piece: &[u8],
    out: &mut [u8],
) -> BodyFed
    ensures { Bodies format place.width place.height ceiling place.whole place.begun piece.now
        out.old result out.new }
{
    let plane = PlaneLayout::new(place.width, place.height).total_bytes;
    let next = advance(
        ceiling,
        plane,
        place.whole,
        place.begun,
        piece.len(),
        out.len(),
    );
    let n = next.written;
    convert(format, place.width, place.begun, &piece[..n], &mut out[..n]);
    next
}
