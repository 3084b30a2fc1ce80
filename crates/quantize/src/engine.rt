// The quantising engine, which making sessions run, and whole planes that are ordered, or tiny and gray.
ghost use Rattle.std.specs.Prelude.{◌≡◌};
ghost use Rattle.quantize.specs.Internal.Engine.{NewQuantizer, Runs, Tabled, spot_of, frames_left, room_for, behind_frames};
ghost use Rattle.quantize.specs.Internal.Turn.{CanTake};

use crate::asked::{enough_work, known_rule};
use crate::turn::Place;
use error::Fed;
use options::Quantize;
use ordered::numbers;

// Samples of at most so many frames on their way to bytes.
#[derive(Clone, Copy)]
pub struct Quantizer {
    pub(crate) rule: Quantize,
    // The ordered numbers of the rule's side, row by row, at the front. Beside the rule: an enum with the table in its ordered arm would be
    // no plainer, since `known_rule` and `enough_work` ask the rule as it was given.
    pub(crate) table: [u8; 64],
    pub(crate) width: usize,
    pub(crate) height: usize,
    place: Place,
}

// Where the next sample goes: how many frames are not full, and its row and column.
#[derive(Clone, Copy)]
pub struct Spot {
    pub frames: usize,
    pub row: usize,
    pub column: usize,
}

// The ordered numbers of the rule's side, row by row, at the front.
fn table_of(rule: Quantize) -> [u8; 64]
    ensures { Tabled rule result }
{
    match rule {
        Quantize::Threshold(_) | Quantize::Dither => [0; 64],
        Quantize::Ordered(side) => numbers(side),
    }
}

impl Quantizer {
    pub fn new(rule: Quantize, width: u32, height: u32, frames: u32) -> Quantizer
        ensures { NewQuantizer rule width height frames result }
    {
        Quantizer {
            rule,
            table: table_of(rule),
            width: width as usize,
            height: height as usize,
            place: Place {
                frames: frames as usize,
                row: 0,
                column: 0,
                begun: 0,
                corner: 128,
            },
        }
    }

    // Whether samples can be taken: a place in the frame, a known side, and 2 × width numbers of work where the rule needs them. Asked in
    // each call and no fact of the type: `new` takes any rule and size, none too, and the work buffer comes with the call.
    fn can_take(&self, work: usize) -> bool
        ensures { CanTake self.now.rule self.now.width self.now.height self.now.place.row self.now.place.column
            self.now.place.begun self.now.place.corner work result }
    {
        self.place.column < self.width
            && self.place.row < self.height
            && self.place.corner <= 256
            && self.place.begun >> (self.place.column % 8) == 0
            && known_rule(self.rule)
            && enough_work(self.rule, self.width, work)
    }

    // Takes the most samples whose finished bytes fit. Takes nothing and alters nothing where the width or the height is 0, the ordered
    // side is unknown, or dithering finds fewer than 2 × width numbers of work.
    pub fn run(&mut self, samples: &[u8], out: &mut [u8], work: &mut [i16]) -> Fed
        ensures { Runs self.old samples.now out.old work.old self.new result out.new work.new }
    {
        let mut taken = 0;
        let mut written = 0;
        if !self.can_take(work.len()) {
            return Fed { taken, written };
        }
        let mut p = self.place;
        // No iterator: a turn takes as many samples as it can, and nothing counts the turns.
        while 0 < p.frames {
            let count = self.fill_row(&mut p, &samples[taken..], &mut out[written..], work);
            taken += 8 * count;
            written += count;
            let m = self.samples_for_byte(p.column, samples.len() - taken, out.len() - written);
            if m == 0 {
                break;
            }
            let end = taken + m;
            if let Some(byte) = self.take(&mut p, &samples[taken..end], work) {
                out[written] = byte;
                written += 1;
            }
            taken = end;
        }
        self.place = p;
        Fed { taken, written }
    }

    pub fn spot(self) -> Spot
        ensures { result ≡ spot_of self }
    {
        Spot {
            frames: self.place.frames,
            row: self.place.row,
            column: self.place.column,
        }
    }

    // How many frames are not full.
    pub fn frames_left(self) -> usize
        ensures { result ≡ frames_left self }
    {
        self.place.frames
    }

    // Whether a work buffer of so many numbers is long enough.
    pub fn serves(self, work: usize) -> bool
        ensures { result ≡ room_for self work }
    {
        enough_work(self.rule, self.width, work)
    }

    // Whether the samples so far are whole frames, and at least one, where the engine was made for so many frames.
    pub fn whole_frames(self, frames: u32) -> bool
        ensures { result ≡ behind_frames self frames }
    {
        self.place.row == 0 && self.place.column == 0 && self.place.frames < frames as usize
    }
}
