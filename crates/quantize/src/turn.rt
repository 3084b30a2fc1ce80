// A turn of the engine: whole bytes at once, then the samples of one byte.
ghost use Rattle.std.specs.Prelude.{◌≡◌, ◌+◌, ◌-◌, ◌*◌, ◌^◌, ◌≤◌, ◌<◌, length};
ghost use Rattle.quantize.specs.Internal.Turn.{Wholes, SamplesForByte, Dotting, Dotted, Advancing, Advances};
ghost use Rattle.quantize.specs.Internal.Turn.{row_start, Taking, Takes, RowFilling, RowFilled};

use crate::engine::Quantizer;
use dither::{RowDots, RowStart, dither_row_bytes, dither_row_dots};
use options::Quantize;
use ordered::ordered_row_dots;
use rules::{threshold_row_bytes, threshold_row_dots};

// Where the next sample goes, and what is kept for it.
#[derive(Clone, Copy)]
pub struct Place {
    // The frames that are not full.
    pub frames: usize,
    pub row: usize,
    pub column: usize,
    // The dots of the begun byte, as binary digits.
    pub begun: u32,
    // The residual above the dot on the left, plus 128.
    pub corner: u32,
}

// How many whole bytes of a row, but its last, so many samples give and so much room takes.
fn whole_bytes(width: usize, column: usize, samples: usize, room: usize) -> usize
    requires { column < width }
    ensures { Wholes width column samples room result }
{
    if column % 8 != 0 {
        return 0;
    }
    ((width - column - 1) / 8).min(samples / 8).min(room)
}

// A byte of m dots: their digits, and then zeros.
fn pad(digits: u32, m: u32) -> u8
    requires { (m ≤ 8) × (digits < 2 ^ m) }
    ensures { result ≡ digits * 2 ^ (8 - m) }
{
    (digits << (8 - m)) as u8
}

impl Place {
    // Goes m samples on, which end no later than the begun byte, whose digits these are then. The byte, where they finish it.
    fn advance(&mut self, width: usize, height: usize, m: usize, digits: u32) -> Option<u8>
        requires { Advancing width height self.old.frames self.old.row self.old.column m digits }
        ensures { Advances width height self.old m digits result self.new }
    {
        let dots = self.column % 8 + m;
        self.column += m;
        if self.column < width && dots < 8 {
            self.begun = digits;
            return None;
        }
        self.begun = 0;
        let byte = Some(pad(digits, dots as u32));
        if self.column < width {
            return byte;
        }
        self.column = 0;
        self.row += 1;
        if self.row < height {
            return byte;
        }
        self.row = 0;
        self.frames -= 1;
        byte
    }
}

impl Quantizer {
    // Where the next samples go, for dithering.
    fn row_start(&self, p: &Place) -> RowStart
        ensures { result ≡ row_start self.now.width p.now }
    {
        RowStart {
            width: self.width,
            y: p.row,
            column: p.column,
        }
    }

    // As many whole bytes of the row, but its last, as the samples give and the output takes, where the rule's are written at once.
    pub(crate) fn fill_row(
        &self,
        p: &mut Place,
        samples: &[u8],
        out: &mut [u8],
        work: &mut [i16],
    ) -> usize
        requires { RowFilling self.now.rule self.now.width p.old (length work.old) }
        ensures { RowFilled self.now.rule self.now.width p.old samples.now out.old work.old result p.new out.new
            work.new }
    {
        let count = whole_bytes(self.width, p.column, samples.len(), out.len());
        // A match: a trait with an impl for each rule, or closures, would need one to choose among them, and each arm hands on others.
        match self.rule {
            Quantize::Threshold(bound) => {
                threshold_row_bytes(bound, samples, &mut out[..count]);
            }
            Quantize::Dither => {
                let start = self.row_start(p);
                p.corner = dither_row_bytes(start, samples, &mut out[..count], p.corner, work);
            }
            Quantize::Ordered(_) => return 0,
        }
        p.column += 8 * count;
        count
    }

    // How many of so many samples go into the begun byte: without room for the byte not the last one.
    pub(crate) fn samples_for_byte(&self, column: usize, samples: usize, room: usize) -> usize
        requires { column < self.now.width }
        ensures { SamplesForByte self.now.width column samples room result }
    {
        let mut most = (8 - column % 8).min(self.width - column);
        if room == 0 {
            most -= 1;
        }
        samples.min(most)
    }

    // The digits of the begun byte, and then a dot for each sample.
    fn dots(&self, p: &Place, gray: &[u8], work: &mut [i16]) -> RowDots
        requires { Dotting self.now.rule self.now.width p.now.column (length gray.now) p.now.begun p.now.corner (length work.old) }
        ensures { Dotted self.now.rule self.now.table self.now.width p.now.row p.now.column gray.now p.now.begun p.now.corner
            work.old result work.new }
    {
        // A match, as in `fill_row`.
        match self.rule {
            Quantize::Threshold(bound) => RowDots {
                digits: threshold_row_dots(bound, gray, p.begun),
                corner: p.corner,
            },
            Quantize::Dither => {
                dither_row_dots(self.row_start(p), gray, p.begun, p.corner, work)
            }
            Quantize::Ordered(side) => RowDots {
                digits: ordered_row_dots(&self.table, side, p.row, p.column, gray, p.begun),
                corner: p.corner,
            },
        }
    }

    // Takes samples that end no later than the begun byte. The byte, where they finish it.
    pub(crate) fn take(&self, p: &mut Place, gray: &[u8], work: &mut [i16]) -> Option<u8>
        requires { Taking self.now.rule self.now.width self.now.height p.old (length gray.now) (length work.old) }
        ensures { Takes self.now.rule self.now.table self.now.width self.now.height p.old gray.now work.old result p.new
            work.new }
    {
        let d = self.dots(p, gray, work);
        p.corner = d.corner;
        p.advance(self.width, self.height, gray.len(), d.digits)
    }
}
