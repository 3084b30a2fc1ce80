// Lists on sessions as cases: a making, a reading, and a card that is made in pieces, read in
// pieces and shown dot for dot.
use crate::bytes::{Bytes, behind, front, is_same};
use crate::case::{Case, Replayed};
use crate::list::TEXT;
use crate::making::Making;
use crate::reading::Reading;
use image::PixelFormat;

impl Case<'_> {
    // A list on a making session, on a reading session, or a card. By its number, as in case.rt.
    pub(crate) fn replay_lists(self, list: &mut Bytes) -> Replayed {
        match self.operation {
            96 => {
                let making = Making::read(self.input);
                making.run_lists(list, &mut [making.mark; TEXT])
            }
            97 => {
                let reading = Reading::read(self.input);
                reading.run_list(list, &mut [reading.mark; TEXT])
            }
            _ => shown(list, self.input),
        }
    }
}

// A card's input is the length of the making's input in two bytes, this, and the reading's input,
// whose file is the making's output.
fn shown(list: &mut Bytes, mut input: Bytes) -> Replayed {
    let size = input.short();
    let making = Making::read(Bytes::new(input.take(size)));
    let reading = Reading::read(input);
    let mut file = [making.mark; TEXT];
    let mut out = [reading.mark; TEXT];
    let mut all = making.run_lists(list, &mut file);
    all.add(reading.over(&file).run_list(list, &mut out));
    all.same &= is_shown(list, making, reading.options.format, &out);
    all
}

// Whether each dot of the output is as the block has it, a bit each behind their number and the
// bytes of a row and of a plane.
fn is_shown(list: &mut Bytes, making: Making, format: PixelFormat, out: &[u8]) -> bool {
    list.number();
    list.number();
    let dots = list.number().min(8 * TEXT);
    let shape = Shape {
        width: making.width,
        height: making.height,
        row: list.number(),
        plane: list.number(),
        format,
    };
    let mut want = [0; TEXT];
    list.text(&mut want);
    list.number();
    let mut shown = [0; TEXT];
    for i in 0..dots {
        if shape.is_white(out, i) {
            shown[i / 8] |= 128 >> (i % 8);
        }
    }
    is_same(&shown, &want)
}

// How the dots stand: their size, the bytes of a row and of a plane, and their format.
#[derive(Clone, Copy)]
struct Shape {
    width: u32,
    height: u32,
    row: usize,
    plane: usize,
    format: PixelFormat,
}

impl Shape {
    // Of the dots in all frames, row by row.
    fn is_white(self, out: &[u8], dot: usize) -> bool {
        let width = (self.width as usize).max(1);
        let height = (self.height as usize).max(1);
        let x = dot % width;
        let y = dot / width % height;
        let frame = dot / width / height;
        let plane = front(behind(out, frame.wrapping_mul(self.plane)), self.plane);
        image::is_white(
            plane,
            self.width,
            self.height,
            self.row,
            self.format,
            x as u32,
            y as u32,
        )
    }
}
