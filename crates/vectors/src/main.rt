// Replays the list on standard input, made by tools/oracle, and prints for each group how many
// comparisons it made; a wrong answer prints its case, and the last line how many were wrong.
#![tactic(auto)]

ghost use Rattle.std.specs.Prelude.{◌≤◌, length, IfOk};

mod answer;
mod bytes;
mod card;
mod case;
mod encoders;
mod fields;
mod files;
mod group;
mod list;
mod making;
mod planes;
mod readers;
mod reading;
mod report;
mod scans;
mod settings;
mod stages;
mod sweep;
mod tally;
mod work;
mod writers;

use std::io;
use std::io::Read;
use tally::Tally;

fn main(rt: HostRuntime) -> io::Result<()> {
    let mut input = rt.stdin();
    let mut tally = Tally::default();
    let mut block = [0; 65536];
    for _ in 0..65537 {
        let read = read_full(&mut input, &mut block)?;
        if !group::replay_all(&rt, read, &mut tally)? {
            break;
        }
    }
    tally.end_group();
    report::count(&rt, b"all", tally.all)?;
    report::count(&rt, b"wrong", tally.all_wrong)
}

// Reads until `buf` is full or the input ends, and gives what it read. A turn takes as many as come, so no iterator fits. cardinfo has this
// loop too, where a read that fails looks like the end: a library of one loop, and of both ways to end it, is no plainer.
fn read_full<'a>(input: &mut impl Read, buf: &'a mut [u8]) -> io::Result<&'a [u8]>
    ensures { IfOk result (λ read. length read.now ≤ length buf.old) }
{
    let mut done = 0;
    while done < buf.len() {
        let n = input.read(&mut buf[done..])?;
        if n == 0 {
            break;
        }
        done += n;
    }
    Ok(&buf[..done])
}
