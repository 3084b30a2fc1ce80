// Replaying the parts of groups that a block holds.
use crate::bytes::Bytes;
use crate::report;
use crate::tally::Tally;
use std::io;

// What the sweeps of a group share: where they are told of, their name and operation, and what was replayed.
#[derive(Drop)]
pub(crate) struct Group<'a, R> {
    pub rt: &'a R,
    pub name: &'a [u8],
    pub operation: usize,
    pub tally: &'a mut Tally,
}

// Every part in the block, after its first line, up to a zero. The answer is whether it ends behind the block's start.
pub(crate) fn replay_all(rt: &impl Print, block: &[u8], tally: &mut Tally) -> io::Result<bool> {
    let line = block.iter().take_while(|b| **b != b'\n').count();
    let mut list = Bytes::new(block);
    list.take(line);
    list.take(1);
    for _ in 0..256 {
        if matches!(list.rest.first(), None | Some(0)) {
            break;
        }
        replay_part(rt, &mut list, tally)?;
    }
    Ok(list.rest.len() < block.len())
}

// A part: the group's name, its operation, whether the group ends with it, and its sweeps. At a group's end its count is printed.
fn replay_part(rt: &impl Print, list: &mut Bytes, tally: &mut Tally) -> io::Result<()> {
    let size = list.number();
    let name = list.take(size);
    let mut group = Group {
        rt,
        name,
        operation: list.number(),
        tally: &mut *tally,
    };
    let is_last = list.number() != 0;
    for _ in 0..list.count() {
        if list.rest.is_empty() {
            break;
        }
        group.replay_sweep(list)?;
    }
    if is_last {
        report::count(rt, name, tally.comparisons)?;
        tally.end_group();
    }
    Ok(())
}
