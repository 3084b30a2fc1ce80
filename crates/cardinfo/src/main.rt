// Tells of the card on standard input: a header line and its numbers, or its refusal. At most 65,536 bytes are read.
#![tactic(auto)]

ghost use Rattle.std.specs.Prelude.{◌≤◌, length};

use std::io;
use std::io::Read;

fn main(rt: HostRuntime) -> io::Result<()> {
    let mut input = rt.stdin();
    if input.read(&mut []).is_err() {
        return eprintln!(rt; "cardinfo: standard input cannot be read");
    }
    // An array, of which `n` bytes are read: a Vec would need an allocator handed down, and could run out.
    let mut space = [0u8; 65536];
    let n = read_full(&mut input, &mut space);
    print_card(&rt, &space[..n])?;
    if n == space.len() {
        warn_if_longer(&rt, &mut input)?;
    }
    Ok(())
}

// Reads until `buf` is full or the input ends, and says how many bytes it read. A read that fails midway looks like the end.
// A turn takes as many as come, so no iterator fits. `vectors` has this loop too, and says why.
fn read_full(input: &mut impl Read, buf: &mut [u8]) -> usize
    ensures { result ≤ length buf.new }
{
    let mut done = 0;
    while done < buf.len() {
        match input.read(&mut buf[done..]) {
            Ok(0) | Err(_) => break,
            Ok(n) => done += n,
        }
    }
    done
}

// Says on standard error that bytes are left behind the 65,536 that are read.
fn warn_if_longer(rt: &impl Eprint, input: &mut impl Read) -> io::Result<()> {
    if read_full(input, &mut [0]) > 0 {
        eprintln!(rt; "cardinfo: bytes past 65,536 are not read")?;
    }
    Ok(())
}

// No `Display` of `ImageInfo`: these two lines are this program's form, not the type's.
fn print_card(rt: &impl Print, card: &[u8]) -> io::Result<()> {
    match api::info(card) {
        Ok(i) => {
            println!(rt; "width height frames body fixheader")?;
            println!(rt;
                "{} {} {} {} {}",
                i.width, i.height, i.frames, i.data_offset, i.fix_header
            )
        }
        Err(e) => println!(rt; "refused {e}"),
    }
}
