// Makes a card of 12 by 7 dots from a gray scan, with its title as an extension field, and writes the file to standard output.
#![tactic(auto)]

use error::Result;
use ext::ExtFieldType;
use ext_write::Parameter;
use options::EncodeOptions;
use std::io;

fn main(rt: HostRuntime) -> io::Result<()> {
    // An array, whose front is written: a Vec would need an allocator handed down, and could run out.
    let mut out = [0; 4096];
    match make(&mut out) {
        Ok(file) => rt.write_all(file),
        Err(e) => eprintln!(rt; "refused {}", e.kind),
    }
}

// The file, at the front of `out`. Black is "#" (35), white "o" (111).
fn make(out: &mut [u8]) -> Result<&[u8]> {
    let scan = b"oooooooooooo\
                 o#oo#oo#oooo\
                 o#oo#oo#oooo\
                 o####oo#oooo\
                 o#oo#oo#oooo\
                 o#oo#oo#oooo\
                 oooooooooooo";
    let pairs = [Parameter::new(b"Title", b"HI")?];
    let mut work = [0; 24];
    let n = encoder::encode_gray8(
        12,
        7,
        1,
        scan,
        options(),
        b"TitleHI",
        &pairs,
        &mut work,
        out,
    )?;
    Ok(&out[..n])
}

// The classes of identifier and value are tested.
fn options() -> EncodeOptions {
    EncodeOptions::new()
        .with_threshold(64)
        .with_ext_fields(Some(ExtFieldType::ParameterPairs11))
        .with_strict(true)
}
