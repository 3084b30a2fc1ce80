// Headers to be written into a lent output.
ghost use Rattle.std.specs.Prelude.{◌≡◌, ◌++◌, ◌+◌, ◌*◌, ◌≤◌, length};
ghost use Rattle.std.proofs.lemmas.List.Edits.{sets};
ghost use Rattle.error.specs.Answer.{written};
ghost use Rattle.error.specs.Emits.{Emits};
ghost use Rattle.mbi.specs.Bytes.{mbi_bytes};
ghost use Rattle.header.specs.Write.{plain_header, size_bytes, ext_header};
ghost use Rattle.header.specs.Internal.Begin.{BeginsLent, BeginsHeader};
ghost use Rattle.ext.specs.Kinds.{kind_number};

use error::{Refusal, Result, WbmpError};
use ext::ExtFieldType;
use ext_write::{PairList, PairsBegun};

// How many bytes a header has without fields.
fn plain_len(width: u32, height: u32) -> usize
    ensures { result ≡ 2 + length (size_bytes width height) }
{
    2 + mbi::mbi_u32_len(width) + mbi::mbi_u32_len(height)
}

// An integer, from an index on, not in a lent rest of the output: the answer is the index after it.
fn put_integer(value: u32, out: &mut [u8], at: usize) -> usize
    requires { at + length (mbi_bytes value) ≤ length out.old }
    ensures { (result ≡ at + length (mbi_bytes value)) × (out.new ≡ sets out.old at (mbi_bytes value)) }
{
    at + mbi::write_mbi_u32(value, &mut out[at..]).unwrap()
}

// Both sizes, from an index on.
fn put_sizes(width: u32, height: u32, out: &mut [u8], at: usize)
    requires { at + length (size_bytes width height) ≤ length out.old }
    ensures { out.new ≡ sets out.old at (size_bytes width height) }
{
    let next = put_integer(width, out, at);
    put_integer(height, out, next);
}

// A header without fields; sizes of 0 are written.
pub fn write_header(width: u32, height: u32, out: &mut [u8]) -> Result<usize>
    ensures { Emits (plain_header width height) (written result) out.old out.new }
{
    let total = plain_len(width, height);
    if out.len() < total {
        return Err(WbmpError::new(Refusal::OutputTooShort, 0));
    }
    out[0] = 0;
    out[1] = 0;
    put_sizes(width, height, out, 2);
    Ok(total)
}

// The FixHeader byte of fields: bit 7 says that they follow, bits 6-5 their kind.
fn fix_byte(ext_type: ExtFieldType) -> u8
    ensures { result ≡ 128 + kind_number ext_type * 32 }
{
    128 + (ext_type as u8) * 32
}

// A header with fields of a kind, up to their pairs: all is checked before anything is written.
fn begin_fields_header(
    width: u32,
    height: u32,
    ext_type: ExtFieldType,
    text: &[u8],
    found: Result<usize>,
    out: &mut [u8],
) -> Result<PairsBegun>
    ensures { BeginsLent width height (kind_number ext_type) text.now found out.old out.new result }
{
    let len = ext_write::check_fields(ext_type, text, found)?;
    let end = plain_len(width, height).saturating_add(len);
    if out.len() < end {
        return Err(WbmpError::new(Refusal::OutputTooShort, 0));
    }
    out[0] = 0;
    out[1] = fix_byte(ext_type);
    put_sizes(width, height, out, 2 + len);
    // What passed the check is not refused.
    let begun = ext_write::begin_fields(ext_type, text, found, &mut out[2..])?;
    Ok(PairsBegun {
        end,
        pairs: begun.pairs.map(|to| 2 + to),
    })
}

// A header of sizes that are not 0, with the lent fields or none, up to their pairs, which were checked before.
pub fn begin_header(
    width: u32,
    height: u32,
    ext: Option<ExtFieldType>,
    text: &[u8],
    found: Result<usize>,
    out: &mut [u8],
) -> Result<PairsBegun>
    ensures { BeginsHeader width height ext text.now found out.old out.new result }
{
    if width == 0 || height == 0 {
        return Err(WbmpError::new(Refusal::ZeroDimension, 0));
    }
    match ext {
        None => {
            let end = write_header(width, height, out)?;
            Ok(PairsBegun { end, pairs: None })
        }
        Some(ext_type) => begin_fields_header(width, height, ext_type, text, found, out),
    }
}

// A header with the lent fields or none.
pub fn write_header_ext<P: PairList + Copy>(
    width: u32,
    height: u32,
    ext: Option<ExtFieldType>,
    text: &[u8],
    pairs: P,
    strict: bool,
    out: &mut [u8],
) -> Result<usize>
    ensures { Emits (ext_header strict width height ext text.now (P.lengths pairs))
        (written result) out.old out.new }
{
    let found = ext_write::check_pairs(text, pairs, strict);
    let begun = begin_header(width, height, ext, text, found, &mut *out)?;
    Ok(ext_write::put_pairs(text, pairs, begun, out))
}
