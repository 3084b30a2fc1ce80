// Extension fields to be written: a text, and for pairs their lengths.
ghost use Rattle.std.specs.Prelude.{◌+◌, ◌≤◌, ◌<◌, ◌≡◌, true, false, length};
ghost use Rattle.std.proofs.lemmas.List.Edits.{sets};
ghost use Rattle.error.specs.Choice.{if};
ghost use Rattle.error.specs.Answer.{answered, map, written};
ghost use Rattle.error.specs.Emits.{Emits};
ghost use Rattle.ext.specs.Kinds.{kind_number};
ghost use Rattle.ext_write.specs.Write.{octets_bytes, octet_bytes, lent_bytes};
ghost use Rattle.ext_write.specs.Internal.Left.{ChecksPairs, ChecksFields, BeginsPairs, BeginsFields};
ghost use Rattle.ext_write.specs.Internal.Steps.{put_start, put_pairs, put_left, continued, Small};

use crate::list::pair_at;
use crate::pairs::{check_pair, check_start, pairs_length, put_pair, put_start, with_more};
use crate::{PairList, PairsBegun};
use error::{Refusal, Result, WbmpError};
use ext::ExtFieldType;

// Kind 00.
fn check_octets(text: &[u8]) -> Result<usize>
    ensures { answered result ≡ map length (octets_bytes text.now) }
{
    if text.is_empty() {
        return Err(WbmpError::new(Refusal::FieldsEmpty, 0));
    }
    // By index: where the length of a text is known, the compiler makes this loop test many octets at once, but not one of `all`.
    for i in 0..text.len() {
        if text[i] >= 128 {
            return Err(WbmpError::new(Refusal::OctetBit7, 0));
        }
    }
    Ok(text.len())
}

// Kinds 01 and 10: the first octet; surplus is ignored.
#[tactic(auto, unfolding(crate::specs::Write::octet_bytes))]
fn check_octet(text: &[u8]) -> Result<usize>
    ensures { answered result ≡ map length (octet_bytes text.now) }
{
    if text.is_empty() {
        return Err(WbmpError::new(Refusal::FieldsEmpty, 0));
    }
    Ok(1)
}

// Kind 11: how many bytes the pairs are, or why they are refused.
pub fn check_pairs<P: PairList + Copy>(text: &[u8], pairs: P, strict: bool) -> Result<usize>
    ensures { ChecksPairs strict text.now (P.lengths pairs) result }
{
    let count = pairs.count();
    let mut s = check_start();
    for i in 0..(count + 1) / 2 {
        s = check_pair(text, s, pair_at(&pairs, i), strict);
    }
    pairs_length(text.len(), count, s)
}

// The check of fields of every kind. `found` answers that of the pairs: it alone is generic over their list, and its refusal comes behind
// those of sizes, count and rule, so it is handed down. Each kind is checked in its own way, and written so below.
pub fn check_fields(ext_type: ExtFieldType, text: &[u8], found: Result<usize>) -> Result<usize>
    ensures { ChecksFields (kind_number ext_type) text.now found result }
{
    match ext_type {
        ExtFieldType::Bitfield00 => check_octets(text),
        ExtFieldType::Reserved01 | ExtFieldType::Reserved10 => check_octet(text),
        ExtFieldType::ParameterPairs11 => found,
    }
}

// Every octet but the last continues. No iterator: whether an octet is the last is told by its index.
fn put_octets(text: &[u8], out: &mut [u8])
    requires { (length text.now ≤ length out.old) × Small text.now }
    ensures { out.new ≡ sets out.old 0 (continued text.now) }
{
    for i in 0..text.len() {
        out[i] = with_more(text[i], i + 1 < text.len());
    }
}

// Kind 00.
fn write_octets(text: &[u8], out: &mut [u8]) -> Result<usize>
    ensures { Emits (octets_bytes text.now) (written result) out.old out.new }
{
    let len = check_octets(text)?;
    if out.len() < len {
        return Err(WbmpError::new(Refusal::OutputTooShort, 0));
    }
    put_octets(text, out);
    Ok(len)
}

// Kinds 01 and 10.
fn write_octet(text: &[u8], out: &mut [u8]) -> Result<usize>
    ensures { Emits (octet_bytes text.now) (written result) out.old out.new }
{
    let len = check_octet(text)?;
    if out.len() < len {
        return Err(WbmpError::new(Refusal::OutputTooShort, 0));
    }
    out[0] = text[0];
    Ok(len)
}

// Kind 11: pairs that have room in an output of so many bytes are left to put, at its front.
fn begin_pairs(found: Result<usize>, room: usize) -> Result<PairsBegun>
    ensures { BeginsPairs found room result }
{
    let end = found?;
    if room < end {
        return Err(WbmpError::new(Refusal::OutputTooShort, 0));
    }
    Ok(PairsBegun {
        end,
        pairs: Some(0),
    })
}

// Fields at the front of the lent output, up to their pairs, which were checked before.
pub fn begin_fields(
    ext_type: ExtFieldType,
    text: &[u8],
    found: Result<usize>,
    out: &mut [u8],
) -> Result<PairsBegun>
    ensures { BeginsFields (kind_number ext_type) text.now found out.old out.new result }
{
    let end = match ext_type {
        ExtFieldType::Bitfield00 => write_octets(text, out)?,
        ExtFieldType::Reserved01 | ExtFieldType::Reserved10 => write_octet(text, out)?,
        ExtFieldType::ParameterPairs11 => return begin_pairs(found, out.len()),
    };
    Ok(PairsBegun { end, pairs: None })
}

// The pairs that are left to put; the answer is how many bytes there are with them.
pub fn put_pairs<P: PairList + Copy>(
    text: &[u8],
    pairs: P,
    begun: PairsBegun,
    out: &mut [u8],
) -> usize
    ensures { (result ≡ begun.end)
        × (out.new ≡ put_left text.now (P.lengths pairs) out.old begun.pairs) }
{
    let Some(to) = begun.pairs else {
        return begun.end;
    };
    let count = pairs.count();
    let mut s = put_start(to);
    for i in 0..(count + 1) / 2 {
        let pair = pair_at(&pairs, i);
        s = put_pair(text, s, pair, 2 * i + 2 < count, &mut *out);
    }
    begun.end
}

fn write_fields<P: PairList + Copy>(
    ext_type: ExtFieldType,
    text: &[u8],
    pairs: P,
    out: &mut [u8],
    strict: bool,
) -> Result<usize>
    ensures { Emits (lent_bytes strict (kind_number ext_type) text.now (P.lengths pairs))
        (written result) out.old out.new }
{
    let found = check_pairs(text, pairs, strict);
    let begun = begin_fields(ext_type, text, found, &mut *out)?;
    Ok(put_pairs(text, pairs, begun, out))
}

// Fields at the front of the lent output. A name of the Rust ("names included", the tender), and so is the next.
pub fn write_ext_fields<P: PairList + Copy>(
    ext_type: ExtFieldType,
    text: &[u8],
    pairs: P,
    out: &mut [u8],
) -> Result<usize>
    ensures { Emits (lent_bytes false (kind_number ext_type) text.now (P.lengths pairs))
        (written result) out.old out.new }
{
    write_fields(ext_type, text, pairs, out, false)
}

// The same, and the classes of pairs are tested.
pub fn write_ext_fields_strict<P: PairList + Copy>(
    ext_type: ExtFieldType,
    text: &[u8],
    pairs: P,
    out: &mut [u8],
) -> Result<usize>
    ensures { Emits (lent_bytes true (kind_number ext_type) text.now (P.lengths pairs))
        (written result) out.old out.new }
{
    write_fields(ext_type, text, pairs, out, true)
}
