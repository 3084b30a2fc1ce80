// Reading extension fields. By offset: places of refusals and spans of fields are places in the whole input.
ghost use Rattle.std.specs.Prelude.{◌≡◌, true, false, ◌<◌, ◌≤◌, length};
ghost use Rattle.error.specs.Answer.{map};
ghost use Rattle.ext.specs.Kinds.{kind_number, span_of, fields_read, meaning};
ghost use Rattle.ext.specs.Read.{read_pair, read_fields};
ghost use Rattle.ext.specs.Internal.Pairwise.{pair_meaning, pair_step, pair_behind};

use crate::class::{identifier_in_class, value_in_class};
use crate::{ExtFieldType, ExtFields, FixHeaderField, MAX_EXT_FIELD_BYTES, PairHeader};
use error::{Refusal, Result, WbmpError};
use std::ops::ControlFlow;

// The offset after a pair, which one more follows, or which is the last.
type PairEnd = ControlFlow<usize, usize>;

// The pair behind its header byte, where the identifier starts at an offset.
#[tactic(auto, using(std::proofs::lemmas::Bool::Decides::nat_tests, crate::proofs::SliceSame::lent_part), unfolding(crate::specs::Internal::Pairwise::pair_behind))]
fn parse_parts(bytes: &[u8], identifier: usize, header: PairHeader, strict: bool) -> Result<PairEnd>
    requires { identifier ≤ length bytes.now }
    ensures { pair_meaning result ≡ map pair_step (pair_behind strict bytes.now identifier header) }
{
    if header.identifier_len == 0 {
        return Err(WbmpError::new(Refusal::IdentifierLength, identifier));
    }
    if header.value_len == 0 {
        return Err(WbmpError::new(Refusal::ValueLength, identifier));
    }
    let value = identifier + header.identifier_len as usize;
    if bytes.len() < value {
        return Err(WbmpError::new(Refusal::PairTruncated, identifier));
    }
    let end = value + header.value_len as usize;
    if bytes.len() < end {
        return Err(WbmpError::new(Refusal::PairTruncated, value));
    }
    if !identifier_in_class(&bytes[identifier..value], strict) {
        return Err(WbmpError::new(Refusal::IdentifierClass, end));
    }
    if !value_in_class(&bytes[value..end], strict) {
        return Err(WbmpError::new(Refusal::ValueClass, end));
    }
    Ok(if header.more {
        ControlFlow::Continue(end)
    } else {
        ControlFlow::Break(end)
    })
}

// The pair whose header byte stands at an offset.
#[tactic(auto, using(crate::proofs::PairExtent::read_behind))]
fn parse_pair(bytes: &[u8], at: usize, strict: bool) -> Result<PairEnd>
    requires { at < length bytes.now }
    ensures { pair_meaning result ≡ map pair_step (read_pair strict bytes.now at) }
{
    parse_parts(bytes, at + 1, PairHeader::from_byte(bytes[at]), strict)
}

// Kind 11.
#[tactic(auto, using(crate::proofs::ReadSteps::pair_steps))]
fn parse_parameter_pairs(bytes: &[u8], offset: usize, strict: bool) -> Result<ExtFields>
    ensures { fields_read result ≡ map (span_of offset) (read_fields strict true 3 bytes.now offset) }
{
    let mut at = offset;
    let mut pairs: usize = 0;
    // No iterator: each pair tells where the next one starts, or that it was the last.
    while at < bytes.len() {
        if MAX_EXT_FIELD_BYTES <= at - offset {
            return Err(WbmpError::new(Refusal::ExtTooLong, at));
        }
        let pair = parse_pair(bytes, at, strict)?;
        pairs += 1;
        match pair {
            ControlFlow::Continue(end) => at = end,
            ControlFlow::Break(end) => {
                return Ok(ExtFields::new(ExtFieldType::ParameterPairs11, offset, end, pairs));
            }
        }
    }
    Err(WbmpError::new(Refusal::ExtTruncated, at))
}

// Kind 00.
#[tactic(auto, using(crate::proofs::ReadSteps::octet_steps))]
fn parse_bitfield00(bytes: &[u8], offset: usize) -> Result<ExtFields>
    ensures { fields_read result ≡ map (span_of offset) (read_fields false true 0 bytes.now offset) }
{
    // Not `position`: the first of the two tests that holds decides.
    for at in offset..bytes.len() {
        if MAX_EXT_FIELD_BYTES <= at - offset {
            return Err(WbmpError::new(Refusal::ExtTooLong, at));
        }
        if bytes[at] < 128 {
            return Ok(ExtFields::new(ExtFieldType::Bitfield00, offset, at + 1, 0));
        }
    }
    Err(WbmpError::new(Refusal::ExtTruncated, offset.max(bytes.len())))
}

// Kinds 01 and 10.
#[tactic(auto, using(std::proofs::lemmas::Grind::common_steps, crate::proofs::ReadSteps::from_offset), unfolding(crate::specs::Read::read_fields, crate::specs::Read::read_octet))]
fn read_single_octet(ext_type: ExtFieldType, bytes: &[u8], offset: usize) -> Result<ExtFields>
    requires { (0 < kind_number ext_type) × (kind_number ext_type < 3) }
    ensures { fields_read result ≡ map (span_of offset) (read_fields false true (kind_number ext_type) bytes.now offset) }
{
    if bytes.len() <= offset {
        return Err(WbmpError::new(Refusal::ExtTruncated, offset));
    }
    Ok(ExtFields::new(ext_type, offset, offset + 1, 0))
}

// The fields at an offset of an input, which stand behind the FixHeader byte; strict asks for the classes.
#[tactic(auto, unfolding(crate::specs::Read::read_fields))]
pub fn parse_ext_fields_inner(
    fix_header: FixHeaderField,
    bytes: &[u8],
    offset: usize,
    strict: bool,
) -> Result<Option<ExtFields>>
    ensures { meaning result ≡ map (span_of offset)
        (read_fields strict fix_header.ext_fields_follow (kind_number fix_header.ext_type) bytes.now offset) }
{
    if !fix_header.ext_fields_follow {
        return Ok(None);
    }
    // Each kind is read in its own way: this match is the one place that tells them apart.
    Ok(Some(match fix_header.ext_type {
        ExtFieldType::Bitfield00 => parse_bitfield00(bytes, offset)?,
        kind @ (ExtFieldType::Reserved01 | ExtFieldType::Reserved10) => {
            read_single_octet(kind, bytes, offset)?
        }
        ExtFieldType::ParameterPairs11 => parse_parameter_pairs(bytes, offset, strict)?,
    }))
}

// The same without the classes. A name of the Rust ("names included", the tender), and so is the next.
pub fn parse_ext_fields(
    fix_header: FixHeaderField,
    bytes: &[u8],
    offset: usize,
) -> Result<Option<ExtFields>>
    ensures { meaning result ≡ map (span_of offset)
        (read_fields false fix_header.ext_fields_follow (kind_number fix_header.ext_type) bytes.now offset) }
{
    parse_ext_fields_inner(fix_header, bytes, offset, false)
}

// The same with the classes.
pub fn parse_ext_fields_strict(
    fix_header: FixHeaderField,
    bytes: &[u8],
    offset: usize,
) -> Result<Option<ExtFields>>
    ensures { meaning result ≡ map (span_of offset)
        (read_fields true fix_header.ext_fields_follow (kind_number fix_header.ext_type) bytes.now offset) }
{
    parse_ext_fields_inner(fix_header, bytes, offset, true)
}
