// One byte more of the FixHeader byte and of the extension fields.
#![tactic(auto, unfolding(crate::specs::Internal::Machine::step_of))]

ghost use Rattle.std.specs.Prelude.{◌≡◌, ◌&&◌, ℕ, ◌≤◌};
ghost use Rattle.error.specs.Choice.{if};
ghost use Rattle.error.specs.Answer.{number_or_0};
ghost use Rattle.ext.specs.Kinds.{absent, ext_span, fields_follow, kind_bits, kind_number};
ghost use Rattle.header.specs.Settings.{Settings, settings};
ghost use Rattle.header_reader.specs.Internal.Machine.{at_fix, in_octets, at_octet, to_width, to_fields, found, step_of};
ghost use Rattle.header_reader.specs.Internal.Standing.{fields_state, Reachable};
ghost use Rattle.header_reader.specs.Internal.Phase.{moved, after_pair};
ghost use Rattle.header_reader.specs.declared.phase.FieldsPhase.{FieldsPhase};

use crate::faults::{identifier_fault, value_fault};
use crate::phase::{
    FieldsPhase, PairChain, PairPart, PartialInteger, Phase, PhaseStep, more, more_fields,
};
use error::{Refusal, Result, WbmpError};
use ext::{ExtFieldType, ExtFields, FixHeaderField, MAX_EXT_FIELD_BYTES, PairHeader};
use header::HeaderMode;

// The width comes next.
fn to_width(fix: u8, fields: Option<ExtFields>, at: usize) -> Result<PhaseStep>
    ensures { moved result ≡ to_width fix (ext_span fields) at }
{
    more(Phase::InWidth {
        fix,
        fields,
        integer: PartialInteger::start(at),
    })
}

// The width comes next, after fields that stand from `start` to `end`.
fn after_fields(fix: u8, start: usize, end: usize, pairs: usize) -> Result<PhaseStep>
    requires { start ≤ end }
    ensures { moved result ≡ to_width fix (found fix start end pairs) end }
{
    let ext_type = FixHeaderField::from_byte(fix).ext_type;
    to_width(fix, Some(ExtFields::new(ext_type, start, end, pairs)), end)
}

// Fields of the FixHeader byte's kind come next.
fn to_fields(fix: u8, ext_type: ExtFieldType, at: usize) -> Result<PhaseStep>
    requires { kind_number ext_type ≡ kind_bits fix }
    ensures { moved result ≡ to_fields fix at }
{
    match ext_type {
        ExtFieldType::Bitfield00 => more_fields(FieldsPhase::InOctets { fix, start: at, at }),
        ExtFieldType::Reserved01 | ExtFieldType::Reserved10 => more_fields(FieldsPhase::AtOctet {
            fix,
            at,
        }),
        ExtFieldType::ParameterPairs11 => more_fields(FieldsPhase::AtPair(PairChain {
            fix,
            start: at,
            at,
            pairs: 0,
        })),
    }
}

// Fields or, without them, the width.
fn after_fix(honoured: bool, fix: u8, at: usize) -> Result<PhaseStep>
    ensures { moved result ≡ if (honoured && fields_follow fix) (to_fields fix at) (to_width fix absent at) }
{
    let fix_header = FixHeaderField::from_byte(fix);
    if honoured && fix_header.ext_fields_follow {
        return to_fields(fix, fix_header.ext_type, at);
    }
    to_width(fix, None, at)
}

pub(crate) fn at_fix(mode: HeaderMode, at: usize, byte: u8) -> Result<PhaseStep>
    requires { Reachable (at_fix at) }
    ensures { moved result ≡ step_of (settings mode) (at_fix at) byte }
{
    if mode.fix_zero && 0 < byte {
        return Err(WbmpError::new(Refusal::FixHeaderNotZero, at));
    }
    after_fix(mode.fields, byte, at + 1)
}

pub(crate) fn in_octets(fix: u8, start: usize, at: usize, byte: u8) -> Result<PhaseStep>
    requires { Reachable (in_octets fix start at) }
    ensures { (o : Settings) → moved result ≡ step_of o (in_octets fix start at) byte }
{
    if start + MAX_EXT_FIELD_BYTES <= at {
        return Err(WbmpError::new(Refusal::ExtTooLong, at));
    }
    let next = at + 1;
    if byte < 128 {
        return after_fields(fix, start, next, 0);
    }
    more_fields(FieldsPhase::InOctets {
        fix,
        start,
        at: next,
    })
}

pub(crate) fn at_octet(fix: u8, at: usize) -> Result<PhaseStep>
    requires { Reachable (at_octet fix at) }
    ensures { (o : Settings) (byte : ℕ) → moved result ≡ step_of o (at_octet fix at) byte }
{
    after_fields(fix, at, at + 1, 0)
}

pub(crate) fn at_pair(chain: PairChain, byte: u8) -> Result<PhaseStep>
    requires { Reachable (fields_state (FieldsPhase.AtPair chain)) }
    ensures { (o : Settings) → moved result ≡ step_of o (fields_state (FieldsPhase.AtPair chain)) byte }
{
    if chain.start + MAX_EXT_FIELD_BYTES <= chain.at {
        return Err(WbmpError::new(Refusal::ExtTooLong, chain.at));
    }
    let begun = chain.at + 1;
    let header = PairHeader::from_byte(byte);
    if header.identifier_len == 0 {
        return Err(WbmpError::new(Refusal::IdentifierLength, begun));
    }
    if header.value_len == 0 {
        return Err(WbmpError::new(Refusal::ValueLength, begun));
    }
    let part = PairPart {
        begun,
        left: header.identifier_len,
        more: header.more,
        fault: None,
    };
    let chain = chain.grown();
    let size = header.value_len;
    more_fields(FieldsPhase::InIdentifier { chain, part, size })
}

pub(crate) fn in_identifier(
    mode: HeaderMode,
    chain: PairChain,
    part: PairPart,
    size: u8,
    byte: u8,
) -> Result<PhaseStep>
    requires { Reachable (fields_state (FieldsPhase.InIdentifier chain part size)) }
    ensures { moved result ≡ step_of (settings mode) (fields_state (FieldsPhase.InIdentifier chain part size)) byte }
{
    let fault = identifier_fault(mode.classes, part.fault, byte);
    let chain = chain.grown();
    if 1 < part.left {
        let part = part.shrunk(fault);
        return more_fields(FieldsPhase::InIdentifier { chain, part, size });
    }
    let part = PairPart {
        begun: chain.at,
        left: size,
        fault,
        ..part
    };
    more_fields(FieldsPhase::InValue { chain, part })
}

// After a pair that the chain counts: the refusal that waited for its end, one more pair, or the width.
fn after_pair(chain: PairChain, more: bool, fault: Option<Refusal>) -> Result<PhaseStep>
    requires { chain.start ≤ chain.at }
    ensures { moved result ≡ after_pair chain more (number_or_0 fault) }
{
    if let Some(refusal) = fault {
        return Err(WbmpError::new(refusal, chain.at));
    }
    if more {
        return more_fields(FieldsPhase::AtPair(chain));
    }
    after_fields(chain.fix, chain.start, chain.at, chain.pairs)
}

pub(crate) fn in_value(
    mode: HeaderMode,
    chain: PairChain,
    part: PairPart,
    byte: u8,
) -> Result<PhaseStep>
    requires { Reachable (fields_state (FieldsPhase.InValue chain part)) }
    ensures { moved result ≡ step_of (settings mode) (fields_state (FieldsPhase.InValue chain part)) byte }
{
    let fault = value_fault(mode.classes, part.fault, byte);
    if 1 < part.left {
        let chain = chain.grown();
        let part = part.shrunk(fault);
        return more_fields(FieldsPhase::InValue { chain, part });
    }
    let counted = PairChain {
        at: chain.at + 1,
        pairs: chain.pairs + 1,
        ..chain
    };
    after_pair(counted, part.more, fault)
}
