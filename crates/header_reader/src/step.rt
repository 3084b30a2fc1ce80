// What one byte more does, by where a reading stands: a match picks the function, since each phase has parts of its own.
ghost use Rattle.std.specs.Prelude.{◌≡◌};
ghost use Rattle.header.specs.Settings.{settings};
ghost use Rattle.header_reader.specs.Internal.Machine.{step_of};
ghost use Rattle.header_reader.specs.Internal.Standing.{state, fields_state, Reachable};
ghost use Rattle.header_reader.specs.Internal.Phase.{moved};

use crate::fields::{at_fix, at_octet, at_pair, in_identifier, in_octets, in_value};
use crate::integers::{in_height, in_type, in_width};
use crate::phase::{FieldsPhase, Phase, PhaseStep};
use error::Result;
use header::HeaderMode;

fn step_fields(phase: FieldsPhase, mode: HeaderMode, byte: u8) -> Result<PhaseStep>
    requires { Reachable (fields_state phase) }
    ensures { moved result ≡ step_of (settings mode) (fields_state phase) byte }
{
    match phase {
        FieldsPhase::InOctets { fix, start, at } => in_octets(fix, start, at, byte),
        FieldsPhase::AtOctet { fix, at } => at_octet(fix, at),
        FieldsPhase::AtPair(chain) => at_pair(chain, byte),
        FieldsPhase::InIdentifier { chain, part, size } => in_identifier(
            mode, chain, part, size, byte,
        ),
        FieldsPhase::InValue { chain, part } => in_value(mode, chain, part, byte),
    }
}

// What is `Reachable` of a reader is asked of its phase here, in fields.rt and in run.rt: a phase is an enum, which has no invariant.
pub(crate) fn step_phase(phase: Phase, mode: HeaderMode, byte: u8) -> Result<PhaseStep>
    requires { Reachable (state phase) }
    ensures { moved result ≡ step_of (settings mode) (state phase) byte }
{
    match phase {
        Phase::InType(integer) => in_type(mode, integer, byte),
        Phase::AtFix { at } => at_fix(mode, at, byte),
        Phase::InFields(phase) => step_fields(phase, mode, byte),
        Phase::InWidth {
            fix,
            fields,
            integer,
        } => in_width(mode, fix, fields, integer, byte),
        Phase::InHeight {
            fix,
            fields,
            width,
            integer,
        } => in_height(mode, fix, fields, width, integer, byte),
    }
}
