// One byte more of a header's integers: type, width and height.
#![tactic(auto, unfolding(crate::specs::Internal::Machine::step_of))]

ghost use Rattle.std.specs.Prelude.{◌≡◌};
ghost use Rattle.header.specs.Settings.{settings};
ghost use Rattle.header_reader.specs.Internal.Machine.{step_of};
ghost use Rattle.header_reader.specs.Internal.Standing.{state, Reachable};
ghost use Rattle.header_reader.specs.Internal.Phase.{moved, type_step};
ghost use Rattle.header_reader.specs.declared.phase.Phase.{Phase};

use crate::phase::{PartialInteger, Phase, PhaseStep, more};
use error::{Refusal, Result, WbmpError};
use ext::ExtFields;
use header::{HeaderMode, ParsedHeader};
use std::ops::ControlFlow;

// After the type.
fn typed(value: u32, at: usize) -> Result<PhaseStep>
    ensures { moved result ≡ type_step value at }
{
    if value == 0 {
        return more(Phase::AtFix { at });
    }
    Err(WbmpError::new(Refusal::TypeUnsupported, at))
}

pub(crate) fn in_type(mode: HeaderMode, integer: PartialInteger, byte: u8) -> Result<PhaseStep>
    requires { Reachable (state (Phase.InType integer)) }
    ensures { moved result ≡ step_of (settings mode) (state (Phase.InType integer)) byte }
{
    match integer.read(mode, byte)? {
        ControlFlow::Continue(v) => more(Phase::InType(integer.grown(v))),
        ControlFlow::Break(v) => typed(v, integer.at + 1),
    }
}

pub(crate) fn in_width(
    mode: HeaderMode,
    fix: u8,
    fields: Option<ExtFields>,
    integer: PartialInteger,
    byte: u8,
) -> Result<PhaseStep>
    requires { Reachable (state (Phase.InWidth fix fields integer)) }
    ensures { moved result ≡ step_of (settings mode) (state (Phase.InWidth fix fields integer)) byte }
{
    match integer.read(mode, byte)? {
        ControlFlow::Continue(v) => more(Phase::InWidth {
            fix,
            fields,
            integer: integer.grown(v),
        }),
        ControlFlow::Break(width) => more(Phase::InHeight {
            fix,
            fields,
            width,
            integer: PartialInteger::start(integer.at + 1),
        }),
    }
}

pub(crate) fn in_height(
    mode: HeaderMode,
    fix: u8,
    fields: Option<ExtFields>,
    width: u32,
    integer: PartialInteger,
    byte: u8,
) -> Result<PhaseStep>
    requires { Reachable (state (Phase.InHeight fix fields width integer)) }
    ensures { moved result ≡ step_of (settings mode) (state (Phase.InHeight fix fields width integer)) byte }
{
    match integer.read(mode, byte)? {
        ControlFlow::Continue(v) => more(Phase::InHeight {
            fix,
            fields,
            width,
            integer: integer.grown(v),
        }),
        ControlFlow::Break(height) => {
            let header = ParsedHeader::new(width, height, integer.at + 1, fix, fields)?;
            Ok(ControlFlow::Break(header))
        }
    }
}
