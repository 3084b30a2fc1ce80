// A header reader that takes one byte at a time.
ghost use Rattle.header_reader.specs.Internal.Standing.{state, Reachable, reachable_prop};

use crate::FieldsSeen;
use crate::phase::{PartialInteger, Phase};
use crate::run::{Ran, run_fields, stay};
use crate::step::step_phase;
use error::{Refusal, Result, WbmpError};
use header::{HeaderMode, ParsedHeader};
use std::ops::ControlFlow;

#[derive(Clone, Copy)]
pub struct HeaderReader {
    mode: HeaderMode,
    phase: Phase,
    // It stands where a reading can stand.
    ghost reachable: { Reachable (state phase) } by { reachable_prop (state phase) },
}

// What one byte does: the header goes on or ends.
pub type HeaderStep = ControlFlow<ParsedHeader, HeaderReader>;

impl HeaderReader {
    ghost use Rattle.std.specs.Prelude.{◌≡◌};
    ghost use Rattle.header.specs.Settings.{Settings, settings};
    ghost use Rattle.header_reader.specs.Internal.Machine.{State, start, in_fields};
    ghost use Rattle.header_reader.specs.Internal.Represents.{Represents, ReaderStepped, ReaderEnded};
    ghost use Rattle.header_reader.specs.Known.{Knows};
    ghost use Rattle.header_reader.specs.Internal.Run.{ReaderRuns};

    pub fn new(mode: HeaderMode) -> HeaderReader
        ensures { Represents result (settings mode) start }
    {
        HeaderReader {
            mode,
            phase: Phase::InType(PartialInteger::start(0)),
        }
    }

    // One byte more.
    pub fn step(self, byte: u8) -> Result<HeaderStep>
        ensures { ReaderStepped self byte result }
    {
        Ok(match step_phase(self.phase, self.mode, byte)? {
            ControlFlow::Continue(phase) => ControlFlow::Continue(HeaderReader {
                mode: self.mode,
                phase,
            }),
            ControlFlow::Break(header) => ControlFlow::Break(header),
        })
    }

    // Many bytes of extension fields at once, if the fields go on behind them: octets, or whole pairs where no classes are tested. It may
    // take none; `step` then goes on.
    pub fn run(self, piece: &[u8]) -> Ran<HeaderReader>
        ensures { ReaderRuns self piece.now result }
    {
        match self.phase {
            Phase::InFields(fields) => {
                let run = run_fields(fields, self.mode, piece);
                Ran {
                    taken: run.taken,
                    next: HeaderReader {
                        mode: self.mode,
                        phase: Phase::InFields(run.next),
                    },
                }
            }
            _ => stay(self),
        }
    }

    // Whether the next byte is one of the extension fields.
    pub fn in_fields(self) -> bool
        ensures { (o : Settings) (st : State) → Represents self o st → result ≡ in_fields st }
    {
        matches!(self.phase, Phase::InFields(_))
    }

    // The extension fields, once their last byte was taken.
    pub fn fields(self) -> FieldsSeen
        ensures { Knows self result }
    {
        match self.phase {
            Phase::InWidth { fields, .. } | Phase::InHeight { fields, .. } => FieldsSeen::Seen(
                fields,
            ),
            _ => FieldsSeen::Unread,
        }
    }

    // The input ends before the header does.
    #[tactic(auto, using(crate::proofs::EndRefusal::end_is))]
    pub fn ended(self) -> WbmpError
        ensures { ReaderEnded self result }
    {
        match self.phase {
            Phase::InType(integer)
            | Phase::InWidth { integer, .. }
            | Phase::InHeight { integer, .. } => WbmpError::new(Refusal::MbiTruncated, integer.at),
            Phase::AtFix { at } => WbmpError::new(Refusal::FixHeaderMissing, at),
            Phase::InFields(fields) => fields.ended(),
        }
    }
}
