// Where a reading of a header stands between two bytes. `at` is how many bytes were taken.
ghost use Rattle.std.specs.Prelude.{◌≡◌, Ok, [], ◌+◌, ◌-◌, ◌<◌};
ghost use Rattle.error.specs.Answer.{refusal};
ghost use Rattle.mbi.specs.Read.{read_byte, step_meaning};
ghost use Rattle.header.specs.Settings.{Settings};
ghost use Rattle.header_reader.specs.Internal.Machine.{resume};
ghost use Rattle.header_reader.specs.Internal.Standing.{fields_state};
ghost use Rattle.header_reader.specs.declared.phase.Phase.{Phase};
ghost use Rattle.std.specs.declared.ops.ControlFlow.TheVariants.{Continue};

use error::{Refusal, Result, WbmpError};
use ext::ExtFields;
use header::{HeaderMode, ParsedHeader};
use mbi::{MbiStep, mbi_step};
use std::ops::ControlFlow;

// An integer so far: the value of its first `count` bytes.
#[derive(Clone, Copy)]
pub struct PartialInteger {
    pub at: usize,
    pub value: u32,
    pub count: u8,
}

// Pairs so far: the FixHeader byte before them, where the first one starts, and how many are done.
#[derive(Clone, Copy)]
pub struct PairChain {
    pub fix: u8,
    pub start: usize,
    pub at: usize,
    pub pairs: usize,
}

// A pair's identifier or value: where it begins, how many of its bytes are left, whether one more pair follows, and the class refusal that
// waits for the pair's end.
#[derive(Clone, Copy)]
pub struct PairPart {
    pub begun: usize,
    pub left: u8,
    pub more: bool,
    pub fault: Option<Refusal>,
}

#[derive(Clone, Copy)]
pub enum FieldsPhase {
    // No `PairChain`: octets have no pairs to count.
    InOctets {
        fix: u8,
        start: usize,
        at: usize,
    },
    AtOctet {
        fix: u8,
        at: usize,
    },
    AtPair(PairChain),
    InIdentifier {
        chain: PairChain,
        part: PairPart,
        size: u8,
    },
    InValue {
        chain: PairChain,
        part: PairPart,
    },
}

#[derive(Clone, Copy)]
pub enum Phase {
    InType(PartialInteger),
    AtFix {
        at: usize,
    },
    InFields(FieldsPhase),
    // The FixHeader byte and the fields, here and below, as `ParsedHeader` has them.
    InWidth {
        fix: u8,
        fields: Option<ExtFields>,
        integer: PartialInteger,
    },
    InHeight {
        fix: u8,
        fields: Option<ExtFields>,
        width: u32,
        integer: PartialInteger,
    },
}

// What one byte does: the header goes on or ends.
pub(crate) type PhaseStep = ControlFlow<ParsedHeader, Phase>;

// The header goes on.
pub(crate) fn more(phase: Phase) -> Result<PhaseStep>
    ensures { result ≡ Ok (Continue phase) }
{
    Ok(ControlFlow::Continue(phase))
}

// The fields go on.
pub(crate) fn more_fields(phase: FieldsPhase) -> Result<PhaseStep>
    ensures { result ≡ Ok (Continue (Phase.InFields phase)) }
{
    more(Phase::InFields(phase))
}

// The bounds that the steps below ask follow from `Reachable`. Kept in the types they would have to hold of what a step makes, which only
// the whole phase tells.
impl PartialInteger {
    pub(crate) fn start(at: usize) -> PartialInteger
        ensures { result ≡ record { at = at; value = 0; count = 0 } }
    {
        PartialInteger {
            at,
            value: 0,
            count: 0,
        }
    }

    // What one byte more does to it.
    pub(crate) fn read(self, mode: HeaderMode, byte: u8) -> Result<MbiStep>
        requires { (self.at < 8192) × (self.count < 8) }
        ensures { step_meaning result ≡ read_byte mode.shortest self.at self.value self.count byte }
    {
        mbi_step(mode.shortest, self.at, self.value, self.count, byte)
    }

    // One byte more, which brings it to a value.
    pub(crate) fn grown(self, value: u32) -> PartialInteger
        requires { (self.at < 8192) × (self.count < 8) }
        ensures { result ≡ record { at = self.at + 1; value = value; count = self.count + 1 } }
    {
        PartialInteger {
            at: self.at + 1,
            value,
            count: self.count + 1,
        }
    }
}

impl PairChain {
    // One byte more.
    pub(crate) fn grown(self) -> PairChain
        requires { self.at < 8192 }
        ensures { result ≡ record { fix = self.fix; start = self.start; at = self.at + 1; pairs = self.pairs } }
    {
        PairChain {
            at: self.at + 1,
            ..self
        }
    }
}

impl PairPart {
    // One byte less is left.
    pub(crate) fn shrunk(self, fault: Option<Refusal>) -> PairPart
        requires { 0 < self.left }
        ensures { result ≡ record { begun = self.begun; left = self.left - 1; more = self.more; fault = fault } }
    {
        PairPart {
            left: self.left - 1,
            fault,
            ..self
        }
    }
}

impl FieldsPhase {
    // The input ends inside the fields.
    #[tactic(auto, using(crate::proofs::EndRefusal::end_is))]
    pub(crate) fn ended(self) -> WbmpError
        ensures { (o : Settings) → refusal result ≡ resume o (fields_state self) [] }
    {
        match self {
            FieldsPhase::InOctets { at, .. } | FieldsPhase::AtOctet { at, .. } => WbmpError::new(
                Refusal::ExtTruncated,
                at,
            ),
            FieldsPhase::AtPair(chain) => WbmpError::new(Refusal::ExtTruncated, chain.at),
            FieldsPhase::InIdentifier { part, .. } | FieldsPhase::InValue { part, .. } =>
                WbmpError::new(Refusal::PairTruncated, part.begun),
        }
    }
}
