// Many bytes of extension fields at once.
ghost use Rattle.std.specs.Prelude.{◌≡◌, false, IfSome, take, nat_le};
ghost use Rattle.std.specs.List.{prefix_len};
ghost use Rattle.header.specs.Settings.{Settings, settings};
ghost use Rattle.header_reader.specs.Internal.Machine.{in_octets};
ghost use Rattle.header_reader.specs.Internal.Standing.{fields_state, Reachable};
ghost use Rattle.header_reader.specs.Internal.Run.{Continued, PairsAhead, FieldsRuns};
ghost use Rattle.header_reader.specs.declared.phase.FieldsPhase.{FieldsPhase};

use crate::phase::{FieldsPhase, PairChain};
use ext::{MAX_EXT_FIELD_BYTES, PairHeader};
use header::HeaderMode;

// How many bytes of a piece are taken at once, and where the reading stands behind them.
#[derive(Clone, Copy)]
pub struct Ran<T> {
    pub taken: usize,
    pub next: T,
}

// How many bytes whole pairs have, and how many pairs they are. No `Ran`: its `next` is where a reading stands, not a count.
#[derive(Clone, Copy)]
pub struct PairsRun {
    pub taken: usize,
    pub pairs: usize,
}

// The octets at the front of a piece behind which others come, `most` of them at most.
fn octets_ahead(most: usize, piece: &[u8]) -> usize
    ensures { result ≡ prefix_len (nat_le 128) (take most piece.now) }
{
    // The slice ends at `most`: behind an adapter `take`, each byte costs one test more.
    let ahead = &piece[..most.min(piece.len())];
    ahead.iter().take_while(|b| **b >= 128).count()
}

// How many bytes a pair has that another follows, by its first byte; none for the last pair and for a length of 0.
fn pair_size(byte: u8) -> Option<usize>
    ensures { IfSome result (Continued byte) }
{
    let header = PairHeader::from_byte(byte);
    if !header.more || header.identifier_len == 0 || header.value_len == 0 {
        return None;
    }
    Some(1 + usize::from(header.identifier_len) + usize::from(header.value_len))
}

// The whole pairs at the front of a piece behind which others come, each of which starts before byte `most`.
fn pairs_ahead(most: usize, piece: &[u8]) -> PairsRun
    ensures { PairsAhead most piece.now result }
{
    let end = most.min(piece.len());
    let mut run = PairsRun { taken: 0, pairs: 0 };
    // No iterator: each pair has a length of its own.
    while run.taken < end {
        match pair_size(piece[run.taken]) {
            Some(size) if size <= piece.len() - run.taken => {
                run.taken += size;
                run.pairs += 1;
            }
            _ => break,
        }
    }
    run
}

pub(crate) fn stay<T>(next: T) -> Ran<T>
    ensures { result ≡ record { taken = 0; next = next } }
{
    Ran { taken: 0, next }
}

fn run_octets(fix: u8, start: usize, at: usize, piece: &[u8]) -> Ran<FieldsPhase>
    requires { Reachable (in_octets fix start at) }
    ensures { (o : Settings) → FieldsRuns o (in_octets fix start at) piece.now result }
{
    let taken = octets_ahead(start + MAX_EXT_FIELD_BYTES - at, piece);
    Ran {
        taken,
        next: FieldsPhase::InOctets {
            fix,
            start,
            at: at + taken,
        },
    }
}

fn run_pairs(chain: PairChain, piece: &[u8]) -> Ran<FieldsPhase>
    requires { Reachable (fields_state (FieldsPhase.AtPair chain)) }
    ensures { (o : Settings) → o.classes ≡ false
        → FieldsRuns o (fields_state (FieldsPhase.AtPair chain)) piece.now result }
{
    if chain.start + MAX_EXT_FIELD_BYTES <= chain.at {
        return stay(FieldsPhase::AtPair(chain));
    }
    let run = pairs_ahead(chain.start + MAX_EXT_FIELD_BYTES - chain.at, piece);
    Ran {
        taken: run.taken,
        next: FieldsPhase::AtPair(PairChain {
            at: chain.at + run.taken,
            pairs: chain.pairs + run.pairs,
            ..chain
        }),
    }
}

// Whole pairs are taken at once where their classes are not tested, and octets up to the last. The match picks as in `step`.
pub(crate) fn run_fields(phase: FieldsPhase, mode: HeaderMode, piece: &[u8]) -> Ran<FieldsPhase>
    requires { Reachable (fields_state phase) }
    ensures { FieldsRuns (settings mode) (fields_state phase) piece.now result }
{
    match phase {
        FieldsPhase::InOctets { fix, start, at } => run_octets(fix, start, at, piece),
        FieldsPhase::AtPair(chain) if !mode.classes => run_pairs(chain, piece),
        _ => stay(phase),
    }
}
