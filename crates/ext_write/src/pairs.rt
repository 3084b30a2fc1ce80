// Pairs to be written, one at a time. Both steps ask nothing: what cannot be checked is refused, and what cannot be put is left.
ghost use Rattle.std.specs.Prelude.{◌+◌, ◌*◌, ◌≤◌, ◌<◌, ◌^◌, ◌≡◌, length, take, drop, get_or};
ghost use Rattle.error.specs.Choice.{if};
ghost use Rattle.error.specs.Answer.{answered, number_or_0};
ghost use Rattle.ext_write.specs.Internal.Steps.{checking, check_start, start_after, first_code, check_step, pairs_length};
ghost use Rattle.ext_write.specs.Internal.Steps.{put_start, put_step, put_output};

use crate::validate::check_parameter;
use crate::{PairsCheck, PairsPut, Parameter};
use error::{Refusal, Result, WbmpError};
use ext::MAX_EXT_FIELD_BYTES;

pub(crate) fn check_start() -> PairsCheck
    ensures { checking result ≡ check_start }
{
    PairsCheck {
        at: 0,
        start: 0,
        refusal: None,
    }
}

// Where the pair behind one that starts at `start` starts.
fn start_after(start: usize, pair: Parameter) -> usize
    requires { pair.identifier_len + pair.value_len < 2 ^ 63 }
    ensures { result ≡ start_after start pair.identifier_len pair.value_len }
{
    if start < MAX_EXT_FIELD_BYTES {
        start + 1 + pair.identifier_len + pair.value_len
    } else {
        start
    }
}

// The first refusal: one that came before, or that of this pair.
fn first_refusal(
    before: Option<Refusal>,
    identifier: &[u8],
    value: &[u8],
    strict: bool,
) -> Option<Refusal>
    ensures { number_or_0 result ≡ first_code strict (number_or_0 before) (record { identifier = identifier.entry.now; value = value.now }) }
{
    if before.is_some() {
        return before;
    }
    check_parameter(identifier, value, strict)
        .err()
        .map(|e| e.kind)
}

pub(crate) fn check_pair(text: &[u8], s: PairsCheck, pair: Parameter, strict: bool) -> PairsCheck
    ensures { checking result ≡ check_step strict text.now (checking s) pair.identifier_len pair.value_len }
{
    let at = s.at;
    let past = PairsCheck {
        at,
        start: s.start,
        refusal: Some(Refusal::PairLengths),
    };
    if text.len() < at || text.len() - at < pair.identifier_len {
        return past;
    }
    let value = at + pair.identifier_len;
    if text.len() - value < pair.value_len {
        return past;
    }
    let end = value + pair.value_len;
    let start = start_after(s.start, pair);
    let refusal = first_refusal(s.refusal, &text[at..value], &text[value..end], strict);
    PairsCheck {
        at: end,
        start,
        refusal,
    }
}

// What a run of checks ends with, for a text of `size` bytes and so many lengths: how many bytes the pairs are, or their refusal.
pub(crate) fn pairs_length(size: usize, number: usize, s: PairsCheck) -> Result<usize>
    requires { size + number < 2 ^ 64 }
    ensures { answered result ≡ pairs_length size number (checking s) }
{
    let at = s.at;
    if at != size {
        return Err(WbmpError::new(Refusal::PairLengths, 0));
    }
    if number == 0 {
        return Err(WbmpError::new(Refusal::FieldsEmpty, 0));
    }
    match s.refusal {
        None => Ok(size + number / 2),
        Some(first) => Err(WbmpError::new(first, 0)),
    }
}

// Bit 7 of a byte says that more follow.
pub(crate) fn with_more(byte: u8, more: bool) -> u8
    requires { byte < 128 }
    ensures { result ≡ if more 128 0 + byte }
{
    if more { 128 + byte } else { byte }
}

fn pair_header(pair: Parameter, more: bool) -> u8
    requires { (pair.identifier_len ≤ 7) × (pair.value_len ≤ 15) }
    ensures { result ≡ if more 128 0 + pair.identifier_len * 16 + pair.value_len }
{
    with_more((pair.identifier_len * 16 + pair.value_len) as u8, more)
}

// By index: `copy_from_slice` calls memmove, which the archives for C do not ask for.
fn copy(from: &[u8], to: &mut [u8])
    requires { length to.old ≡ length from.now }
    ensures { to.new ≡ from.now }
{
    for i in 0..from.len() {
        to[i] = from[i];
    }
}

pub(crate) fn put_start(to: usize) -> PairsPut
    ensures { result ≡ put_start to }
{
    PairsPut { at: 0, to }
}

pub(crate) fn put_pair(
    text: &[u8],
    s: PairsPut,
    pair: Parameter,
    more: bool,
    out: &mut [u8],
) -> PairsPut
    ensures { (result ≡ put_step text.now out.old s pair.identifier_len pair.value_len)
        × (out.new ≡ put_output text.now out.old s pair.identifier_len pair.value_len more) }
{
    let at = s.at;
    let to = s.to;
    if 7 < pair.identifier_len || 15 < pair.value_len {
        return s;
    }
    let len = pair.identifier_len + pair.value_len;
    if text.len() < at || text.len() - at < len || out.len() <= to {
        return s;
    }
    let body = to + 1;
    if out.len() - body < len {
        return s;
    }
    out[to] = pair_header(pair, more);
    copy(&text[at..at + len], &mut out[body..body + len]);
    PairsPut {
        at: at + len,
        to: body + len,
    }
}
