// The class refusal that waits for a pair's end: an identifier's comes before a value's. Two functions: each has its class, and only a
// value's refusal gives way to the one that waits.
#![tactic(auto, unfolding(ext::specs::Internal::Bytewise::identifier_fault, ext::specs::Internal::Bytewise::value_fault))]

ghost use Rattle.std.specs.Prelude.{◌≡◌};
ghost use Rattle.error.specs.Answer.{number_or_0};
ghost use Rattle.ext.specs.Internal.Bytewise.{identifier_fault, value_fault};

use error::Refusal;

pub(crate) fn identifier_fault(strict: bool, fault: Option<Refusal>, byte: u8) -> Option<Refusal>
    ensures { number_or_0 result ≡ identifier_fault strict (number_or_0 fault) byte }
{
    if !strict || ext::is_rfc2234_char(byte) {
        fault
    } else {
        Some(Refusal::IdentifierClass)
    }
}

pub(crate) fn value_fault(strict: bool, fault: Option<Refusal>, byte: u8) -> Option<Refusal>
    ensures { number_or_0 result ≡ value_fault strict (number_or_0 fault) byte }
{
    if !strict || fault.is_some() || ext::is_rfc2234_alpha_digit(byte) {
        fault
    } else {
        Some(Refusal::ValueClass)
    }
}
