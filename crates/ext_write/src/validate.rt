// A pair to be written, checked.
ghost use Rattle.std.specs.Prelude.{◌≡◌, true};
ghost use Rattle.error.specs.Answer.{checked, map};
ghost use Rattle.ext_write.specs.Write.{check_pair, lengths_of, new_parameter};

use crate::Parameter;
use error::{Refusal, Result, WbmpError};
use ext::{identifier_in_class, value_in_class};

// Strict adds the classes.
#[tactic(auto, unfolding(crate::specs::Write::check_pair))]
pub fn check_parameter(identifier: &[u8], value: &[u8], strict: bool) -> Result<()>
    ensures { checked result ≡ check_pair strict (record { identifier = identifier.entry.now; value = value.now }) }
{
    if !matches!(identifier.len(), 1..=7) {
        return Err(WbmpError::new(Refusal::IdentifierLength, 0));
    }
    if !identifier_in_class(identifier, strict) {
        return Err(WbmpError::new(Refusal::IdentifierClass, 0));
    }
    if !matches!(value.len(), 1..=15) {
        return Err(WbmpError::new(Refusal::ValueLength, 0));
    }
    if !value_in_class(value, strict) {
        return Err(WbmpError::new(Refusal::ValueClass, 0));
    }
    Ok(())
}

impl Parameter {
    // A name of the Rust ("names included", the tender).
    pub fn validate(identifier: &[u8], value: &[u8]) -> Result<()>
        ensures { checked result ≡ check_pair true (record { identifier = identifier.entry.now; value = value.now }) }
    {
        check_parameter(identifier, value, true)
    }

    pub fn new(identifier: &[u8], value: &[u8]) -> Result<Parameter>
        ensures { new_parameter result
            ≡ map (λ u. lengths_of (record { identifier = identifier.entry.now; value = value.now }))
            (check_pair true (record { identifier = identifier.entry.now; value = value.now })) }
    {
        Parameter::validate(identifier, value)?;
        Ok(Parameter {
            identifier_len: identifier.len(),
            value_len: value.len(),
        })
    }
}
