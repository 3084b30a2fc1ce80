// What a setting asks for: a known side, and a work buffer where the rule keeps carries.
ghost use Rattle.std.specs.Prelude.{◌≡◌};
ghost use Rattle.error.specs.Answer.{gives, refuses, bind, checked};
ghost use Rattle.error.specs.Choice.{if};
ghost use Rattle.rules.specs.Rule.{known_rule, enough_work, rule_named, rule_given};

use error::{Refusal, Result, WbmpError};
use options::Quantize;
use ordered::known_side;

// Whether the rule's side is one of document 01's. A match: one arm alone has a side to ask of.
pub fn known_rule(rule: Quantize) -> bool
    ensures { result ≡ known_rule rule }
{
    match rule {
        Quantize::Threshold(_) | Quantize::Dither => true,
        Quantize::Ordered(side) => known_side(side),
    }
}

// Whether a work buffer of so many numbers is long enough. A match, as in `known_rule`.
pub fn enough_work(rule: Quantize, width: usize, work: usize) -> bool
    ensures { result ≡ enough_work (rule_given (rule_named rule)) width work }
{
    match rule {
        Quantize::Threshold(_) | Quantize::Ordered(_) => true,
        Quantize::Dither => width <= work / 2,
    }
}

// Whether the rule is known, and so many numbers of work serve for it.
pub fn check_rule(rule: Quantize, width: u32, work: usize) -> Result<()>
    ensures { checked result ≡ bind (rule_named rule) (λ asked. if (enough_work asked width work) (gives tt) (refuses 28 0)) }
{
    if !known_rule(rule) {
        return Err(WbmpError::new(Refusal::UnknownSetting, 0));
    }
    if !enough_work(rule, width as usize, work) {
        return Err(WbmpError::new(Refusal::BufferTooShort, 0));
    }
    Ok(())
}
