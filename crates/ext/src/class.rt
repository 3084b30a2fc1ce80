// The strict classes of WAP 4.4.3, from RFC 2234.
ghost use Rattle.std.specs.Prelude.{◌≡◌};
ghost use Rattle.ext.specs.Classes.{is_char, is_alpha_digit, in_class};

pub fn is_rfc2234_char(byte: u8) -> bool
    ensures { result ≡ is_char byte }
{
    matches!(byte, 1..=127)
}

#[tactic(auto, unfolding(crate::specs::Classes::is_alpha_digit))]
pub fn is_rfc2234_alpha_digit(byte: u8) -> bool
    ensures { result ≡ is_alpha_digit byte }
{
    byte.is_ascii_alphanumeric()
}

// Whether an identifier is in its class, where strict asks for it. One function for both classes would take the class as a closure.
pub fn identifier_in_class(bytes: &[u8], strict: bool) -> bool
    ensures { result ≡ in_class strict is_char bytes.now }
{
    !strict || bytes.iter().all(|b| is_rfc2234_char(*b))
}

// The same of a value.
pub fn value_in_class(bytes: &[u8], strict: bool) -> bool
    ensures { result ≡ in_class strict is_alpha_digit bytes.now }
{
    !strict || bytes.iter().all(|b| is_rfc2234_alpha_digit(*b))
}
