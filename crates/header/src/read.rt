// Whole headers, by recursive descent as the Rust goes. By offset: places of refusals and spans of fields are places in the whole input.
ghost use Rattle.std.specs.Prelude.{◌≡◌, ◌&&◌};
ghost use Rattle.error.specs.Answer.{map};
ghost use Rattle.ext.specs.Kinds.{span_of, ext_span, fields_follow, kind_bits, meaning as fields_read};
ghost use Rattle.ext.specs.Read.{read_fields};
ghost use Rattle.header.specs.Settings.{settings, inner, ext_inner};
ghost use Rattle.header.specs.Read.{meaning, outline, sized, outline_sizes, read_header, read_fix, read_after_fix};

use crate::{HeaderMode, ParsedHeader};
use error::{Refusal, Result, WbmpError};
use ext::{ExtFields, FixHeaderField};

impl HeaderMode {
    // The mode of `parse_header_inner`.
    pub fn inner(strict: bool) -> HeaderMode
        ensures { settings result ≡ inner strict }
    {
        HeaderMode {
            shortest: strict,
            fix_zero: strict,
            fields: false,
            classes: false,
        }
    }

    // The mode of `parse_header_ext_inner`.
    pub fn ext_inner(strict: bool) -> HeaderMode
        ensures { settings result ≡ ext_inner strict }
    {
        HeaderMode {
            shortest: strict,
            fix_zero: false,
            fields: true,
            classes: strict,
        }
    }

    // The fields behind a FixHeader byte, if they are read and follow.
    #[tactic(auto, unfolding(ext::specs::Read::read_fields))]
    fn read_fields(self, bytes: &[u8], offset: usize, fix: u8) -> Result<Option<ExtFields>>
        ensures { fields_read result ≡ map (span_of offset)
            (read_fields self.classes (self.fields && fields_follow fix) (kind_bits fix) bytes.now offset) }
    {
        if !self.fields {
            return Ok(None);
        }
        ext::parse_ext_fields_inner(FixHeaderField::from_byte(fix), bytes, offset, self.classes)
    }

    // Both sizes, after the fields or none. The FixHeader byte and the fields stay two, as `ParsedHeader` has them.
    fn parse_sizes(
        self,
        bytes: &[u8],
        at: usize,
        fix: u8,
        fields: Option<ExtFields>,
    ) -> Result<ParsedHeader>
        ensures { meaning result ≡ outline_sizes self.shortest bytes.now fix (ext_span fields) at }
    {
        let (width, between) = mbi::read_mbi(self.shortest, bytes, at)?;
        let (height, data_offset) = mbi::read_mbi(self.shortest, bytes, between)?;
        ParsedHeader::new(width, height, data_offset, fix, fields)
    }

    #[tactic(auto, using(crate::proofs::HeaderParts::after_fields, crate::proofs::HeaderParts::fields_end))]
    fn parse_after_fix(self, bytes: &[u8], at: usize, fix: u8) -> Result<ParsedHeader>
        ensures { meaning result ≡ map outline (read_after_fix (settings self) bytes.now fix at) }
    {
        let fields = self.read_fields(bytes, at, fix)?;
        let end = fields.map_or(at, |f| f.start + f.len);
        self.parse_sizes(bytes, end, fix, fields)
    }

    fn parse_fix(self, bytes: &[u8], at: usize) -> Result<ParsedHeader>
        ensures { meaning result ≡ map outline (read_fix (settings self) bytes.now at) }
    {
        let Some(&fix) = bytes.get(at) else {
            return Err(WbmpError::new(Refusal::FixHeaderMissing, at));
        };
        if self.fix_zero && fix != 0 {
            return Err(WbmpError::new(Refusal::FixHeaderNotZero, at));
        }
        self.parse_after_fix(bytes, at + 1, fix)
    }
}

impl ParsedHeader {
    // A header whose sizes were read, refused where one of them is 0.
    pub fn new(
        width: u32,
        height: u32,
        data_offset: usize,
        fix_header: u8,
        ext_fields: Option<ExtFields>,
    ) -> Result<ParsedHeader>
        ensures { meaning result ≡ sized fix_header (ext_span ext_fields) width (height, data_offset) }
    {
        if width == 0 || height == 0 {
            return Err(WbmpError::new(Refusal::ZeroDimension, data_offset));
        }
        Ok(ParsedHeader {
            width,
            height,
            data_offset,
            fix_header,
            ext_fields,
        })
    }
}

// A header read in any mode.
#[tactic(auto, unfolding(crate::specs::Read::read_header))]
pub fn parse_header_mode(bytes: &[u8], mode: HeaderMode) -> Result<ParsedHeader>
    ensures { meaning result ≡ map outline (read_header (settings mode) bytes.now) }
{
    let (value, offset) = mbi::read_mbi(mode.shortest, bytes, 0)?;
    if value != 0 {
        return Err(WbmpError::new(Refusal::TypeUnsupported, offset));
    }
    mode.parse_fix(bytes, offset)
}

// The FixHeader byte is skipped, or 0 if strict; no fields are read. A name of the Rust ("names included", the tender).
pub fn parse_header_inner(bytes: &[u8], strict: bool) -> Result<ParsedHeader>
    ensures { meaning result ≡ map outline (read_header (inner strict) bytes.now) }
{
    parse_header_mode(bytes, HeaderMode::inner(strict))
}

// Fields are read where the FixHeader byte says that they follow. A name of the Rust, as above.
pub fn parse_header_ext_inner(bytes: &[u8], strict: bool) -> Result<ParsedHeader>
    ensures { meaning result ≡ map outline (read_header (ext_inner strict) bytes.now) }
{
    parse_header_mode(bytes, HeaderMode::ext_inner(strict))
}
