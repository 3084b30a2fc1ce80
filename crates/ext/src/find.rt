// The value of a pair by its identifier.
ghost use Rattle.std.specs.Prelude.{false};
ghost use Rattle.ext.specs.Kinds.{kind_number};
ghost use Rattle.ext.specs.Read.{read_fields};
ghost use Rattle.ext.specs.Find.{Looked, looking};

use crate::{FixHeaderField, PairHeader, ValueSpan, parse_ext_fields};
use error::Result;

// The first pair that carries the identifier.
pub fn lookup(
    fix_header: FixHeaderField,
    bytes: &[u8],
    offset: usize,
    identifier: &[u8],
) -> Result<Option<ValueSpan>>
    ensures { Looked
        (read_fields false fix_header.ext_fields_follow (kind_number fix_header.ext_type) bytes.now offset)
        bytes.now offset identifier.now (looking result) }
{
    let Some(fields) = parse_ext_fields(fix_header, bytes, offset)? else {
        return Ok(None);
    };
    let mut at = offset;
    for _pair in 0..fields.pairs {
        let header = PairHeader::from_byte(bytes[at]);
        let identifier_at = at + 1;
        let start = identifier_at + header.identifier_len as usize;
        let len = header.value_len as usize;
        if &bytes[identifier_at..start] == identifier {
            return Ok(Some(ValueSpan { start, len }));
        }
        at = start + len;
    }
    Ok(None)
}
