// The functions of the crate capi under their C names: a static library; include/wbmp.h has the declarations. A crate of its own, as C's
// names stand in static libraries alone; each repeats the contract that C is promised.
#![tactic(auto)]

ghost use Rattle.std.specs.Prelude.{◌≡◌};
ghost use Rattle.api.specs.Sniff.{sniffed};
ghost use Rattle.capi.specs.Returned.{sniff_number};
ghost use Rattle.capi.specs.Asked.{settings_of};
ghost use Rattle.capi.specs.Calls.{Informs, Reads};

// 0: neither; 1: a whole file; 2: the front of one.
#[unsafe(no_mangle)]
pub extern "C" fn wbmp_sniff(bytes: &[u8]) -> u8
    ensures { result ≡ sniff_number (sniffed bytes.now) }
{
    capi::wbmp_sniff(bytes)
}

// Size, frames and fields of a file, to the lent numbers; a refusal writes none of them.
#[unsafe(no_mangle)]
pub extern "C" fn wbmp_info(
    bytes: &[u8],
    width: &mut u32,
    height: &mut u32,
    frames: &mut u32,
    body: &mut usize,
    fix_header: &mut u8,
    fields_kind: &mut u8,
    fields_start: &mut usize,
    fields_len: &mut usize,
    pairs: &mut usize,
) -> u64
    ensures { Informs bytes.now result (width.old, width.new) (height.old, height.new)
        (frames.old, frames.new) (body.old, body.new)
        (fix_header.old, fix_header.new) (fields_kind.old, fields_kind.new)
        (fields_start.old, fields_start.new) (fields_len.old, fields_len.new)
        (pairs.old, pairs.new) }
{
    capi::wbmp_info(
        bytes,
        width,
        height,
        frames,
        body,
        fix_header,
        fields_kind,
        fields_start,
        fields_len,
        pairs,
    )
}

// Whole reading: the planes of all frames, end to end, at the front of the lent output; a refusal writes nothing that is lent.
#[unsafe(no_mangle)]
pub extern "C" fn wbmp_read(
    bytes: &[u8],
    format: u32,
    strict: u32,
    max_width: u32,
    max_height: u32,
    max_pixels: u64,
    max_bytes: u64,
    out: &mut [u8],
    width: &mut u32,
    height: &mut u32,
    frames: &mut u32,
    written: &mut usize,
) -> u64
    ensures { Reads (settings_of format strict max_width max_height max_pixels max_bytes) bytes.now result
        out.old out.new (width.old, width.new) (height.old, height.new)
        (frames.old, frames.new) (written.old, written.new) }
{
    capi::wbmp_read(
        bytes, format, strict, max_width, max_height, max_pixels, max_bytes, out, width, height,
        frames, written,
    )
}
