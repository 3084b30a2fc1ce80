// Work on bytes: those of a row, or of many.
ghost use Rattle.std.specs.Prelude.{◌≡◌, ◌++◌, ◌≤◌, length, take, drop};
ghost use Rattle.image.specs.Internal.Parts.{mask_last};
ghost use Rattle.image.specs.Rows.{invert};

// The bytes of another list, one by one. Counted by hand, as in `copy`: with `for`, and blocks by `try_from`, reading takes four times as
// long, and native reading of large planes is only 1.1 to 1.4 times as fast as the Rust's.
fn copy_bytes(from: &[u8], to: &mut [u8])
    requires { length from.now ≡ length to.old }
    ensures { to.new ≡ from.now }
{
    let mut i: usize = 0;
    while i < to.len() {
        to[i] = from[i];
        i += 1;
    }
}

// The bytes of a list of 16.
fn block(from: &[u8]) -> [u8; 16]
    requires { length from.now ≡ 16 }
    ensures { result ≡ from.now }
{
    let mut b = [0u8; 16];
    copy_bytes(from, &mut b);
    b
}

// The first block of another list.
fn copy_front(from: &[u8], to: &mut [u8])
    requires { (length from.now ≡ length to.old) × (16 ≤ length to.old) }
    ensures { to.new ≡ take 16 from.now ++ drop 16 to.old }
{
    let b = block(&from[..16]);
    copy_bytes(&b, &mut to[..16]);
}

// The bytes of another list: block by block, each read whole before it is stored, and then the rest. `copy_from_slice` of any length is a
// call of memmove, for which an archive for C would ask from outside.
pub(crate) fn copy(from: &[u8], to: &mut [u8])
    requires { length from.now ≡ length to.old }
    ensures { to.new ≡ from.now }
{
    let n = to.len();
    let mut i: usize = 0;
    while 15 < n - i {
        let end = i + 16;
        let b = block(&from[i..end]);
        copy_bytes(&b, &mut to[i..end]);
        i = end;
    }
    copy_bytes(&from[i..], &mut to[i..]);
}

// The same for a stretch that starts at index `at` of its buffer: the blocks are stored at multiples of 16 of it, over the end of one at
// the front.
pub(crate) fn copy_at(from: &[u8], at: usize, to: &mut [u8])
    requires { length from.now ≡ length to.old }
    ensures { to.new ≡ from.now }
{
    if to.len() < 16 {
        copy_bytes(from, to);
    } else {
        copy_front(from, to);
        let next = 16 - at % 16;
        copy(&from[next..], &mut to[next..]);
    }
}

// The inverted bytes of another list. By index: by `to.iter_mut().zip(from)` was tried, after which nothing is known of `to`.
pub(crate) fn invert_from(from: &[u8], to: &mut [u8])
    requires { length from.now ≡ length to.old }
    ensures { to.new ≡ invert from.now }
{
    for i in 0..to.len() {
        to[i] = 255 - from[i];
    }
}

// In place, so not by `invert_from`: source and target are one slice.
pub(crate) fn invert(row: &mut [u8])
    ensures { row.new ≡ invert row.old }
{
    for b in row.iter_mut() {
        *b = 255 - *b;
    }
}

// The last byte, if there is one, is masked.
pub(crate) fn mask_last(row: &mut [u8], mask: u8)
    ensures { row.new ≡ mask_last mask row.old }
{
    if let Some(last) = row.last_mut() {
        *last &= mask;
    }
}
