// Little-endian numbers stored into lent bytes, and lent bytes copied.
ghost use Rattle.std.specs.Prelude.{◌≡◌, ◌+◌, ◌≤◌, length};
ghost use Rattle.rules.specs.Bytes.{bytes_of, block_size};
ghost use Rattle.rules.specs.Final.{put_at};

const HALF_BLOCK: usize = rules::BLOCK_SIZE / 2;

// The N lowest bytes of a number at an offset.
pub fn store<const N: usize>(out: &mut [u8], at: usize, v: u64)
    requires { (N ≤ 8) × (at + N ≤ length out.old) }
    ensures { out.new ≡ put_at at (bytes_of N v) out.old }
{
    copy(out, at, &v.to_le_bytes()[..N]);
}

// The bytes given at an offset, by the definitions' word for that, which the clauses of its callers say too. A loop, of
// which a call of memcpy is made: std's copy_from_slice would want memmove of whoever links the functions for C.
pub fn copy(out: &mut [u8], at: usize, given: &[u8])
    requires { at + length given.now ≤ length out.old }
    ensures { out.new ≡ put_at at given.now out.old }
{
    for i in 0..given.len() {
        out[at + i] = given[i];
    }
}

// A block at an offset, in halves: the instruction by which the C library copies more takes some processors twenty times
// as long where source and target lie 1 to 15 bytes apart within their pages.
pub fn copy_block(out: &mut [u8], at: usize, given: &[u8])
    requires { (length given.now ≡ block_size) × (at + block_size ≤ length out.old) }
    ensures { out.new ≡ put_at at given.now out.old }
{
    let (first, second) = given.split_at(HALF_BLOCK);
    copy(out, at, first);
    copy(out, at + HALF_BLOCK, second);
}
