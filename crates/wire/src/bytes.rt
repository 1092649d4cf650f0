// Numbers in bytes, high byte first.
ghost use Rattle.std.specs.Prelude.{◌≡◌, ◌+◌, ◌*◌, ◌≤◌, ◌++◌, length, drop};
ghost use Rattle.wire.specs.Bytes.{be2, be4, be8, bytes4, bytes8, value_bytes};

// The number in the two bytes at a position.
pub fn be2(s: &[u8], at: usize) -> u16
    requires { at + 2 ≤ length s.now }
    ensures { result ≡ be2 s.now at }
{
    u16::from_be_bytes([s[at], s[at + 1]])
}

// The number in the four bytes at a position.
pub fn be4(s: &[u8], at: usize) -> u32
    requires { at + 4 ≤ length s.now }
    ensures { result ≡ be4 s.now at }
{
    u32::from_be_bytes([s[at], s[at + 1], s[at + 2], s[at + 3]])
}

// The number in the eight bytes at a position.
pub fn be8(s: &[u8], at: usize) -> u64
    requires { at + 8 ≤ length s.now }
    ensures { result ≡ be8 s.now at }
{
    u64::from_be_bytes([
        s[at],
        s[at + 1],
        s[at + 2],
        s[at + 3],
        s[at + 4],
        s[at + 5],
        s[at + 6],
        s[at + 7],
    ])
}

// The four bytes of a number at the front of out.
pub fn put4(out: &mut [u8], x: u32)
    requires { 4 ≤ length out.old }
    ensures { out.new ≡ bytes4 x ++ drop 4 out.old }
{
    out[..4].copy_from_slice(&x.to_be_bytes());
}

// The eight bytes of a number at the front of out.
pub fn put8(out: &mut [u8], x: u64)
    requires { 8 ≤ length out.old }
    ensures { out.new ≡ bytes8 x ++ drop 8 out.old }
{
    out[..8].copy_from_slice(&x.to_be_bytes());
}

// Numbers in eight bytes each at the front of out.
pub fn put_values(values: &[u64], out: &mut [u8])
    requires { 8 * length values.now ≤ length out.old }
    ensures { out.new ≡ value_bytes values.now ++ drop (8 * length values.now) out.old }
{
    for (k, v) in values.iter().enumerate() {
        put8(&mut out[8 * k..], *v);
    }
}
