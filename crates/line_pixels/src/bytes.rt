// Little-endian numbers in lent bytes. Each function stands alone, since its sum then becomes one load, which a loop can do for many pixels at once.
ghost use Rattle.std.specs.Prelude.{◌+◌, ◌*◌, ◌≤◌, ◌<◌, ◌≡◌, length, get_or};

// The number in two bytes, the first the lowest.
pub(crate) fn le16(bytes: &[u8], at: usize) -> u32
    requires { at + 2 ≤ length bytes.now }
    ensures { (result ≡ get_or bytes.now at 0 + get_or bytes.now (at + 1) 0 * 256) × (get_or bytes.now at 0 < 256) × (get_or bytes.now (at + 1) 0 < 256) }
{
    u32::from(bytes[at]) + u32::from(bytes[at + 1]) * 256
}

// The number in four bytes, the first the lowest.
pub(crate) fn le32(bytes: &[u8], at: usize) -> u32
    requires { at + 4 ≤ length bytes.now }
    ensures { (result ≡ get_or bytes.now at 0 + get_or bytes.now (at + 1) 0 * 256 + get_or bytes.now (at + 2) 0 * 65536 + get_or bytes.now (at + 3) 0 * 16777216) × (get_or bytes.now at 0 < 256) × (get_or bytes.now (at + 1) 0 < 256) × (get_or bytes.now (at + 2) 0 < 256) × (get_or bytes.now (at + 3) 0 < 256) }
{
    u32::from(bytes[at])
        + u32::from(bytes[at + 1]) * 256
        + u32::from(bytes[at + 2]) * 65536
        + u32::from(bytes[at + 3]) * 16777216
}
