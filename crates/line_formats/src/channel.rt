// Channels of a sample, widened to 8 bits.
ghost use Rattle.std.specs.Prelude.{◌≤◌, ◌<◌, ◌^◌, ◌≡◌};
ghost use Rattle.line_formats.specs.Channel.{widened, channel, colour_by_widths};

use words::Rgb;

// Each number of 3 bits, widened to 8: that of 0 in the lowest byte. A word stays in a register, where an array would be built again for each look-up.
const THREE_BITS: u64 = 0xFF_DB_B6_92_6D_49_24_00;

// A channel of a few bits as 8 bits: its bits repeated from the top. Three bits are looked up.
pub(crate) fn widen(value: u32, width: u32) -> u8
    requires { (1 ≤ width) × (width ≤ 8) × (value < 2 ^ width) }
    ensures { result ≡ widened value width }
{
    if width == 3 {
        return ((THREE_BITS >> (8 * value)) % 256) as u8;
    }
    let one = value as u64;
    let two = (one << width) | one;
    let four = (two << (2 * width)) | two;
    let eight = (four << (4 * width)) | four;
    (eight >> (8 * width - 8)) as u8
}

// A channel of a sample: width bits from bit low up, widened.
pub(crate) fn channel(sample: u32, low: u32, width: u32) -> u8
    requires { (low < 32) × (1 ≤ width) × (width ≤ 8) }
    ensures { result ≡ channel sample low width }
{
    widen(words::bits(sample, low, width), width)
}

// The colour of a sample whose channels have these widths, red lowest.
pub(crate) fn colour(sample: u32, red: u32, green: u32, blue: u32) -> Rgb
    requires { (1 ≤ red) × (red ≤ 8) × (1 ≤ green) × (green ≤ 8) × (1 ≤ blue) × (blue ≤ 8) }
    ensures { result ≡ colour_by_widths sample red green blue }
{
    Rgb {
        red: channel(sample, 0, red),
        green: channel(sample, red, green),
        blue: channel(sample, red + green, blue),
    }
}
