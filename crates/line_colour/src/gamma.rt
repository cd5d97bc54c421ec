// Gamma: each channel of a colour by the same channel of the gamma map.
ghost use Rattle.std.specs.Prelude.{◌≡◌, length};
ghost use Rattle.line_colour.specs.Gamma.{corrected};

use words::Rgb;

// A colour through the 256 words of the gamma map.
pub fn corrected(gamma: &[u32], colour: Rgb) -> Rgb
    requires { length gamma.now ≡ 256 }
    ensures { result ≡ corrected gamma.now colour }
{
    let red = colour.red as usize;
    let green = colour.green as usize;
    let blue = colour.blue as usize;
    Rgb {
        red: Rgb::from(gamma[red]).red,
        green: Rgb::from(gamma[green]).green,
        blue: Rgb::from(gamma[blue]).blue,
    }
}
