// The pixels of a drawn line, put into lent bytes from a place on. Each function answers the place after what it put.
ghost use Rattle.std.specs.Prelude.{◌+◌, ◌*◌, ◌≤◌, ◌<◌, ◌≡◌, [], ◌∷◌, length};
ghost use Rattle.std.specs.List.{concat};
ghost use Rattle.session_listing.specs.Digits.{hex};
ghost use Rattle.session_listing.specs.Text.{ended, pixels};
ghost use Rattle.session_listing.specs.Inner.{Put, PutAhead};

use crate::put::digit;

// The two hex digits of each byte, and two line feeds behind them.
static PAIRS: [u8; 1024] =
    *b"00\n\n01\n\n02\n\n03\n\n04\n\n05\n\n06\n\n07\n\n08\n\n09\n\n0a\n\n0b\n\n0c\n\n0d\n\n0e\n\n0f\n\n\
    10\n\n11\n\n12\n\n13\n\n14\n\n15\n\n16\n\n17\n\n18\n\n19\n\n1a\n\n1b\n\n1c\n\n1d\n\n1e\n\n1f\n\n\
    20\n\n21\n\n22\n\n23\n\n24\n\n25\n\n26\n\n27\n\n28\n\n29\n\n2a\n\n2b\n\n2c\n\n2d\n\n2e\n\n2f\n\n\
    30\n\n31\n\n32\n\n33\n\n34\n\n35\n\n36\n\n37\n\n38\n\n39\n\n3a\n\n3b\n\n3c\n\n3d\n\n3e\n\n3f\n\n\
    40\n\n41\n\n42\n\n43\n\n44\n\n45\n\n46\n\n47\n\n48\n\n49\n\n4a\n\n4b\n\n4c\n\n4d\n\n4e\n\n4f\n\n\
    50\n\n51\n\n52\n\n53\n\n54\n\n55\n\n56\n\n57\n\n58\n\n59\n\n5a\n\n5b\n\n5c\n\n5d\n\n5e\n\n5f\n\n\
    60\n\n61\n\n62\n\n63\n\n64\n\n65\n\n66\n\n67\n\n68\n\n69\n\n6a\n\n6b\n\n6c\n\n6d\n\n6e\n\n6f\n\n\
    70\n\n71\n\n72\n\n73\n\n74\n\n75\n\n76\n\n77\n\n78\n\n79\n\n7a\n\n7b\n\n7c\n\n7d\n\n7e\n\n7f\n\n\
    80\n\n81\n\n82\n\n83\n\n84\n\n85\n\n86\n\n87\n\n88\n\n89\n\n8a\n\n8b\n\n8c\n\n8d\n\n8e\n\n8f\n\n\
    90\n\n91\n\n92\n\n93\n\n94\n\n95\n\n96\n\n97\n\n98\n\n99\n\n9a\n\n9b\n\n9c\n\n9d\n\n9e\n\n9f\n\n\
    a0\n\na1\n\na2\n\na3\n\na4\n\na5\n\na6\n\na7\n\na8\n\na9\n\naa\n\nab\n\nac\n\nad\n\nae\n\naf\n\n\
    b0\n\nb1\n\nb2\n\nb3\n\nb4\n\nb5\n\nb6\n\nb7\n\nb8\n\nb9\n\nba\n\nbb\n\nbc\n\nbd\n\nbe\n\nbf\n\n\
    c0\n\nc1\n\nc2\n\nc3\n\nc4\n\nc5\n\nc6\n\nc7\n\nc8\n\nc9\n\nca\n\ncb\n\ncc\n\ncd\n\nce\n\ncf\n\n\
    d0\n\nd1\n\nd2\n\nd3\n\nd4\n\nd5\n\nd6\n\nd7\n\nd8\n\nd9\n\nda\n\ndb\n\ndc\n\ndd\n\nde\n\ndf\n\n\
    e0\n\ne1\n\ne2\n\ne3\n\ne4\n\ne5\n\ne6\n\ne7\n\ne8\n\ne9\n\nea\n\neb\n\nec\n\ned\n\nee\n\nef\n\n\
    f0\n\nf1\n\nf2\n\nf3\n\nf4\n\nf5\n\nf6\n\nf7\n\nf8\n\nf9\n\nfa\n\nfb\n\nfc\n\nfd\n\nfe\n\nff\n\n";

// A colour on a line of its own.
fn put_pixel(lent: &mut [u8], at: usize, colour: u32) -> usize
    requires { at + 7 ≤ length lent.old }
    ensures { Put lent.old at (ended (hex colour)) lent.new result }
{
    lent[at] = digit(colour / 1048576 % 16);
    lent[at + 1] = digit(colour / 65536 % 16);
    lent[at + 2] = digit(colour / 4096 % 16);
    lent[at + 3] = digit(colour / 256 % 16);
    lent[at + 4] = digit(colour / 16 % 16);
    lent[at + 5] = digit(colour % 16);
    lent[at + 6] = b'\n';
    at + 7
}

// Colours, one a turn.
fn put_few(lent: &mut [u8], at: usize, colours: &[u32]) -> usize
    requires { at + 7 * length colours.now ≤ length lent.old }
    ensures { Put lent.old at (pixels colours.now) lent.new result }
{
    let mut next = at;
    for colour in colours {
        next = put_pixel(lent, next, *colour);
    }
    next
}

// Eight bytes, each by itself: an array of them takes half as long again. All are at hand before the first is stored, so the compiler stores them in one or two words.
fn put_eight(
    lent: &mut [u8],
    at: usize,
    a: u8,
    b: u8,
    c: u8,
    d: u8,
    e: u8,
    f: u8,
    g: u8,
    h: u8,
) -> usize
    requires { at + 8 ≤ length lent.old }
    ensures { Put lent.old at (a ∷ b ∷ c ∷ d ∷ e ∷ f ∷ g ∷ h ∷ []) lent.new result }
{
    lent[at] = a;
    lent[at + 1] = b;
    lent[at + 2] = c;
    lent[at + 3] = d;
    lent[at + 4] = e;
    lent[at + 5] = f;
    lent[at + 6] = g;
    lent[at + 7] = h;
    at + 8
}

// A colour on a line of its own, and a line feed more to make eight bytes of it. The place answered is that of the line feed too many: what is put next covers it.
fn put_ahead(lent: &mut [u8], at: usize, colour: u32) -> usize
    requires { at + 8 ≤ length lent.old }
    ensures { PutAhead lent.old at (ended (hex colour)) lent.new result × (result ≡ at + 7) }
{
    let red = 4 * (colour / 65536 % 256) as usize;
    let green = 4 * (colour / 256 % 256) as usize;
    let blue = 4 * (colour % 256) as usize;
    let after = put_eight(
        lent,
        at,
        PAIRS[red],
        PAIRS[red + 1],
        PAIRS[green],
        PAIRS[green + 1],
        PAIRS[blue],
        PAIRS[blue + 1],
        PAIRS[blue + 2],
        PAIRS[blue + 3],
    );
    after - 1
}

// Four colours, each read after the one before it is put: of four that are read at once the compiler makes a vector, which takes longer.
fn put_four(lent: &mut [u8], at: usize, colours: &[u32; 4]) -> usize
    requires { at + 28 < length lent.old }
    ensures { PutAhead lent.old at (pixels colours.now) lent.new result × (result ≡ at + 28) }
{
    let second = put_ahead(lent, at, colours[0]);
    let third = put_ahead(lent, second, colours[1]);
    let fourth = put_ahead(lent, third, colours[2]);
    put_ahead(lent, fourth, colours[3])
}

// Some fours of colours, a four a turn.
fn put_fours(lent: &mut [u8], at: usize, fours: &[[u32; 4]]) -> usize
    requires { at + 28 * length fours.now < length lent.old }
    ensures { PutAhead lent.old at (pixels (concat fours.now)) lent.new result × (result ≡ at + 28 * length fours.now) }
{
    let mut next = at;
    for four in fours {
        next = put_four(lent, next, four);
    }
    next
}

// Each colour on a line of its own: by fours, and the last one to four one a turn, since behind them there may be no room for a line feed too many.
pub(crate) fn put_pixels(lent: &mut [u8], at: usize, colours: &[u32]) -> usize
    requires { at + 7 * length colours.now ≤ length lent.old }
    ensures { Put lent.old at (pixels colours.now) lent.new result }
{
    let Some(most) = colours.len().checked_sub(1) else {
        return at;
    };
    let (fours, _) = colours[..most].as_chunks::<4>();
    let next = put_fours(lent, at, fours);
    put_few(lent, next, &colours[4 * fours.len()..])
}
