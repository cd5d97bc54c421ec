// The register map: what an address names, which bits a register keeps, where it stands in the store, and whether it can be written and its writes wait.
#![tactic(auto)]

ghost use Rattle.std.specs.Prelude.{◌≤◌, ◌≡◌, [], ◌∷◌};
ghost use Rattle.chip_registers.specs.Blocks.{blocks, row_of, start, count};
ghost use Rattle.chip_registers.specs.Named.{address_place, among, named};
ghost use Rattle.chip_registers.specs.Kept.{kept_of_control, kept_of, fits};
ghost use Rattle.chip_registers.specs.Store.{store_start, store_place};
ghost use Rattle.chip_registers.specs.Access.{read_only, waits};

// How many control words there are.
pub const CONTROL_WORDS: u32 = 11;

// The first control word that can only be read: those before it are stored.
pub const FIRST_READ_ONLY: u32 = 9;

// How many words of window entries there are.
pub const WINDOW_ENTRIES: u32 = 32;

// How many words the colour map has.
pub const COLOUR_MAP_WORDS: u32 = 4608;

// How many words the gamma map has.
pub const GAMMA_MAP_WORDS: u32 = 256;

// How many words the cursor glyph has.
pub const CURSOR_GLYPH_WORDS: u32 = 64;

// How many cursor colours there are.
pub const CURSOR_COLOURS: u32 = 3;

// How many bits a colour has: a word of the colour map, of the gamma map and a cursor colour.
pub const COLOUR_BITS: u32 = 24;

// Where the window entries start in the store: they are its first block.
pub const WINDOW_ENTRIES_START: usize = 0;

// Where the colour map starts in the store: behind the window entries.
pub const COLOUR_MAP_START: usize = WINDOW_ENTRIES_START + WINDOW_ENTRIES as usize;

// Where the gamma map starts in the store: behind the colour map.
pub const GAMMA_MAP_START: usize = COLOUR_MAP_START + COLOUR_MAP_WORDS as usize;

// Where the gamma map ends in the store, and the cursor glyph starts.
pub const GAMMA_MAP_END: usize = GAMMA_MAP_START + GAMMA_MAP_WORDS as usize;

// Where the cursor colours start in the store: behind the cursor glyph.
pub const CURSOR_COLOURS_START: usize = GAMMA_MAP_END + CURSOR_GLYPH_WORDS as usize;

// How many words the store has.
pub const STORE_WORDS: usize = CURSOR_COLOURS_START + CURSOR_COLOURS as usize;

// The blocks of registers, in the order of the table.
#[derive(Clone, Copy)]
pub enum Block {
    // the control words: they are the state's
    Control,
    // one word for each window ID
    WindowEntries,
    // the colours that pixels name by number
    ColourMap,
    // what each value of a channel becomes
    GammaMap,
    // the 32 x 32 picture of the cursor, 2 bits a pixel
    CursorGlyph,
    // cursor colours 1 to 3
    CursorColours,
}

// The bits that the words of a block keep.
#[derive(Drop)]
pub enum KeptBits {
    // each control word has fields of its own
    ByField,
    // so many bits, from bit 0 up
    Lowest(u32),
}

// A block's row of the table.
#[derive(Drop)]
pub struct BlockRow {
    // the address of its first word
    pub start: u32,
    // how many words it has
    pub words: u32,
    // the bits that its words keep
    pub kept: KeptBits,
    // whether the store has it
    pub stored: bool,
    // whether writes to it wait
    pub waits: bool,
}

// A register.
#[derive(Clone, Copy)]
pub struct Register {
    // the block that it is in
    pub block: Block,
    // which word of the block it is, from 0 on
    pub word: u32,
}

impl Block {
    // Its row of the table.
    pub fn row(self) -> BlockRow
        ensures { result ≡ row_of self }
    {
        match self {
            Block::Control => BlockRow {
                start: 0x000000,
                words: CONTROL_WORDS,
                kept: KeptBits::ByField,
                stored: false,
                waits: false,
            },
            Block::WindowEntries => BlockRow {
                start: 0x010000,
                words: WINDOW_ENTRIES,
                kept: KeptBits::Lowest(13),
                stored: true,
                waits: false,
            },
            Block::ColourMap => BlockRow {
                start: 0x020000,
                words: COLOUR_MAP_WORDS,
                kept: KeptBits::Lowest(COLOUR_BITS),
                stored: true,
                waits: true,
            },
            Block::GammaMap => BlockRow {
                start: 0x030000,
                words: GAMMA_MAP_WORDS,
                kept: KeptBits::Lowest(COLOUR_BITS),
                stored: true,
                waits: false,
            },
            Block::CursorGlyph => BlockRow {
                start: 0x040000,
                words: CURSOR_GLYPH_WORDS,
                kept: KeptBits::Lowest(32),
                stored: true,
                waits: false,
            },
            Block::CursorColours => BlockRow {
                start: 0x041000,
                words: CURSOR_COLOURS,
                kept: KeptBits::Lowest(COLOUR_BITS),
                stored: true,
                waits: false,
            },
        }
    }

    // The address of its first word.
    pub fn start(self) -> u32
        ensures { result ≡ start self }
    {
        self.row().start
    }

    // How many words it has.
    pub fn count(self) -> u32
        ensures { result ≡ count self }
    {
        self.row().words
    }

    // How many words of the store stand before its own.
    pub fn store_start(self) -> usize
        ensures { result ≡ store_start self }
    {
        match self {
            Block::Control => 0,
            Block::WindowEntries => WINDOW_ENTRIES_START,
            Block::ColourMap => COLOUR_MAP_START,
            Block::GammaMap => GAMMA_MAP_START,
            Block::CursorGlyph => GAMMA_MAP_END,
            Block::CursorColours => CURSOR_COLOURS_START,
        }
    }
}

// An address without its bits 31..24.
pub fn place(address: u32) -> u32
    ensures { result ≡ address_place address }
{
    address % 0x1000000
}

// The block that a place is in, if in any: the last that starts at or before it.
#[tactic(auto, using(crate::proofs::Blocks::alone))]
fn block_before(place: u32) -> Block
    ensures { (start result ≤ place) × (among blocks place ≡ among (result ∷ []) place) }
{
    if place < 0x010000 {
        Block::Control
    } else if place < 0x020000 {
        Block::WindowEntries
    } else if place < 0x030000 {
        Block::ColourMap
    } else if place < 0x040000 {
        Block::GammaMap
    } else if place < 0x041000 {
        Block::CursorGlyph
    } else {
        Block::CursorColours
    }
}

// Of a value the bits that control word `word` keeps.
#[tactic(auto, using(crate::proofs::Kept::kept_switches, crate::proofs::Kept::kept_size, crate::proofs::Kept::kept_pair))]
fn kept_of_control(word: u32, value: u32) -> u32
    ensures { result ≡ kept_of_control word value }
{
    match word {
        0 => words::field(value, 4, 0),
        7 => words::field(value, 26, 16) * 65536 + words::field(value, 10, 0),
        _ => words::field(value, 27, 16) * 65536 + words::field(value, 11, 0),
    }
}

impl Register {
    // The register that an address names, if it names one.
    #[tactic(auto, using(crate::proofs::Naming::named_unaligned, crate::proofs::Naming::named_within, crate::proofs::Naming::named_past))]
    pub fn at(address: u32) -> Option<Self>
        ensures { result ≡ named address }
    {
        let place = place(address);
        if place % 4 != 0 {
            return None;
        }
        let block = block_before(place);
        let word = (place - block.start()) / 4;
        if word < block.count() {
            Some(Self { block, word })
        } else {
            None
        }
    }

    // Of a value the bits that the register keeps.
    pub fn kept(self, value: u32) -> u32
        ensures { result ≡ kept_of self value }
    {
        match self.block.row().kept {
            KeptBits::ByField => kept_of_control(self.word, value),
            KeptBits::Lowest(width) => words::bits(value, 0, width),
        }
    }

    // Whether a value has no bits but those that the register keeps.
    #[tactic(auto, unfolding(crate::specs::Kept::fits))]
    pub fn fits(self, value: u32) -> bool
        ensures { result ≡ fits self value }
    {
        self.kept(value) == value
    }

    // Where the register stands in the store; the registers of a block that is not in it stand nowhere.
    pub fn store_place(self) -> Option<usize>
        ensures { result ≡ store_place self }
    {
        if self.block.row().stored {
            Some(self.block.store_start() + self.word as usize)
        } else {
            None
        }
    }

    // Whether it can only be read: control words 9 and 10.
    pub fn read_only(self) -> bool
        ensures { result ≡ read_only self }
    {
        matches!(self.block, Block::Control) && FIRST_READ_ONLY <= self.word
    }

    // Whether a write to it waits.
    pub fn waits(self) -> bool
        ensures { result ≡ waits self }
    {
        self.block.row().waits
    }
}
