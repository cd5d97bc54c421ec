// Gamma over words that are drawn already: a few by the map itself, many by three tables, one for each channel, that are made of it first.
ghost use Rattle.std.specs.Prelude.{◌<◌, ◌≡◌, false};
ghost use Rattle.line_pixels.specs.Inner.{Corrected, gamma_red, gamma_green, gamma_blue, SplitBy, TablesFit, by_tables};

use crate::layers::through_gamma;
use crate::lengths::SPLIT_WORDS;
use crate::runs::{FourByFour, OneByOne, Stepping};
use chip_registers::{GAMMA_MAP_START, STORE_WORDS};

// The red of a gamma word, where it stands in a colour.
pub(crate) fn gamma_red(store: &[u32; STORE_WORDS], k: usize) -> u32
    requires { k < 256 }
    ensures { result ≡ gamma_red store.now k }
{
    store[GAMMA_MAP_START + k] / 65536 % 256 * 65536
}

// Its green.
pub(crate) fn gamma_green(store: &[u32; STORE_WORDS], k: usize) -> u32
    requires { k < 256 }
    ensures { result ≡ gamma_green store.now k }
{
    store[GAMMA_MAP_START + k] / 256 % 256 * 256
}

// Its blue.
pub(crate) fn gamma_blue(store: &[u32; STORE_WORDS], k: usize) -> u32
    requires { k < 256 }
    ensures { result ≡ gamma_blue store.now k }
{
    store[GAMMA_MAP_START + k] % 256
}

// The gamma map split into its channels, each where it stands in a colour.
#[derive(Drop)]
pub(crate) struct GammaTables {
    red: [u32; 256],
    green: [u32; 256],
    blue: [u32; 256],
    ghost fit: { TablesFit red green blue },
}

impl GammaTables {
    // The tables of the gamma map in a store.
    pub(crate) fn of(store: &[u32; STORE_WORDS]) -> Self
        ensures { SplitBy store.now result.red result.green result.blue }
    {
        let mut red = [0; 256];
        let mut green = [0; 256];
        let mut blue = [0; 256];
        OneByOne::fill(|k| gamma_red(store, k), &mut red);
        OneByOne::fill(|k| gamma_green(store, k), &mut green);
        OneByOne::fill(|k| gamma_blue(store, k), &mut blue);
        GammaTables { red, green, blue }
    }

    // A word through the three tables.
    pub(crate) fn through(&self, word: u32) -> u32
        ensures { result ≡ by_tables self.now.red self.now.green self.now.blue word }
    {
        self.red[(word / 65536 % 256) as usize]
            + self.green[(word / 256 % 256) as usize]
            + self.blue[(word % 256) as usize]
    }
}

// Words through gamma, each by the map.
fn correct_few(store: &[u32; STORE_WORDS], words: &mut [u32])
    ensures { Corrected store.now false words.old words.new }
{
    OneByOne::change(|_, word| through_gamma(store, false, word), words);
}

// Words through gamma, by three tables.
fn correct_many(store: &[u32; STORE_WORDS], words: &mut [u32])
    ensures { Corrected store.now false words.old words.new }
{
    let tables = GammaTables::of(store);
    FourByFour::change(|_, word| tables.through(word), words);
}

// Words through gamma, unless they bypass it.
pub(crate) fn correct(store: &[u32; STORE_WORDS], bypass: bool, words: &mut [u32])
    ensures { Corrected store.now bypass words.old words.new }
{
    if bypass {
        return;
    }
    if SPLIT_WORDS <= words.len() {
        correct_many(store, words);
    } else {
        correct_few(store, words);
    }
}
