//! Words of the store.
ghost use Rattle.std.specs.Prelude.{◌≡◌, length, nat_lt, slice_get, slice_set};
ghost use Rattle.std.specs.Bool.{OnTrue, OnFalse};
ghost use Rattle.bk_machine.specs.Kept.{words_in};

/// The words of a store, of which the first are kept; the others are 0.
#[derive(Clone, Copy)]
pub struct Words<'a> {
    pub kept: &'a [u32],
    /// How many the store has.
    pub count: u32,
}

impl Words<'_> {
    /// The word at an address, if the store has one.
    #[inline(always)]
    pub fn at(self, address: u32) -> Option<u32>
        ensures { result ≡ slice_get (words_in self.entry) address }
    {
        match word_at(self.kept, address) {
            None if address < self.count => Some(0),
            word => word,
        }
    }
}

/// The word at an address, if the store has one.
#[inline(always)]
pub fn word_at(store: &[u32], address: u32) -> Option<u32>
    ensures { result ≡ slice_get store.now address }
{
    store.get(address as usize).copied()
}

/// Sets the word at an address, if the store has one.
#[inline(always)]
pub fn set_word(store: &mut [u32], address: u32, word: u32) -> bool
    ensures found { result ≡ nat_lt address (length store.old) }
    ensures set { OnTrue result (store.new ≡ slice_set store.old address word) }
    ensures kept { OnFalse result (store.new ≡ store.old) }
{
    let place = address as usize;
    if place < store.len() {
        store[place] = word;
        true
    } else {
        false
    }
}
