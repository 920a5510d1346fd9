//! Taking words from a device.
ghost use Rattle.std.specs.Prelude.{◌≡◌, ◌≢◌, ℕ, ℤ, pos, FitsSigned, ◌+◌, ◌^◌, ◌<◌, ◌≤◌, false, IsTrue, List, [], ◌∷◌, ◌++◌, length, Option, Some, None, Ok, IfSome, IfNone, IfOk, if◌then◌else◌, OnOk, OnErr, IsErr};
ghost use Rattle.std.specs.Io.KnownBytes.{Consumes, Keeps};
ghost use Rattle.std.specs.Int.{w32};
ghost use Rattle.bk_base.specs.Decimal.{spelling};
ghost use Rattle.bk_base.specs.Devices.{byte_list};
ghost use Rattle.bk_words.specs.TextEnd.{AtEnd};
ghost use Rattle.bk_words.specs.Words.{is_blank, AreBlank, AreInWord};
ghost use Rattle.bk_words.specs.Gathering.{Holds, IsAfterWord, BeginsWord, IsNextWord};

use crate::numbers::{number, within};
use crate::word_buffer::{SIZE, WordBuffer};
use bk_base::limit::INPUT_BYTES;
use bk_base::{ByteIn, Failed};

/// Whether a byte is a blank.
fn is_blank_byte(byte: u8) -> bool
    ensures { result ≡ is_blank byte }
{
    byte == b' ' || byte == b'\t' || byte == b'\n' || byte == 12 || byte == b'\r'
}

/// The next byte. After so many bytes as one call reads the text's end is taken to be there.
fn next_byte<I: ByteIn>(input: &mut I, taken: &mut u64) -> Result<Option<u8>, Failed>
    requires { 0 < taken.old → I.faults input.old ≡ 0 }
    ensures gives { IfOk result (λ byte. Consumes (I.left input.old) (I.left input.new) (byte_list byte)) }
    ensures count { IfOk result (λ byte. taken.new ≡ taken.old + length (byte_list byte)) }
    ensures end { IfOk result (λ byte. byte ≡ None → AtEnd (I.ended input.new) taken.new) }
    ensures within { taken.new ≤ INPUT_BYTES }
    ensures clear { OnOk result (I.faults input.new ≡ 0) }
    ensures failed { OnErr result (I.faults input.new ≡ 1) }
    ensures kept { OnErr result (Keeps (I.left input.old) (I.left input.new) × (taken.new ≡ taken.old) × (taken.new < INPUT_BYTES)) }
    ensures failed_again { I.faults input.old ≡ 1 → IsErr result × Keeps (I.left input.old) (I.left input.new) }
    ensures ended_again { IsTrue (I.ended input.old) → (result ≡ Ok None) × IsTrue (I.ended input.new) }
    ensures ended_there { IsTrue (I.ended input.old) → taken.new ≡ taken.old }
{
    if *taken == INPUT_BYTES {
        return Ok(None);
    }
    let byte = input.next()?;
    if byte.is_some() {
        *taken += 1;
    }
    Ok(byte)
}

/// Takes blanks, and the byte after them.
fn first_byte<I: ByteIn>(input: &mut I, taken: &mut u64) -> Result<Option<u8>, Failed>
    requires { 0 < taken.old → I.faults input.old ≡ 0 }
    ensures gives { IfOk result (λ byte. (blanks : List ℕ) × AreBlank blanks
        × Consumes (I.left input.old) (I.left input.new) (blanks ++ byte_list byte)
        × (taken.new ≡ taken.old + length (blanks ++ byte_list byte))) }
    ensures word { IfOk result (λ byte. IfSome byte (λ b. is_blank b ≡ false)) }
    ensures end { IfOk result (λ byte. byte ≡ None → AtEnd (I.ended input.new) taken.new) }
    ensures within { OnOk result (taken.new ≤ INPUT_BYTES) }
    ensures clear { OnOk result (I.faults input.new ≡ 0) }
    ensures failed { OnErr result (I.faults input.new ≡ 1) }
    ensures stops { OnErr result ((blanks : List ℕ) × AreBlank blanks × Consumes (I.left input.old) (I.left input.new) blanks
        × (taken.new ≡ taken.old + length blanks) × (taken.new < INPUT_BYTES)) }
    ensures failed_again { I.faults input.old ≡ 1 → IsErr result × Keeps (I.left input.old) (I.left input.new) }
    ensures ended_again { IsTrue (I.ended input.old) → (result ≡ Ok None) × IsTrue (I.ended input.new) }
    ensures ended_there { IsTrue (I.ended input.old) → taken.new ≡ taken.old }
{
    loop {
        let byte = next_byte(input, taken)?;
        match byte {
            Some(b) if is_blank_byte(b) => {}
            _ => return Ok(byte),
        }
    }
}

/// A word, of which the first bytes are held.
#[derive(Drop)]
pub struct Gathered {
    word: WordBuffer,
    long: bool,
    last: bool,
}

impl Gathered {
    /// No word yet.
    pub fn new() -> Gathered
        ensures { Holds result [] }
    {
        Gathered {
            word: WordBuffer::new(),
            long: false,
            last: false,
        }
    }

    /// Its bytes, unless there are more than `SIZE`.
    pub fn bytes(&self) -> Option<&[u8]>
        ensures short { IfSome result (λ bytes. (word : List ℕ) → Holds self.now word → bytes.now ≡ word) }
        ensures long { IfNone result ((word : List ℕ) → Holds self.now word → SIZE < length word) }
    {
        if self.long {
            None
        } else {
            Some(self.word.as_bytes())
        }
    }

    /// Its first byte.
    pub fn first(&self) -> Option<u8>
        ensures { (first : ℕ) (rest : List ℕ) → Holds self.now (first ∷ rest) → result ≡ Some first }
    {
        self.word.as_bytes().first().copied()
    }

    /// The number of 32 bits that it spells.
    pub fn number(&self) -> Option<i32>
        ensures found { IfSome result (λ z. FitsSigned w32 z × ((word : List ℕ) → Holds self.now word → spelling z ≡ word)) }
        ensures none { IfNone result ((word : List ℕ) → Holds self.now word → (z : ℤ) → FitsSigned w32 z → spelling z ≢ word) }
    {
        number(self.bytes()?)
    }

    /// The number in these bounds that it spells.
    pub fn within(&self, least: u32, most: u32) -> Option<u32>
        requires { most < 2 ^ 31 }
        ensures found { IfSome result (λ n. (least ≤ n) × (n ≤ most) × ((word : List ℕ) → Holds self.now word → spelling (pos n) ≡ word)) }
        ensures none { IfNone result ((word : List ℕ) → Holds self.now word → (n : ℕ) → least ≤ n → n ≤ most → spelling (pos n) ≢ word) }
    {
        within(self.bytes()?, least, most)
    }

    /// The number in these bounds that it spells after a mark.
    pub fn marked(&self, mark: u8, least: u32, most: u32) -> Option<u32>
        requires { most < 2 ^ 31 }
        ensures found { IfSome result (λ n. (least ≤ n) × (n ≤ most) × ((word : List ℕ) → Holds self.now word → mark ∷ spelling (pos n) ≡ word)) }
        ensures none { IfNone result ((word : List ℕ) → Holds self.now word → (n : ℕ) → least ≤ n → n ≤ most → mark ∷ spelling (pos n) ≢ word) }
    {
        let bytes = self.bytes()?;
        match bytes {
            [first, rest @ ..] if *first == mark => within(rest, least, most),
            _ => None,
        }
    }

    /// Whether the text ended right after it.
    pub fn is_last(&self) -> bool
        ensures { result ≡ self.now.last }
    {
        self.last
    }
}

/// Takes a word whose first byte was taken, and the blank after it if there is one.
fn rest_of_word<I: ByteIn>(
    first: u8,
    held: &mut Gathered,
    input: &mut I,
    taken: &mut u64,
) -> Result<(), Failed>
    requires { I.faults input.old ≡ 0 }
    ensures gives { OnOk result ((rest following : List ℕ) × AreInWord rest × Holds held.new (first ∷ rest)
        × IsAfterWord following held.new.last (AtEnd (I.ended input.new) taken.new)
        × Consumes (I.left input.old) (I.left input.new) (rest ++ following)
        × (taken.new ≡ taken.old + length (rest ++ following))) }
    ensures within { OnOk result (taken.new ≤ INPUT_BYTES) }
    ensures clear { OnOk result (I.faults input.new ≡ 0) }
    ensures failed { OnErr result (I.faults input.new ≡ 1) }
    ensures stops { OnErr result ((rest : List ℕ) × AreInWord rest × Consumes (I.left input.old) (I.left input.new) rest
        × (taken.new ≡ taken.old + length rest) × (taken.new < INPUT_BYTES)) }
{
    held.word.clear();
    held.word.push(first);
    held.long = false;
    held.last = false;
    loop {
        let Some(byte) = next_byte(input, taken)? else {
            held.last = true;
            return Ok(());
        };
        if is_blank_byte(byte) {
            return Ok(());
        }
        if held.word.len() < SIZE {
            held.word.push(byte);
        } else {
            held.long = true;
        }
    }
}

/// Takes the word that a device gives next into `held`, and says whether there is one, as `next_word` does.
pub fn take_word<I: ByteIn>(
    held: &mut Gathered,
    input: &mut I,
    taken: &mut u64,
) -> Result<bool, Failed>
    requires { 0 < taken.old → I.faults input.old ≡ 0 }
    ensures gives { IfOk result (λ found. (given : List ℕ) × Consumes (I.left input.old) (I.left input.new) given
        × (taken.new ≡ taken.old + length given) × IsNextWord (if found then Some held.new else None) given (AtEnd (I.ended input.new) taken.new)) }
    ensures within { OnOk result (taken.new ≤ INPUT_BYTES) }
    ensures clear { OnOk result (I.faults input.new ≡ 0) }
    ensures failed { OnErr result (I.faults input.new ≡ 1) }
    ensures stops { OnErr result ((given : List ℕ) × Consumes (I.left input.old) (I.left input.new) given
        × (taken.new ≡ taken.old + length given) × (taken.new < INPUT_BYTES) × BeginsWord given) }
    ensures failed_again { I.faults input.old ≡ 1 → IsErr result × Keeps (I.left input.old) (I.left input.new) }
    ensures ended_again { IsTrue (I.ended input.old) → (result ≡ Ok false) × IsTrue (I.ended input.new) }
    ensures ended_there { IsTrue (I.ended input.old) → taken.new ≡ taken.old }
{
    let Some(first) = first_byte(input, taken)? else {
        return Ok(false);
    };
    rest_of_word(first, held, input, taken)?;
    Ok(true)
}

/// The word that a device gives next, or None where only blanks are left. It takes the blanks before the word, the word,
/// and the blank after it if there is one. `taken` counts the bytes that a call above took so far.
pub fn next_word<I: ByteIn>(input: &mut I, taken: &mut u64) -> Result<Option<Gathered>, Failed>
    requires { 0 < taken.old → I.faults input.old ≡ 0 }
    ensures gives { IfOk result (λ found. (given : List ℕ) × Consumes (I.left input.old) (I.left input.new) given
        × (taken.new ≡ taken.old + length given) × IsNextWord found given (AtEnd (I.ended input.new) taken.new)) }
    ensures within { OnOk result (taken.new ≤ INPUT_BYTES) }
    ensures clear { OnOk result (I.faults input.new ≡ 0) }
    ensures failed { OnErr result (I.faults input.new ≡ 1) }
    // Where the device failed, blanks were taken and the first bytes of a word, if any.
    ensures stops { OnErr result ((given : List ℕ) × Consumes (I.left input.old) (I.left input.new) given
        × (taken.new ≡ taken.old + length given) × (taken.new < INPUT_BYTES) × BeginsWord given) }
    ensures failed_again { I.faults input.old ≡ 1 → IsErr result × Keeps (I.left input.old) (I.left input.new) }
    ensures ended_again { IsTrue (I.ended input.old) → (result ≡ Ok None) × IsTrue (I.ended input.new) }
    ensures ended_there { IsTrue (I.ended input.old) → taken.new ≡ taken.old }
{
    let mut held = Gathered::new();
    if take_word(&mut held, input, taken)? {
        Ok(Some(held))
    } else {
        Ok(None)
    }
}
