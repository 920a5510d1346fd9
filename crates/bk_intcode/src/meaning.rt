//! What a word of a text means.
ghost use Rattle.std.specs.Prelude.{◌≡◌, ◌≢◌, ℕ, pos, ◌+◌, ◌<◌, ◌≤◌, ◌^◌, false, IsTrue, List, [], ◌∷◌, ◌++◌, take, drop, length, slice_index, IfSome, IfNone, IfOk, IfErr};
ghost use Rattle.bk_base.specs.Decimal.{spelling};
ghost use Rattle.bk_machine.specs.Segment.{IsLabel};
ghost use Rattle.bk_intcode.specs.ItemText.{letter, indirect_text, operand_text};
ghost use Rattle.bk_machine.specs.Segment.{IsOperand};
ghost use Rattle.bk_intcode.specs.WordMeaning.{Means, MeansNothing, WordFault, is_digit, is_function, begins_item};

use bk_base::IntcodeKind;
use bk_base::limit::{FRAME_WORDS, FRAME_WORDS_LEAST, GLOBAL_NUMBER, INTCODE_LABEL};
use bk_machine::{Function, Item, Operand};
use bk_words::{natural, number, within};

/// The first byte, and those after it.
fn first_and_rest(bytes: &[u8]) -> Option<(u8, &[u8])>
    ensures some { IfSome result (λ p. bytes.now ≡ p.0 ∷ p.1.now) }
    ensures none { IfNone result (bytes.now ≡ []) }
{
    match bytes {
        [] => None,
        [first, rest @ ..] => Some((*first, rest)),
    }
}

/// The label whose number the bytes spell.
fn label(bytes: &[u8]) -> Option<u32>
    ensures found { IfSome result (λ n. IsLabel n × (spelling (pos n) ≡ bytes.now)) }
    ensures none { IfNone result ((n : ℕ) → IsLabel n → spelling (pos n) ≢ bytes.now) }
{
    within(bytes, 1, INTCODE_LABEL)
}

/// The operand that the bytes spell.
fn operand(bytes: &[u8]) -> Option<Operand>
    ensures found { IfSome result (λ o. IsOperand o × (operand_text o ≡ bytes.now)) }
    ensures none { IfNone result ((o : Operand) → IsOperand o → operand_text o ≢ bytes.now) }
{
    let (first, rest) = first_and_rest(bytes)?;
    match first {
        b'P' => Some(Operand::Local(number(rest)?)),
        b'G' => Some(Operand::Global(number(rest)?)),
        b'L' => Some(Operand::Label(label(rest)?)),
        _ => Some(Operand::Number(number(bytes)?)),
    }
}

/// The function whose letter this is.
fn function(byte: u8) -> Option<Function>
    ensures found { IfSome result (λ f. letter f ≡ byte) }
    ensures none { IfNone result (is_function byte ≡ false) }
{
    match byte {
        b'L' => Some(Function::Load),
        b'S' => Some(Function::Store),
        b'A' => Some(Function::Add),
        b'J' => Some(Function::Jump),
        b'T' => Some(Function::JumpTrue),
        b'F' => Some(Function::JumpFalse),
        b'K' => Some(Function::Call),
        b'X' => Some(Function::Operate),
        _ => None,
    }
}

/// Whether the bytes begin with `I`, and the bytes after that.
fn indirection(bytes: &[u8]) -> (bool, &[u8])
    ensures split { bytes.now ≡ indirect_text result.0 ++ result.1.now }
    ensures direct { result.0 ≡ false → (more : List ℕ) → result.1.now ≢ 73 ∷ more }
{
    match first_and_rest(bytes) {
        Some((b'I', rest)) => (true, rest),
        _ => (false, bytes),
    }
}

/// The instruction whose word is the letter of the function and these bytes.
fn instruction(function: Function, bytes: &[u8]) -> Option<Item>
    ensures found { IfSome result (Means (letter function ∷ bytes.now)) }
    ensures none { IfNone result (MeansNothing (letter function ∷ bytes.now)) }
{
    let (indirect, rest) = indirection(bytes);
    let operand = operand(rest)?;
    Some(Item::Instruction {
        function,
        indirect,
        operand,
    })
}

/// The label that a word sets.
fn set_label(word: &[u8]) -> Option<Item>
    requires { IsTrue (is_digit (slice_index word.now 0)) }
    ensures found { IfSome result (Means word.now) }
    ensures none { IfNone result (MeansNothing word.now) }
{
    Some(Item::SetLabel(label(word)?))
}

/// The byte whose word is `C` and these bytes.
fn byte(bytes: &[u8]) -> Result<Item, IntcodeKind>
    ensures item { IfOk result (Means (67 ∷ bytes.now)) }
    ensures fault { IfErr result (WordFault (67 ∷ bytes.now)) }
{
    let Some(n) = natural(bytes) else {
        return Err(IntcodeKind::BadNumber);
    };
    if n > 255 {
        return Err(IntcodeKind::ByteOver255);
    }
    Ok(Item::Byte(n as u8))
}

/// The bytes after an `L`.
fn after_mark(bytes: &[u8]) -> Option<&[u8]>
    ensures some { IfSome result (λ rest. bytes.now ≡ 76 ∷ rest.now) }
    ensures none { IfNone result ((more : List ℕ) → bytes.now ≢ 76 ∷ more) }
{
    match first_and_rest(bytes) {
        Some((b'L', rest)) => Some(rest),
        _ => None,
    }
}

/// The item whose word is `D` and these bytes.
fn data(bytes: &[u8]) -> Option<Item>
    ensures found { IfSome result (Means (68 ∷ bytes.now)) }
    ensures none { IfNone result (MeansNothing (68 ∷ bytes.now)) }
{
    match after_mark(bytes) {
        Some(rest) => Some(Item::LabelWord(label(rest)?)),
        None => Some(Item::Word(number(bytes)?)),
    }
}

/// The place of the first `L`.
fn label_place(bytes: &[u8]) -> Option<usize>
    ensures found { IfSome result (λ i. (i < length bytes.now) × (slice_index bytes.now i ≡ 76)
        × ((k : ℕ) → k < i → slice_index bytes.now k ≢ 76)) }
    ensures none { IfNone result ((k : ℕ) → k < length bytes.now → slice_index bytes.now k ≢ 76) }
{
    for (i, byte) in bytes.iter().enumerate() {
        if *byte == b'L' {
            return Some(i);
        }
    }
    None
}

/// The item whose word is `G` and these bytes.
fn set_global(bytes: &[u8]) -> Option<Item>
    ensures found { IfSome result (Means (71 ∷ bytes.now)) }
    ensures none { IfNone result (MeansNothing (71 ∷ bytes.now)) }
{
    let place = label_place(bytes)?;
    let number = within(&bytes[..place], 0, GLOBAL_NUMBER)?;
    let label = label(&bytes[place + 1..])?;
    Some(Item::SetGlobal { number, label })
}

/// The item whose word is `Q` and these bytes.
fn frame(bytes: &[u8]) -> Option<Item>
    ensures found { IfSome result (Means (81 ∷ bytes.now)) }
    ensures none { IfNone result (MeansNothing (81 ∷ bytes.now)) }
{
    Some(Item::Frame(within(bytes, FRAME_WORDS_LEAST, FRAME_WORDS)?))
}

/// The item whose word is `Z` and these bytes.
fn end(bytes: &[u8]) -> Option<Item>
    ensures found { IfSome result (Means (90 ∷ bytes.now)) }
    ensures none { IfNone result (MeansNothing (90 ∷ bytes.now)) }
{
    if bytes.is_empty() {
        Some(Item::End)
    } else {
        None
    }
}

/// Whether an item begins with this byte.
pub fn begins(byte: u8) -> bool
    ensures { result ≡ begins_item byte }
{
    byte.is_ascii_digit()
        || function(byte).is_some()
        || byte == b'C'
        || byte == b'D'
        || byte == b'G'
        || byte == b'Q'
        || byte == b'Z'
}

/// The item that a word means, if it begins as one does and is no byte.
fn item_of(word: &[u8]) -> Option<Item>
    requires begins { IsTrue (begins_item (slice_index word.now 0)) }
    requires no_byte { slice_index word.now 0 ≢ 67 }
    ensures found { IfSome result (Means word.now) }
    ensures none { IfNone result (MeansNothing word.now) }
{
    let (first, rest) = first_and_rest(word)?;
    if first.is_ascii_digit() {
        return set_label(word);
    }
    match first {
        b'D' => data(rest),
        b'G' => set_global(rest),
        b'Q' => frame(rest),
        b'Z' => end(rest),
        _ => instruction(function(first)?, rest),
    }
}

/// What a word means: the item that it means, or its fault.
pub fn meaning_of(word: &[u8]) -> Result<Item, IntcodeKind>
    ensures item { IfOk result (Means word.now) }
    ensures fault { IfErr result (WordFault word.now) }
{
    let Some((first, rest)) = first_and_rest(word) else {
        return Err(IntcodeKind::BadLetter);
    };
    if !begins(first) {
        return Err(IntcodeKind::BadLetter);
    }
    if first == b'C' {
        return byte(rest);
    }
    item_of(word).ok_or(IntcodeKind::BadNumber)
}
