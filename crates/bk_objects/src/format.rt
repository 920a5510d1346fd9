//! The parts of a format.
ghost use Rattle.std.specs.Prelude.{◌≡◌, ◌*◌};
ghost use Rattle.bk_base.specs.Format as f;
ghost use Rattle.bk_objects.specs.Texts.{part_in};

/// A part of a format.
#[derive(Clone, Copy, Debug, PartialEq, Eq)]
pub enum Part {
    /// A byte that means itself.
    Byte(u8),
    /// `%%`
    Percent,
    /// `%S`
    String,
    /// `%N`
    Number,
    /// `%C`
    Character,
    /// `%I` and a width from 0 to 9.
    Column(u8),
}

/// A letter in upper case.
fn capital(byte: u8) -> u8
    ensures { result ≡ f.capital byte }
{
    if 97 <= byte && byte <= 122 {
        byte - 32
    } else {
        byte
    }
}

/// Whether a byte is a digit.
fn is_digit(byte: u8) -> bool
    ensures { result ≡ f.is_digit byte }
{
    48 <= byte && byte <= 57
}

/// The part that `%I` and the bytes after it begin.
fn column(following: &[u8]) -> Part
    ensures { part_in result ≡ f.column_or_percent following.now }
{
    match following {
        [digit, ..] if is_digit(*digit) => Part::Column(*digit - 48),
        _ => Part::Byte(b'%'),
    }
}

/// The part that `%` and the bytes after it begin.
fn directive(following: &[u8]) -> Part
    ensures { part_in result ≡ f.directive following.now }
{
    let [letter, rest @ ..] = following else {
        return Part::Byte(b'%');
    };
    match capital(*letter) {
        b'S' => Part::String,
        b'N' => Part::Number,
        b'C' => Part::Character,
        b'I' => column(rest),
        _ if *letter == b'%' => Part::Percent,
        _ => Part::Byte(b'%'),
    }
}

/// The part that a byte and the bytes after it begin.
pub fn part_at(byte: u8, following: &[u8]) -> Part
    ensures { part_in result ≡ f.part_at byte following.now }
{
    if byte == b'%' {
        directive(following)
    } else {
        Part::Byte(byte)
    }
}

/// How many bytes of a format belong to a part besides its first.
pub fn further(part: Part) -> usize
    ensures { result ≡ f.further (part_in part) }
{
    match part {
        Part::Byte(_) => 0,
        Part::Percent | Part::String | Part::Number | Part::Character => 1,
        Part::Column(_) => 2,
    }
}
