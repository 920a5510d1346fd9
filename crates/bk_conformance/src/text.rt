//! The text of a field: its escapes replaced. conformance/README.md has them.
use std::alloc::{AllocError, Global};

/// What the next byte belongs to.
#[derive(Clone, Copy)]
enum State {
    Text,
    /// After a backslash.
    Escape,
    /// After `\x`.
    High,
    /// After `\x` and a digit of this value.
    Low(u8),
    /// After `\{` and digits of this value.
    Count(u32),
    /// After an escape that there is not.
    Wrong,
}

/// A text, as far as it was read.
#[derive(Drop)]
struct Text {
    bytes: Vec<u8>,
    state: State,
    /// How often the bytes from a place on are in the text, after `\{`.
    times: u32,
    from: usize,
}

/// The value of a hexadecimal digit.
fn digit(byte: u8) -> Option<u8> {
    match byte {
        b'0'..=b'9' => Some(byte - b'0'),
        b'a'..=b'f' => Some(byte - b'a' + 10),
        b'A'..=b'F' => Some(byte - b'A' + 10),
        _ => None,
    }
}

impl Text {
    /// Takes the end of a part that is several times: the part is there once.
    fn repeat(&mut self, alloc: Global) -> Result<(), AllocError> {
        let mut part = Vec::new(alloc);
        if let Some(bytes) = self.bytes.get(self.from..) {
            part.extend_from_slice(bytes)?;
        }
        for _ in 1..self.times {
            self.bytes.extend_from_slice(part.as_slice())?;
        }
        Ok(())
    }

    /// Takes the byte after a backslash.
    fn escape(&mut self, alloc: Global, byte: u8) -> Result<State, AllocError> {
        match byte {
            b'n' => self.bytes.push(b'\n')?,
            b't' => self.bytes.push(b'\t')?,
            b'r' => self.bytes.push(b'\r')?,
            b'f' => self.bytes.push(12)?,
            b'\\' => self.bytes.push(b'\\')?,
            b'\n' => {}
            b'}' => self.repeat(alloc)?,
            b'x' => return Ok(State::High),
            b'{' => return Ok(State::Count(0)),
            _ => return Ok(State::Wrong),
        }
        Ok(State::Text)
    }

    /// Takes a byte after `\{`: a digit, or the blank before the part.
    fn count(&mut self, count: u32, byte: u8) -> State {
        match byte {
            b'0'..=b'9' => State::Count(
                count
                    .saturating_mul(10)
                    .saturating_add(u32::from(byte - b'0')),
            ),
            b' ' => {
                self.times = count;
                self.from = self.bytes.len();
                State::Text
            }
            _ => State::Wrong,
        }
    }

    /// Takes the next byte.
    fn take(&mut self, alloc: Global, byte: u8) -> Result<(), AllocError> {
        self.state = match self.state {
            State::Text if byte == b'\\' => State::Escape,
            State::Text => {
                self.bytes.push(byte)?;
                State::Text
            }
            State::Escape => self.escape(alloc, byte)?,
            State::High => digit(byte).map_or(State::Wrong, State::Low),
            State::Low(high) => match digit(byte) {
                Some(low) => {
                    self.bytes.push((high % 16) * 16 + low % 16)?;
                    State::Text
                }
                None => State::Wrong,
            },
            State::Count(count) => self.count(count, byte),
            State::Wrong => State::Wrong,
        };
        Ok(())
    }
}

/// The bytes of a field, or `None` where an escape is none.
pub fn text_of(alloc: Global, raw: &str) -> Result<Option<Vec<u8>>, AllocError> {
    let mut text = Text {
        bytes: Vec::new(alloc),
        state: State::Text,
        times: 1,
        from: 0,
    };
    for byte in raw.as_bytes() {
        text.take(alloc, *byte)?;
    }
    Ok(if matches!(text.state, State::Text) {
        Some(text.bytes)
    } else {
        None
    })
}
