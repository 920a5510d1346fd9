//! Values, and the cells that hold them.

/// A routine of the library.
#[derive(Clone, Copy, Debug, PartialEq, Eq)]
pub enum Routine {
    /// `STOP(status)` ends the program.
    Stop,
    /// `RDCH()` reads a byte.
    Rdch,
    /// `WRCH(byte)` writes a byte.
    Wrch,
    /// `NEWLINE()` writes the end of a line.
    Newline,
    /// `WRITES(string)` writes a string.
    Writes,
    /// `WRITEN(number)` writes a number.
    Writen,
    /// `WRITED(number, width)` writes a number in a width.
    Writed,
    /// `GETBYTE(string, i)` gives byte `i`.
    Getbyte,
    /// `PUTBYTE(string, i, byte)` sets byte `i`.
    Putbyte,
    /// `WRITEF(format, arguments)` writes a format with its arguments.
    Writef,
}

/// Where a value that was never set comes from.
#[derive(Clone, Copy, Debug, PartialEq, Eq)]
pub enum Origin {
    /// A word of a vector or a global to which nothing was assigned.
    Never,
    /// `?` on this line.
    Query(u32),
    /// A `VALOF` on this line, in the procedure with this number, which ended without `RESULTIS`.
    Valof(u32, u32),
    /// A call on this line of the procedure with this number, whose body is a command.
    Body(u32, u32),
    /// A call of a routine of the library that gives nothing.
    Library(Routine),
    /// An argument that is missing.
    Argument,
}

/// A value: what an expression gives.
#[derive(Clone, Copy, Debug)]
pub enum Worth {
    /// A number, as a word.
    Number(u32),
    /// The distance from the first cell of an object, as a word, and the number of the object.
    Address(u32, u64),
    /// A procedure of the program, by its number.
    Procedure(u64),
    /// A routine of the library.
    Routine(Routine),
    /// The value of `?`, and of whatever else gives nothing.
    Unset(Origin),
}

/// A cell: a word of memory.
#[derive(Clone, Copy, Debug)]
pub enum Cell {
    /// It holds a value.
    Holds(Worth),
    /// It has four bytes, the lowest first, of which not all are set.
    Places(Option<u8>, Option<u8>, Option<u8>, Option<u8>),
}

/// Where a value goes.
#[derive(Clone, Copy, Debug)]
pub enum Location {
    /// The cell at this address.
    Cell(Worth),
    /// A byte of the words from an address on: the address, and the byte's number.
    Byte(Worth, Worth),
}
