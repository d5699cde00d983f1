// The desk program: reads the option book `book.bin` and the choices on standard input, and prints what the order gives. All that is
// decided is decided by `desk_session::session`, which is proved to give every byte; here the bytes are only read and written. No more
// than 65,536 of either are read: the rest cannot change what is printed (`desk_session`: `Buffers.desk_cut`). Where choices are typed at
// a terminal, standard error has a word on how, and why a line was refused; where they are piped, nothing is written there.
#![tactic(auto)]

ghost use Rattle.std.specs.Prelude.{◌≤◌, length};
ghost use Rattle.std.specs.Counts.{IsPrefixLen};

use std::fs::File;
use std::io;
use std::io::{IsTerminal, Read};
use std::rt::Files;

// The most that is read of the book, or of the input.
const MOST_READ: usize = 65536;

// Reads until the buffer is full, the bytes end or a read fails, and answers how many stand at the start of the buffer.
fn read_full<R: Read>(from: &mut R, buf: &mut [u8]) -> usize
    ensures { IsPrefixLen result buf.new }
{
    let mut done = 0;
    // Each turn goes on by as many bytes as were read.
    while done < buf.len() {
        let Ok(n) = from.read(&mut buf[done..]) else {
            return done;
        };
        if n == 0 {
            return done;
        }
        done += n;
    }
    done
}

// The bytes of the book, as many as the buffer takes; none where it cannot be opened or read.
fn read_book<F: Files>(files: &F, buf: &mut [u8]) -> usize
    ensures { IsPrefixLen result buf.new }
{
    match File::open(files, "book.bin") {
        Ok(mut file) => read_full(&mut file, buf),
        Err(_) => 0,
    }
}

// What to type, and how to end; and that there is no book, where nothing could be read of it.
fn say_how<E: Eprint>(words: &E, book: &[u8]) -> io::Result<()> {
    if book.is_empty() {
        eprintln!(words; "book.bin cannot be read, or is empty.")?;
    }
    eprintln!(words;
        "Choices, one a line: +CODE takes an option, -CODE bars it. End with Ctrl-D on a line of its own."
    )
}

// Where the line that begins at a place ends.
fn line_end(input: &[u8], from: usize) -> usize
    requires { from ≤ length input.now }
    ensures { (from ≤ result)
        × (result ≤ length input.now) }
{
    for at in from..input.len() {
        if input[at] == b'\n' {
            return at;
        }
    }
    input.len()
}

// What the program prints for this input is a refusal: no other output begins with an r.
fn is_refused(book: &[u8], input: &[u8]) -> bool {
    let mut out = [0u8; 16384];
    desk_session::session(book, input, &mut out);
    out[0] == b'r'
}

// A line of the input: its number from 1, and where it stands.
#[derive(Clone, Copy)]
struct Line {
    number: u64,
    from: usize,
    to: usize,
}

// The first line that is refused: with it, its end too, the input is refused, and not before. (The last line may lack its end.)
fn refused_line(book: &[u8], input: &[u8]) -> Line
    ensures { (result.from ≤ result.to)
        × (result.to ≤ length input.now) }
{
    let mut number = 1;
    let mut from = 0;
    let mut to = line_end(input, 0);
    // Each turn goes on by a line.
    while to < input.len() {
        let next = to + 1;
        if is_refused(book, &input[..next]) {
            return Line { number, from, to };
        }
        number += 1;
        from = next;
        to = line_end(input, from);
    }
    Line { number, from, to }
}

// A byte that was typed. One that a terminal would act on, or that is no text, is said by its number behind a backslash.
fn say_byte<E: Eprint>(words: &E, byte: u8) -> io::Result<()> {
    if byte < 32 || byte > 126 {
        eprint!(words; "\\{byte}")
    } else {
        let shown = char::from(byte);
        eprint!(words; "{shown}")
    }
}

// A line that was typed, byte by byte.
fn say_typed<E: Eprint>(words: &E, line: &[u8]) -> io::Result<()> {
    for byte in line {
        say_byte(words, *byte)?;
    }
    Ok(())
}

// The words for a refusal of a line by its last digit: 7, 8 or 14.
fn say_line<E: Eprint>(words: &E, book: &[u8], input: &[u8], digit: u8) -> io::Result<()> {
    let Line { number, from, to } = refused_line(book, input);
    eprint!(words; "Line {number}, \"")?;
    say_typed(words, &input[from..to])?;
    if digit == b'7' {
        eprintln!(words; "\", is not + or - and a code of this book.")
    } else if digit == b'8' {
        eprintln!(words; "\", finds the sheet full.")
    } else {
        eprintln!(words; "\", is one too many: an order has at most 64 lines.")
    }
}

// The words for a refusal by its digits, of which the second is a line end where there is but one: of a book (1 to 6), or of a line.
fn say_why<E: Eprint>(
    words: &E,
    book: &[u8],
    input: &[u8],
    first: u8,
    second: u8,
) -> io::Result<()> {
    if second != 10 {
        say_line(words, book, input, second)
    } else if first < b'7' {
        eprintln!(words; "book.bin is no book that can be used; tools/book check says why.")
    } else {
        say_line(words, book, input, first)
    }
}

// Where what is printed cannot be written, that is said, and the status is 1. A word that cannot be written is left out.
fn main(rt: HostRuntime) -> io::Result<()> {
    let typed = rt.stdin().is_terminal();
    let mut book = [0u8; MOST_READ];
    let n = read_book(&rt, &mut book);
    if typed {
        let _ = say_how(&rt, &book[..n]);
    }
    let mut input = [0u8; MOST_READ];
    let m = read_full(&mut rt.stdin(), &mut input);
    let mut out = [0u8; 16384];
    let k = desk_session::session(&book[..n], &input[..m], &mut out);
    rt.write_all(&out[..k])?;
    if typed && out[0] == b'r' {
        let _ = say_why(&rt, &book[..n], &input[..m], out[8], out[9]);
    }
    Ok(())
}
