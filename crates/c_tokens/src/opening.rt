//! The first six lines of a C file.

ghost use Rattle.std.specs.Prelude.{◌≡◌, ◌≤◌, length};
ghost use Rattle.c_tokens.specs.Openings as openings;

/// What a C file begins with.
#[derive(Debug, Clone, Copy, PartialEq, Eq, Drop)]
pub enum Opening {
    /// The six lines, of so many bytes, with a type `reg` of so many bits.
    Lines { bits: u32, length: usize },
    /// So many bytes of the six lines, and not the next.
    Wrong(usize),
}

// How many bytes of one text are those of another.
fn alike(bytes: &[u8], text: &[u8]) -> usize
    ensures { result ≡ openings.alike bytes.now text.now }
{
    let mut n = 0;
    while n < bytes.len() && n < text.len() && bytes[n] == text[n] {
        n += 1;
    }
    n
}

// The six lines with a type of so many bits.
fn lines_of(bits: u32) -> &'static [u8]
    requires { openings.IsRegBits bits }
    ensures { result.now ≡ openings.lines_of bits }
{
    match bits {
        8 => b"#include <stdint.h>\n#ifndef D\n#define D 2\n#endif\n\
              typedef uint8_t reg;\nuint64_t tornado_random(void);\n",
        16 => b"#include <stdint.h>\n#ifndef D\n#define D 2\n#endif\n\
              typedef uint16_t reg;\nuint64_t tornado_random(void);\n",
        32 => b"#include <stdint.h>\n#ifndef D\n#define D 2\n#endif\n\
              typedef uint32_t reg;\nuint64_t tornado_random(void);\n",
        _ => b"#include <stdint.h>\n#ifndef D\n#define D 2\n#endif\n\
              typedef uint64_t reg;\nuint64_t tornado_random(void);\n",
    }
}

// The opening with a type of so many bits, or what the bytes have of it.
fn opening_with(bytes: &[u8], bits: u32) -> Opening
    requires { openings.IsRegBits bits }
    ensures { result ≡ openings.opening_with bytes.now bits }
{
    let lines = lines_of(bits);
    let length = alike(bytes, lines);
    if length == lines.len() {
        Opening::Lines { bits, length }
    } else {
        Opening::Wrong(length)
    }
}

// The one of two openings that goes further.
fn further(a: Opening, b: Opening) -> Opening
    ensures { result ≡ openings.further a b }
{
    match (a, b) {
        (Opening::Wrong(n), Opening::Wrong(m)) => Opening::Wrong(n.max(m)),
        (Opening::Wrong(_), Opening::Lines { .. }) => b,
        _ => a,
    }
}

/// The first six lines, or where the first byte stands that is wrong in them.
pub fn opening_of(bytes: &[u8]) -> Opening
    ensures { result ≡ openings.opening_of bytes.now }
{
    let short = further(opening_with(bytes, 8), opening_with(bytes, 16));
    let long = further(opening_with(bytes, 32), opening_with(bytes, 64));
    further(short, long)
}
