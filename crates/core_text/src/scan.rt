//! What stands at a place of bytes that end with LF. After any other byte there is one more, so that no length is compared on the way.
ghost use Rattle.std.specs.Prelude.{◌≡◌, ◌≢◌, ◌<◌, ◌≤◌, ◌^◌, ◌++◌, ◌∷◌, ◌↔◌, codes, decimal, drop, length, IfSome, IsTrue};
ghost use Rattle.core_text.specs.Parts.{EndsLine};
ghost use Rattle.usuba0.specs.CoreText.{register_text};

use usuba0::Reg;

/// Whether the bytes end with LF.
pub(crate) fn ends_line(bytes: &[u8]) -> bool
    ensures { IsTrue result ↔ EndsLine bytes.now }
{
    match bytes {
        [.., last] => *last == b'\n',
        _ => false,
    }
}

/// The place after this byte.
pub(crate) fn after(byte: u8, bytes: &[u8], at: usize) -> Option<usize>
    requires ends { EndsLine bytes.now }
    requires at { at < length bytes.now }
    requires inner { byte ≢ 10 }
    ensures text { IfSome result (λ end. drop at bytes.now ≡ byte ∷ drop end bytes.now) }
    ensures within { IfSome result (λ end. end < length bytes.now) }
{
    if bytes[at] == byte {
        Some(at + 1)
    } else {
        None
    }
}

/// An earlier register that ends a line, and the place of the next line.
pub(crate) fn last_register(next: u64, bytes: &[u8], at: usize) -> Option<(Reg, usize)>
    requires ends { EndsLine bytes.now }
    requires at { at < length bytes.now }
    ensures text { IfSome result (λ read. drop at bytes.now ≡ register_text read.0.0 ++ (codes "\n" ++ drop read.1 bytes.now)) }
    ensures within { IfSome result (λ read. read.1 ≤ length bytes.now) }
    ensures earlier { IfSome result (λ read. read.0.0 < next) }
{
    let (register, end) = earlier_register(next, bytes, at)?;
    if bytes[end] == b'\n' {
        Some((register, end + 1))
    } else {
        None
    }
}

/// An earlier register, and the place after it.
pub(crate) fn earlier_register(next: u64, bytes: &[u8], at: usize) -> Option<(Reg, usize)>
    requires ends { EndsLine bytes.now }
    requires at { at < length bytes.now }
    ensures text { IfSome result (λ read. drop at bytes.now ≡ register_text read.0.0 ++ drop read.1 bytes.now) }
    ensures within { IfSome result (λ read. read.1 < length bytes.now) }
    ensures earlier { IfSome result (λ read. read.0.0 < next) }
{
    match register(bytes, at)? {
        (Reg(number), end) if u64::from(number) < next => Some((Reg(number), end)),
        _ => None,
    }
}

/// A register, and the place after it.
pub(crate) fn register(bytes: &[u8], at: usize) -> Option<(Reg, usize)>
    requires ends { EndsLine bytes.now }
    requires at { at < length bytes.now }
    ensures text { IfSome result (λ read. drop at bytes.now ≡ register_text read.0.0 ++ drop read.1 bytes.now) }
    ensures within { IfSome result (λ read. read.1 < length bytes.now) }
{
    let digits = after(b'r', bytes, at)?;
    let (number, end) = number_at(bytes, digits)?;
    Some((Reg(number), end))
}

// A number below 2^28, and the place after it.
fn number_at(bytes: &[u8], at: usize) -> Option<(u32, usize)>
    requires ends { EndsLine bytes.now }
    requires at { at < length bytes.now }
    ensures text { IfSome result (λ read. drop at bytes.now ≡ decimal read.0 ++ drop read.1 bytes.now) }
    ensures within { IfSome result (λ read. read.1 < length bytes.now) }
{
    let first = bytes[at];
    if first == b'0' {
        Some((0, at + 1))
    } else if first.is_ascii_digit() {
        with_digits(u32::from(first - b'0'), bytes, at + 1)
    } else {
        None
    }
}

// The number of some digits and of those at a place, and the place after these.
fn with_digits(value: u32, bytes: &[u8], at: usize) -> Option<(u32, usize)>
    requires ends { EndsLine bytes.now }
    requires at { at < length bytes.now }
    requires some { 0 < value }
    requires small { value < 2 ^ 28 }
    ensures text { IfSome result (λ read. decimal value ++ drop at bytes.now ≡ decimal read.0 ++ drop read.1 bytes.now) }
    ensures within { IfSome result (λ read. read.1 < length bytes.now) }
{
    let mut value = value;
    let mut end = at;
    while bytes[end].is_ascii_digit() {
        value = value * 10 + u32::from(bytes[end] - b'0');
        if value >= 1 << 28 {
            return None;
        }
        end += 1;
    }
    Some((value, end))
}
