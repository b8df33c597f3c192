//! Texts as they are shown, so that no byte of theirs disturbs the layout.
ghost use Rattle.std.specs.Prelude.{◌≡◌, ◌<◌, ◌≤◌, ◌+◌, ◌++◌, length, take, vec_len, All, Ok, OnOk};
ghost use Rattle.std.specs.Prelude.{OnErr, IfOk, IsOk};
ghost use Rattle.std.specs.List.{prefix_len};
ghost use Rattle.std.specs.Vec.{vec_capacity, VecUnchanged};
ghost use Rattle.anystr.specs.Texts.{bytes_of};
ghost use Rattle.sheets.specs.Apart.{IsApart};
ghost use Rattle.sheets.specs.Escapes.{unescaped};
ghost use Rattle.sheets.specs.Shown.{hex, is_plain, shown_byte, shown_element, shown};

use searchers::ascii::AsciiStr;
use std::alloc::AllocError;

pub(crate) const DIGIT: u8 = 16;

// A hexadecimal digit, as a byte: what the library has gives an optional `char`.
fn hex_digit(n: u8) -> u8
    requires { n < 16 }
    ensures { result ≡ hex n }
{
    match n {
        0..=9 => b'0' + n,
        _ => b'a' - 10 + n,
    }
}

// Whether a byte is shown as itself.
fn is_plain(b: u8) -> bool
    ensures { result ≡ is_plain b }
{
    matches!(b, b' '..=b'~') && b != b'\\'
}

// Adds a byte that is an element by itself.
fn add_byte(out: &mut Vec<u8>, b: u8) -> Result<(), AllocError>
    ensures ok { OnOk result (out.new.items ≡ out.old.items ++ shown_byte b) }
    ensures err { OnErr result (VecUnchanged out.old out.new) }
    ensures room { vec_len out.old + length (shown_byte b) ≤ vec_capacity out.old → IsOk result }
    ensures capacity { vec_capacity out.old ≤ vec_capacity out.new }
{
    match b {
        b'\t' => out.extend_from_slice(b"\\t"),
        b'\n' => out.extend_from_slice(b"\\n"),
        b'\r' => out.extend_from_slice(b"\\r"),
        b'\\' => out.extend_from_slice(b"\\\\"),
        _ if is_plain(b) => out.extend_from_slice(&[b]),
        _ => out.extend_from_slice(&[b'\\', b'x', hex_digit(b / DIGIT), hex_digit(b % DIGIT)]),
    }
}

// Adds an element: a character beyond ASCII as it is.
fn add_element(out: &mut Vec<u8>, element: &[u8]) -> Result<(), AllocError>
    ensures ok { OnOk result (out.new.items ≡ out.old.items ++ shown_element element.now) }
    ensures err { OnErr result (VecUnchanged out.old out.new) }
    ensures room { vec_len out.old + length (shown_element element.now)
        ≤ vec_capacity out.old → IsOk result }
    ensures capacity { vec_capacity out.old ≤ vec_capacity out.new }
{
    match element {
        [b] => add_byte(out, *b),
        _ => out.extend_from_slice(element),
    }
}

// How many bytes at the front are shown as themselves.
fn run_len(bytes: &[u8]) -> usize
    ensures { result ≡ prefix_len is_plain bytes.now }
{
    bytes.iter().take_while(|b| is_plain(**b)).count()
}

// Adds the bytes at the front that are shown as themselves, and gives their number.
fn add_run(out: &mut Vec<u8>, bytes: &[u8]) -> Result<usize, AllocError>
    ensures ok { IfOk result (λ n. (n ≡ prefix_len is_plain bytes.now)
        × (out.new.items ≡ out.old.items ++ take n bytes.now)) }
    ensures err { OnErr result (VecUnchanged out.old out.new) }
    ensures room { vec_len out.old + prefix_len is_plain bytes.now ≤ vec_capacity out.old
        → IsOk result }
    ensures capacity { vec_capacity out.old ≤ vec_capacity out.new }
{
    let n = run_len(bytes);
    out.extend_from_slice(&bytes[..n])?;
    Ok(n)
}

/// Appends a text as it is shown: a tab as `\t`, a line feed as `\n`, a carriage return as `\r`, a
/// backslash as `\\`, a character beyond ASCII as it is, and any other byte that is not printable
/// ASCII as `\x` with two hexadecimal digits. `read_escapes` reads the text back.
///
/// Refused only where memory runs out, and never where `out` has room for what is appended. After
/// a refusal `out` holds what it held.
pub fn add_text<S: AsciiStr>(out: &mut Vec<u8>, text: &S) -> Result<(), AllocError>
    ensures ok { OnOk result (out.new.items ≡ out.old.items ++ shown (S.elements text.now)) }
    ensures err { OnErr result (VecUnchanged out.old out.new) }
    ensures room { vec_len out.old + length (shown (S.elements text.now))
        ≤ vec_capacity out.old → IsOk result }
    // so room that is made for several texts is still there for the later ones
    ensures capacity { vec_capacity out.old ≤ vec_capacity out.new }
    ensures law { unescaped (shown (S.elements text.now)) ≡ Ok (bytes_of S.AnyStr text.now) }
{
    text.ascii_apart();
    let bytes = text.as_bytes();
    let before = out.len();
    let added = add_elements(out, text, bytes);
    if added.is_err() {
        out.truncate(before);
    }
    added
}

// The same, with the bytes of the text; after a refusal `out` has more than it held behind that.
fn add_elements<S: AsciiStr>(out: &mut Vec<u8>, text: &S, bytes: &[u8]) -> Result<(), AllocError>
    requires bytes { bytes.now ≡ bytes_of S.AnyStr text.now }
    requires apart { All IsApart (S.elements text.now) }
    ensures ok { OnOk result (out.new.items ≡ out.old.items ++ shown (S.elements text.now)) }
    ensures err { OnErr result (take (vec_len out.old) out.new.items ≡ out.old.items) }
    ensures room { vec_len out.old + length (shown (S.elements text.now))
        ≤ vec_capacity out.old → IsOk result }
    ensures capacity { vec_capacity out.old ≤ vec_capacity out.new }
    ensures law { unescaped (shown (S.elements text.now)) ≡ Ok (bytes_of S.AnyStr text.now) }
{
    // The interface of texts has no iterator over elements, only the element at an offset. What is
    // shown as it is goes behind an element at once.
    let mut start = 0;
    while let Some((_, len)) = text.element_at(start) {
        let end = start + len;
        let after = &bytes[end..];
        add_element(out, &bytes[start..end])?;
        start = end + add_run(out, after)?;
    }
    Ok(())
}
