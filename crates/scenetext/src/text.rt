//! Lines of a text.

ghost use Rattle.std.specs.Prelude.{◌≡◌, ◌+◌, ◌<◌, ◌≤◌, ◌==◌, ◌∷◌, ◌^◌, [], ℕ, count_by, length, take, drop, true, false, IfSome, IfNone, IfOk, IfErr, Err};
ghost use Rattle.scenetext.specs.Text.{is_printable};
ghost use Rattle.scenetext.specs.Reading.{HasForm, AddsForm, CutsLine, BadForm};

use crate::fault::{Fault, ReadError};

/// How many bytes are looked at together.
const BLOCK: usize = 32;

/// A line that has its form, without its line feed.
#[derive(Clone, Copy)]
pub struct FormedLine<'a> {
    pub(crate) bytes: &'a [u8],
    pub(crate) spaces: usize,
    ghost counted: { spaces ≡ count_by (λ b. b == 32) bytes.now },
}

/// What the first bytes of a line say of its form.
#[derive(Clone, Copy)]
pub struct FrontForm {
    /// Whether the last of them is a byte of a word.
    in_word: bool,
    /// Whether each space stands behind a word.
    separates: bool,
    spaces: usize,
}

/// The form of some bytes with one more behind them.
fn with_byte(form: FrontForm, byte: u8) -> FrontForm
    requires printable { is_printable byte ≡ true }
    requires room { form.spaces < 2 ^ 63 }
    ensures { AddsForm (byte ∷ []) form result }
{
    let is_space = byte == b' ';
    FrontForm {
        in_word: !is_space,
        separates: form.separates & (form.in_word | !is_space),
        spaces: form.spaces + usize::from(is_space),
    }
}

/// The form of some bytes with a block behind them, if each of its bytes may stand in a line.
///
/// No byte is branched on, so that vector instructions do this.
fn with_block(form: FrontForm, block: &[u8; BLOCK]) -> Option<FrontForm>
    requires { form.spaces < 2 ^ 63 }
    ensures { IfSome result (AddsForm block.now form) }
{
    let mut printable = true;
    let mut in_word = form.in_word;
    let mut separates = form.separates;
    let mut spaces = 0u8;
    for byte in block {
        let is_space = *byte == b' ';
        printable &= (b' ' <= *byte) & (*byte <= b'~');
        separates &= in_word | !is_space;
        in_word = !is_space;
        spaces += u8::from(is_space);
    }
    if !printable {
        return None;
    }
    Some(FrontForm {
        in_word,
        separates,
        spaces: form.spaces + usize::from(spaces),
    })
}

/// The form of the blocks at the front of a text that stand before the end of its first line, and how many bytes these are.
fn front_blocks(text: &[u8]) -> (FrontForm, usize)
    ensures within { result.1 ≤ length text.now }
    ensures form { HasForm false (take result.1 text.now) result.0 }
{
    let mut form = FrontForm {
        in_word: false,
        separates: true,
        spaces: 0,
    };
    let mut count = 0;
    let mut rest = text;
    while let Some((block, behind)) = rest.split_first_chunk::<BLOCK>() {
        let Some(longer) = with_block(form, block) else {
            break;
        };
        form = longer;
        count += BLOCK;
        rest = behind;
    }
    (form, count)
}

/// The end of the first line of a text and how many spaces the line has, if it has its form.
fn formed_end(text: &[u8]) -> Option<(usize, usize)>
    requires { 0 < length text.now }
    ensures some { IfSome result (λ found. (found.0 < length text.now) × CutsLine text.now (take found.0 text.now) (drop (found.0 + 1) text.now)) }
    ensures spaces { IfSome result (λ found. found.1 ≡ count_by (λ b. b == 32) (take found.0 text.now)) }
    ensures none { IfNone result (BadForm text.now) }
{
    let (mut form, start) = front_blocks(text);
    for i in start..text.len() {
        let byte = text[i];
        if byte < b' ' || b'~' < byte {
            let formed = form.in_word & form.separates;
            return if byte == b'\n' && formed {
                Some((i, form.spaces))
            } else {
                None
            };
        }
        form = with_byte(form, byte);
    }
    None
}

/// The first line of a text, and what stands behind it.
pub(crate) fn cut_line(text: &[u8]) -> Result<(FormedLine, &[u8]), ReadError>
    requires { 0 < length text.now }
    ensures ok { IfOk result (λ cut. CutsLine text.now cut.0.bytes.now cut.1.now) }
    ensures err { IfErr result (λ e. (e ≡ ReadError.Fault Fault.LineForm) × BadForm text.now) }
{
    match formed_end(text) {
        Some((end, spaces)) => Ok((
            FormedLine {
                bytes: &text[..end],
                spaces,
            },
            &text[end + 1..],
        )),
        None => Err(ReadError::Fault(Fault::LineForm)),
    }
}
