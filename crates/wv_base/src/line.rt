//! The line that tells a broken rule.
ghost use Rattle.std.specs.Prelude.{◌≡◌, ℕ, ◌<◌, ◌≤◌, List, ◌++◌, take, decimal};
ghost use Rattle.std.specs.Fmt.{is_char_start};
ghost use Rattle.std.specs.Fmt.Cut.{floor_char_boundary};
ghost use Rattle.wv_base.specs.Line.{shown_byte, member_text, index_text, place_text, refusal_text, refusal, kept_length, shown, Shows};

use crate::broken::{Broken, Place};
use crate::text::Text;
use itoa::Buffer;

/// How many bytes a line has at most, its line feed included.
pub const LINE: usize = 4096;

fn shown_of(byte: u8) -> u8
    ensures { result ≡ shown_byte byte }
{
    if byte < 32 || byte == 127 { b'?' } else { byte }
}

/// Puts bytes behind the first `len`, as far as there is room, and returns how many stand there.
fn put(out: &mut [u8; LINE], len: usize, more: &[u8]) -> usize
    requires { len ≤ 4096 }
    ensures text { (text : List ℕ) → Shows out.old len text → Shows out.new result (text ++ more.now) }
    ensures within { result ≤ 4096 }
{
    let count = more.len().min(LINE - len);
    for (i, byte) in more[..count].iter().enumerate() {
        out[len + i] = shown_of(*byte);
    }
    len + count
}

fn put_number(out: &mut [u8; LINE], len: usize, number: u32) -> usize
    requires { len ≤ 4096 }
    ensures text { (text : List ℕ) → Shows out.old len text → Shows out.new result (text ++ decimal number) }
    ensures within { result ≤ 4096 }
{
    let mut buffer = Buffer::new();
    put(out, len, buffer.format(number).as_bytes())
}

fn put_member(out: &mut [u8; LINE], len: usize, member: &Option<Text>) -> usize
    requires { len ≤ 4096 }
    ensures text { (text : List ℕ) → Shows out.old len text → Shows out.new result (text ++ member_text member.now) }
    ensures within { result ≤ 4096 }
{
    match member {
        None => len,
        Some(member) => {
            let len = put(out, len, b":");
            put(out, len, member.as_bytes())
        }
    }
}

fn put_index(out: &mut [u8; LINE], len: usize, index: Option<u32>) -> usize
    requires { len ≤ 4096 }
    ensures text { (text : List ℕ) → Shows out.old len text → Shows out.new result (text ++ index_text index) }
    ensures within { result ≤ 4096 }
{
    match index {
        None => len,
        Some(index) => {
            let len = put(out, len, b"@");
            put_number(out, len, index)
        }
    }
}

fn put_place(out: &mut [u8; LINE], len: usize, place: &Place) -> usize
    requires { len ≤ 4096 }
    ensures text { (text : List ℕ) → Shows out.old len text → Shows out.new result (text ++ place_text place.now) }
    ensures within { result ≤ 4096 }
{
    let len = put(out, len, place.file.as_bytes());
    let len = put_member(out, len, &place.member);
    put_index(out, len, place.index)
}

fn put_refusal(out: &mut [u8; LINE], broken: &Broken) -> usize
    ensures text { Shows out.new result (refusal_text broken.now) }
    ensures within { result ≤ 4096 }
{
    let len = put(out, 0, b"refused: rule ");
    let len = put_number(out, len, broken.rule.number() as u32);
    let len = put(out, len, b" ");
    let len = put(out, len, broken.rule.name().as_bytes());
    let len = put(out, len, b" at ");
    let len = put_place(out, len, &broken.place);
    let len = put(out, len, b" wanted ");
    let len = put(out, len, broken.wanted.as_bytes());
    let len = put(out, len, b" found ");
    put(out, len, broken.found.as_bytes())
}

fn starts_character(byte: u8) -> bool
    ensures { result ≡ is_char_start byte }
{
    byte < 0x80 || byte >= 0xc0
}

/// The last place of a full line at which a character begins.
fn last_start(out: &[u8; LINE]) -> usize
    ensures start { result ≡ floor_char_boundary out.now 4095 }
    ensures within { result ≤ 4095 }
{
    let mut place = LINE - 1;
    while place > 0 && !starts_character(out[place]) {
        place -= 1;
    }
    place
}

/// How much of the text that a buffer shows is kept in its line.
fn kept_of(out: &[u8; LINE], len: usize) -> usize
    requires { len ≤ 4096 }
    ensures kept { (text : List ℕ) → Shows out.now len text → result ≡ kept_length (shown text) }
    ensures within { result ≤ 4095 }
    ensures front { result ≤ len }
{
    if len < LINE { len } else { last_start(out) }
}

/// Writes the line that tells a broken rule, and returns its length, its line feed included. Control
/// characters print as `?`. A line of more than 4,095 bytes is cut to the longest whole characters
/// within them.
pub fn write_broken(broken: &Broken, out: &mut [u8; LINE]) -> usize
    ensures line { take result out.new ≡ refusal broken.now }
    ensures some { 0 < result }
    ensures within { result ≤ 4096 }
{
    let len = put_refusal(out, broken);
    let kept = kept_of(out, len);
    out[kept] = b'\n';
    kept + 1
}

#[cfg(test)]
mod tests {
    use super::*;
    use crate::rule::Rule;
    use std::alloc::Global;
    use std::test::Fail;

    /// A refusal at a path of so many letters `a`, with a character of three bytes behind them.
    fn refusal_at(alloc: Global, letters: usize) -> Result<Broken, Fail> {
        let mut path = String::new(alloc);
        for _ in 0..letters {
            path.push('a')?;
        }
        path.push('\u{20ac}')?;
        Ok(Broken::at_file(alloc, Rule::OutOfForm, path.as_str())?)
    }

    #[test]
    fn a_line_tells_rule_and_place(rt: HostRuntime) -> Result<(), Fail> {
        let alloc = rt.alloc();
        let broken = Broken {
            rule: Rule::ConstructorSpot,
            place: Place {
                file: Text::from_str(alloc, "a\n\u{7f}.class")?,
                member: Some(Text::from_str(alloc, "f()V")?),
                index: Some(12),
            },
            wanted: Text::from_str(alloc, "-")?,
            found: Text::from_str(alloc, "b")?,
        };
        let mut out = [0; LINE];
        let length = write_broken(&broken, &mut out);
        let line = b"refused: rule 69 ConstructorSpot at a??.class:f()V@12 wanted - found b\n";
        assert_eq!(rt; &out[..length], line.as_slice());
        Ok(())
    }

    /// All but the letters takes 49 bytes, so that 4,046 letters make a line of 4,095 bytes. The
    /// character of three bytes begins at byte 29 + `letters`.
    #[test]
    fn a_long_line_is_cut_to_whole_characters(rt: HostRuntime) -> Result<(), Fail> {
        let alloc = rt.alloc();
        let mut out = [0; LINE];
        let rows = [
            (4046, 4096, b'-'),
            (4047, 4096, b' '),
            (4063, 4096, 0xac),
            (4064, 4094, b'a'),
            (4065, 4095, b'a'),
            (4066, 4096, b'a'),
        ];
        for (letters, want, last) in rows {
            let length = write_broken(&refusal_at(alloc, letters)?, &mut out);
            assert_eq!(rt; length, want, "{letters} letters");
            assert!(rt; 2 <= length && length <= LINE);
            assert_eq!(rt; out[length - 2], last, "{letters} letters");
            assert_eq!(rt; out[length - 1], b'\n');
        }
        Ok(())
    }
}
