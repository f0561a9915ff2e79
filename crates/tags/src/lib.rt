// Tag lines, `[Name "value"]`, and the tags of a file.

#![tactic(auto)]

ghost use Rattle.std.specs.Prelude.{◌≡◌};
ghost use Rattle.std.specs.Option.{option_map};
ghost use Rattle.std.specs.Str.{bytes_eq};
ghost use Rattle.lines.specs.Lines.{lines};
ghost use Rattle.lines.specs.Walks.{seen};
ghost use Rattle.tags.specs.Tags.{behind, is_name_byte, tag_of, well_formed};
ghost use Rattle.tags.specs.Searches.{tags_checked, found_in, named, only};
ghost use Rattle.tags.specs.Views.{told, found, founds};

use faults::Fault;
use lines::{Line, Lines};
use runs::{AllBut, Alphabet, run_length};

const LONGEST_NAME: usize = 31;

// A tag's name and its value.
#[derive(Clone, Copy)]
pub struct Tag<'a> {
    pub name: &'a [u8],
    pub value: &'a [u8],
}

// The bytes that can stand in a name: letters, digits and underscores.
struct NameBytes;

impl Alphabet for NameBytes {
    ghost admits = { is_name_byte };

    fn contains(byte: u8) -> bool {
        matches!(byte, b'A'..=b'Z' | b'a'..=b'z' | b'0'..=b'9' | b'_')
    }
}

// What follows a mark that the text begins with.
fn behind<'a>(mark: &[u8], text: &'a [u8]) -> Option<&'a [u8]>
    ensures rest { option_map (λ x. x.now) result ≡ behind mark.now text.now }
{
    text.strip_prefix(mark)
}

// The tag that a line holds, if it is formed as a tag line.
pub fn parse_tag<'a>(line: &'a [u8]) -> Option<Tag<'a>>
    ensures tag { told result ≡ tag_of line.now }
{
    let inner = behind(b"[", line)?;
    let (name, rest) = inner.split_at(run_length::<NameBytes>(inner));
    let quoted = behind(b" \"", rest)?;
    let (value, rest) = quoted.split_at(run_length::<AllBut<b'"'>>(quoted));
    let end = behind(b"\"]", rest)?;
    if name.is_empty() || name.len() > LONGEST_NAME || !end.is_empty() {
        return None;
    }
    Some(Tag { name, value })
}

// Is the line a tag line, if its first byte is `[`?
fn is_well_formed(text: &[u8]) -> bool
    ensures formed { result ≡ well_formed text.now }
{
    behind(b"[", text).is_none() || parse_tag(text).is_some()
}

// The first question of layer 2: is every line that `[` opens a tag line?
pub fn check_tags(file: &[u8]) -> Result<(), Fault>
    ensures answer { result ≡ tags_checked (lines 0 file.now) }
{
    for line in Lines::of(file) {
        if !is_well_formed(line.text) {
            return Err(Fault::MalformedTag { line: line.start });
        }
    }
    Ok(())
}

// A tag that was looked for: where its line starts, and its value.
#[derive(Clone, Copy)]
pub struct Found<'a> {
    pub line: usize,
    pub value: &'a [u8],
}

// Are two texts the same, byte for byte? It is part of what this crate offers; the crates here write `==`.
pub fn is_same(name: &[u8], other: &[u8]) -> bool
    ensures same { result ≡ bytes_eq name.now other.now }
{
    name == other
}

// The tag that a line holds, if it has the name.
fn found_in<'a>(line: Line<'a>, name: &[u8]) -> Option<Found<'a>>
    ensures found { option_map found result ≡ found_in name.now (seen line.entry) }
{
    let tag = parse_tag(line.text)?;
    (tag.name == name).then_some(Found {
        line: line.start,
        value: tag.value,
    })
}

// The one tag of a name; the second question of layer 2 asks that there is just one.
pub fn find<'a>(file: &'a [u8], name: &[u8]) -> Result<Found<'a>, Fault>
    ensures answer { founds result ≡ only (named name.now (lines 0 file.now)) }
{
    let mut found = None;
    for line in Lines::of(file) {
        if let Some(tag) = found_in(line, name)
            && found.replace(tag).is_some()
        {
            return Err(Fault::TagNotOnce);
        }
    }
    found.ok_or(Fault::TagNotOnce)
}
