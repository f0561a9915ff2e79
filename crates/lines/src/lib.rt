// The lines of a file, and the questions put to each line.

#![tactic(auto)]

ghost use Rattle.std.specs.Prelude.{◌≡◌, ◌<◌, length, Some};
ghost use Rattle.lines.specs.Lines.{lines, printable};
ghost use Rattle.lines.specs.Checks.{line_checked, file_checked};
ghost use Rattle.lines.specs.Walks.{seen, step, told, line_from, line_at, Heads, lines_left};

use faults::Fault;

const LONGEST_FILE: usize = 65_535;

const LONGEST_LINE: usize = 255;

// A line without its end mark, where it starts, and where the next one does.
#[derive(Clone, Copy)]
pub struct Line<'a> {
    pub start: usize,
    pub text: &'a [u8],
    pub next: usize,
}

// The line that starts at an offset in the file.
fn line_at<'a>(file: &'a [u8], at: usize) -> Line<'a>
    requires { at < length file.now }
    ensures line { step result ≡ line_from at file.now }
    ensures heads { Heads (Some result) at file.now }
{
    let rest = &file[at..];
    let Some(length) = rest.iter().position(|byte| *byte == b'\n') else {
        return Line {
            start: at,
            text: rest,
            next: file.len(),
        };
    };
    let text = &rest[..length];
    Line {
        start: at,
        text: text.strip_suffix(b"\r").unwrap_or(text),
        next: at + length + 1,
    }
}

// The line that starts at an offset; none starts at the file's end or past it.
pub fn next_line<'a>(file: &'a [u8], at: usize) -> Option<Line<'a>>
    ensures line { told result ≡ line_at at file.now }
    ensures heads { Heads result at file.now }
{
    if at >= file.len() {
        return None;
    }
    Some(line_at(file, at))
}

// The lines of a file that are still to come.
#[derive(Clone, Drop)]
pub struct Lines<'a> {
    file: &'a [u8],
    at: usize,
}

impl<'a> Lines<'a> {
    // The lines of a file, from the first on.
    pub fn of(file: &'a [u8]) -> Self
        ensures lines { lines_left result ≡ lines 0 file.now }
    {
        Lines { file, at: 0 }
    }
}

impl<'a> Iterator for Lines<'a> {
    ghost use Rattle.std.specs.Iterator.{YieldsFirstBy, item_count};
    ghost use Rattle.lines.specs.Walks.{seen, lines_left};

    type Item = Line<'a>;

    ghost next_gives = { YieldsFirstBy seen lines_left };

    ghost remaining = { item_count lines_left };

    fn next(&mut self) -> Option<Line<'a>> {
        let line = next_line(self.file, self.at)?;
        self.at = line.next;
        Some(line)
    }
}

fn is_printable(text: &[u8]) -> bool
    ensures printable { result ≡ printable text.now }
{
    text.iter().all(|byte| (32..=126).contains(byte))
}

fn check_line(line: Line) -> Result<(), Fault>
    ensures answer { result ≡ line_checked (seen line.entry) }
{
    if line.text.len() > LONGEST_LINE {
        return Err(Fault::LineTooLong { line: line.start });
    }
    if !is_printable(line.text) {
        return Err(Fault::UnprintableByte { line: line.start });
    }
    Ok(())
}

// Layer 1 of the reader: the file's length, and then line by line its length and its bytes.
pub fn check_lines(file: &[u8]) -> Result<(), Fault>
    ensures answer { result ≡ file_checked file.now }
{
    if file.len() > LONGEST_FILE {
        return Err(Fault::FileTooLong);
    }
    for line in Lines::of(file) {
        check_line(line)?;
    }
    Ok(())
}
