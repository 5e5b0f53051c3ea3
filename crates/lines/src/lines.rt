// The input's size, and its lines.
ghost use Rattle.std.specs.Prelude.{◌≡◌, ◌≤◌, ltb, length};
ghost use Rattle.laws.specs.Stretch.{stretch};
ghost use Rattle.lines.specs.Lines.{is_in_line, next_line_of};

// Whether the input has more than the 65,536 bytes that are read.
pub fn too_long(input: &[u8]) -> bool
    ensures { result ≡ ltb 65536 (length input.now) }
{
    input.len() > 65536
}

// A line stands from `start` up to `end`; the one after it is looked for from `next` on.
#[derive(Clone, Copy)]
pub struct Line {
    pub start: usize,
    pub end: usize,
    pub next: usize,
}

// How many bytes stand before the first line feed, or the end.
fn line_len(text: &[u8]) -> usize
    ensures { (result ≡ stretch is_in_line text.now) × (result ≤ length text.now) }
{
    text.iter().position(|&b| b == 10).unwrap_or(text.len())
}

// The line that starts at `at`. An empty rest at the end of the input is no line.
pub fn next_line(input: &[u8], at: usize) -> Option<Line>
    ensures { result ≡ next_line_of input.now at }
{
    if at >= input.len() {
        return None;
    }
    let end = at + line_len(&input[at..]);
    Some(Line {
        start: at,
        end,
        next: end + 1,
    })
}
