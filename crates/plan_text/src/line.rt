ghost use Rattle.std.specs.Prelude.{◌≡◌, ◌≢◌, ◌∷◌, ◌≤◌, ◌<◌, [], length, not, take_while};
ghost use Rattle.plan_text.specs.Bytes.{front_length};
ghost use Rattle.plan_text.specs.Lines.{lines, content, without_return, is_in_line, is_before_comment};

// How many bytes stand before the line feed.
fn line_length(text: &[u8]) -> usize
    ensures value { result ≡ front_length is_in_line text.now }
    ensures within { result ≤ length text.now }
{
    text.iter().take_while(|byte| **byte != b'\n').count()
}

/// A line of a text.
pub struct Line<'t> {
    /// Its bytes, without a line feed and a carriage return before it.
    pub bytes: &'t [u8],
    /// The text behind it.
    pub behind: &'t [u8],
}

fn without_return(line: &[u8]) -> &[u8]
    ensures { result.now ≡ without_return line.now }
{
    match line.split_last() {
        Some((last, front)) if *last == b'\r' => front,
        _ => line,
    }
}

/// The first line of a text.
pub fn first_line(text: &[u8]) -> Line<'_>
    requires { text.now ≢ [] }
    ensures lines { lines text.now ≡ result.bytes.now ∷ lines result.behind.now }
    ensures behind { length result.behind.now < length text.now }
{
    let (bytes, rest) = text.split_at(line_length(text));
    match rest.split_first() {
        None => Line {
            bytes,
            behind: rest,
        },
        Some((_, behind)) => Line {
            bytes: without_return(bytes),
            behind,
        },
    }
}

fn content_length(line: &[u8]) -> usize
    ensures value { result ≡ length (take_while is_before_comment line.now) }
    ensures within { result ≤ length line.now }
{
    line.iter().take_while(|byte| **byte != b';').count()
}

/// A line without its comment.
pub fn content(line: &[u8]) -> &[u8]
    ensures { result.now ≡ content line.now }
{
    &line[..content_length(line)]
}
