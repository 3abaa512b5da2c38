// The program's input: n on the first line, then a line for each change.
#![tactic(auto)]

ghost use Rattle.std.specs.Prelude.{◌≡◌, [], ◌∷◌, ◌+◌, ◌*◌, ◌≤◌, ◌<◌, ◌≢◌, EachIndex, MatchOption, false, length, slice_index, true};
ghost use Rattle.std.specs.Int.{from_bool};
ghost use Rattle.model.specs.Graph.{max_updates};
ghost use Rattle.model.specs.Updates.{update_numbers};
ghost use Rattle.model.specs.Program.{edge_line, first_line, input_of, line_of, lines_from, mark_line, pieces, refused_at};
ghost use Rattle.buffers.specs.Wrote.{Wrote};
ghost use Rattle.text.specs.Grammar.{IsFirst, ParsedAs, SplitAt, is_digit, line_in, number_of, numbers_of, shape};

use rows::Graph;

// Longer input is refused.
pub const INPUT_BYTES: usize = 65536;

// Input that is refused, at a line; at line 0 for its length.
#[derive(Clone, Copy, Debug, PartialEq, Eq)]
pub struct Refused {
    pub line: usize,
}

// Input that is accepted: n, and how many changes the batch holds.
#[derive(Clone, Copy)]
pub struct Accepted {
    pub n: usize,
    pub count: usize,
}

// What a line after the first asks for.
#[derive(Clone, Copy)]
enum Change {
    Edge { u: u16, v: u16, wanted: bool },
    Mark { u: u16, wanted: bool },
}

impl Change {
    // As the numbers of an update.
    fn numbers(self) -> [u16; Graph::UPDATE_NUMBERS]
        ensures { result ≡ numbers_of self }
    {
        match self {
            Change::Edge { u, v, wanted } => [1, u, v, u16::from(wanted)],
            Change::Mark { u, wanted } => [2, u, 0, u16::from(wanted)],
        }
    }
}

// Where the first separator stands.
fn find(s: &[u8], separator: u8) -> Option<usize>
    ensures { MatchOption result (EachIndex s.now (λ k. slice_index s.now k ≢ separator)) (λ i. IsFirst separator s.now i) }
{
    s.iter().position(|b| *b == separator)
}

// What stands before the first separator and what after it, if there is one.
fn split_once(s: &[u8], separator: u8) -> Option<(&[u8], &[u8])>
    ensures { MatchOption result (pieces separator s.now ≡ s.now ∷ []) (λ p. SplitAt separator s.now p.0.now p.1.now) }
{
    let end = find(s, separator)?;
    Some((&s[..end], &s[end + 1..]))
}

// A digit's worth.
fn digit(b: u8) -> Option<u16>
    ensures { MatchOption result (is_digit b ≡ false) (λ d. (is_digit b ≡ true) × (d + 0x30 ≡ b)) }
{
    match b {
        b'0'..=b'9' => Some(u16::from(b - b'0')),
        _ => None,
    }
}

// Whether s has 1 to 5 bytes and no zero leads more.
fn has_shape(s: &[u8]) -> bool
    ensures { result ≡ shape s.now }
{
    matches!(s.len(), 1..=5) && (s.len() == 1 || s[0] != b'0')
}

// The number that the whole of s is: 1 to 5 digits, no leading zero, at most 65,535.
fn read_number(s: &[u8]) -> Option<u16>
    ensures { result ≡ number_of s.now }
{
    if !has_shape(s) {
        return None;
    }
    let mut value = 0u16;
    for b in s {
        let d = digit(*b)?;
        value = value.checked_mul(10)?.checked_add(d)?;
    }
    Some(value)
}

// What follows the letter and its space in a line about an edge: two numbers.
fn edge_line(wanted: bool, s: &[u8]) -> Option<Change>
    ensures { line_in result ≡ edge_line (from_bool wanted) ([] ∷ pieces 0x20 s.now) }
{
    let (first, second) = split_once(s, b' ')?;
    let u = read_number(first)?;
    let v = read_number(second)?;
    Some(Change::Edge { u, v, wanted })
}

// What follows the letter and its space in a line about a mark: one number.
fn mark_line(wanted: bool, s: &[u8]) -> Option<Change>
    ensures { line_in result ≡ mark_line (from_bool wanted) ([] ∷ pieces 0x20 s.now) }
{
    let u = read_number(s)?;
    Some(Change::Mark { u, wanted })
}

// A line after the first, without its line feed.
fn read_line(s: &[u8]) -> Option<Change>
    ensures { line_in result ≡ line_of s.now }
{
    let (first, rest) = split_once(s, b' ')?;
    if first.len() != 1 {
        return None;
    }
    match first[0] {
        b't' => edge_line(true, rest),
        b'u' => edge_line(false, rest),
        b'w' => mark_line(true, rest),
        b'o' => mark_line(false, rest),
        _ => None,
    }
}

// A change into the batch, after `count` others.
fn put_change(batch: &mut [u16], count: usize, change: Change)
    requires { (count < max_updates) × (update_numbers * max_updates ≤ length batch.old) }
    ensures { Wrote batch.old (update_numbers * count) (numbers_of change) batch.new (update_numbers * (count + 1)) }
{
    let at = Graph::UPDATE_NUMBERS * count;
    batch[at..at + Graph::UPDATE_NUMBERS].copy_from_slice(&change.numbers());
}

// The lines after the first.
fn read_lines(lines: &[u8], n: usize, batch: &mut [u16]) -> Result<Accepted, Refused>
    requires { update_numbers * max_updates ≤ length batch.old }
    ensures { ParsedAs (lines_from n 2 (pieces 0x0A lines.now)) batch.old batch.new result }
{
    let mut rest = lines;
    let mut count = 0;
    while let Some((line, after)) = split_once(rest, b'\n') {
        let refused = Refused { line: count + 2 };
        if count == Graph::UPDATES {
            return Err(refused);
        }
        let change = read_line(line).ok_or(refused)?;
        put_change(batch, count, change);
        count += 1;
        rest = after;
    }
    if !rest.is_empty() {
        return Err(Refused { line: count + 2 });
    }
    Ok(Accepted { n, count })
}

// The first line's number, at most 512, and the lines after it.
fn read_first(input: &[u8]) -> Option<(usize, &[u8])>
    ensures { MatchOption result (first_line (pieces 0x0A input.now) ≡ refused_at 1) (λ p. first_line (pieces 0x0A input.now) ≡ lines_from p.0 2 (pieces 0x0A p.1.now)) }
{
    let (first, lines) = split_once(input, b'\n')?;
    let n = usize::from(read_number(first)?);
    if n > Graph::NODES {
        return None;
    }
    Some((n, lines))
}

// The program's whole input. Its changes go to the batch, four numbers for each, which has room for 4,096 of them.
// The batch stays lent numbers with a count beside them: memory is fixed.
pub fn parse(input: &[u8], batch: &mut [u16]) -> Result<Accepted, Refused>
    requires { update_numbers * max_updates ≤ length batch.old }
    ensures { ParsedAs (input_of input.now) batch.old batch.new result }
{
    if input.len() > INPUT_BYTES {
        return Err(Refused { line: 0 });
    }
    let (n, lines) = read_first(input).ok_or(Refused { line: 1 })?;
    read_lines(lines, n, batch)
}
