//! The header of a graph file: how many vertices and edges there are, and what the line of a vertex holds.

ghost use Rattle.std.specs.Prelude.{◌≡◌, ◌≤◌, [], ◌∷◌, Some, None, OnOk, IfOk, IfErr, IfSome};
ghost use Rattle.std.specs.Option.{option_map};
ghost use Rattle.pg_base.specs.declared.TheConstants.{MAX_EDGES, MAX_VERTICES};
ghost use Rattle.pg_text.specs.Text.{number, words};
ghost use Rattle.pg_metis.specs.Fault.{count_fault};
ghost use Rattle.pg_metis.specs.File.{is_mark, marks_if, marks_of};

use crate::Kind;
use crate::numbers::number_of;
use pg_base::{MAX_EDGES, MAX_VERTICES};
use pg_text::words;

/// What the line of a vertex holds beside neighbours.
#[derive(Clone, Copy)]
pub(crate) struct Format {
    /// Whether it begins with the size of the vertex.
    pub sizes: bool,
    /// How many weights of the vertex stand before its neighbours.
    pub vertex_weights: u32,
    /// Whether each neighbour is followed by the weight of its edge.
    pub edge_weights: bool,
}

impl Format {
    ghost use Rattle.std.specs.Prelude.{option_and_then};
    ghost use Rattle.std.specs.Option.{option_or};
    ghost use Rattle.pg_metis.specs.File.{format_of, leading};
    ghost use Rattle.pg_metis.specs.Fault.{format_fault, number_fault};
    ghost use Rattle.pg_metis.specs.Headers.{format_in};

    /// The format that a header's digits and its number of weights for each vertex stand for.
    fn of_words(digits: &[u8], ncon: &[u8]) -> Result<Format, Kind>
        ensures ok { IfOk result (λ format. option_and_then (λ marks. option_map (format_of marks) (number ncon.now)) (marks_of digits.now) ≡ Some (format_in format)) }
        ensures faultless { OnOk result (option_or (format_fault digits.now) (number_fault ncon.now) ≡ None) }
        ensures refused { IfErr result (λ kind. option_or (format_fault digits.now) (number_fault ncon.now) ≡ Some kind) }
    {
        let Some(marks) = Marks::of_digits(digits) else {
            return Err(Kind::BadFormat);
        };
        let ncon = number_of(ncon)?;
        Ok(Format {
            sizes: marks.sizes,
            vertex_weights: if marks.vertices { ncon.max(1) } else { 0 },
            edge_weights: marks.edges,
        })
    }

    /// How many numbers stand before the neighbours of a vertex.
    pub fn leading(&self) -> u64
        ensures { result ≡ leading (format_in self.now) }
    {
        u64::from(self.sizes) + u64::from(self.vertex_weights)
    }
}

/// What the header of a graph file says.
#[derive(Clone, Copy)]
pub(crate) struct Header {
    /// The number of vertices.
    pub n: u32,
    /// The number of edges.
    pub m: u32,
    pub format: Format,
    ghost few_vertices: { n ≤ MAX_VERTICES },
    ghost few_edges: { m ≤ MAX_EDGES },
}

impl Header {
    ghost use Rattle.pg_metis.specs.File.{header_of};
    ghost use Rattle.pg_metis.specs.Fault.{header_fault};
    ghost use Rattle.pg_metis.specs.Headers.{header_in};

    /// The header that a line is. Answers its first fault where it is none.
    pub fn of_line(line: &[u8]) -> Result<Header, Kind>
        ensures ok { IfOk result (λ header. header_of (words line.now) ≡ Some (header_in header)) }
        ensures faultless { OnOk result (header_fault (words line.now) ≡ None) }
        ensures refused { IfErr result (λ kind. header_fault (words line.now) ≡ Some kind) }
    {
        let Some(told) = HeaderWords::of_line(line) else {
            return Err(Kind::HeaderWords);
        };
        let n = count_of(told.n, MAX_VERTICES)?;
        let m = count_of(told.m, MAX_EDGES)?;
        let format = Format::of_words(told.digits, told.ncon)?;
        Ok(Header { n, m, format })
    }
}

/// The words of a header. Those that may be missing are filled in with what they then count as.
#[derive(Drop)]
struct HeaderWords<'a> {
    n: &'a [u8],
    m: &'a [u8],
    digits: &'a [u8],
    ncon: &'a [u8],
}

impl<'a> HeaderWords<'a> {
    ghost use Rattle.pg_metis.specs.Headers.{AreOneHeader};
    ghost use Rattle.pg_metis.specs.Fault.{header_fault};

    /// The words of a header's line, unless they are too few or too many.
    fn of_line(line: &'a [u8]) -> Option<HeaderWords<'a>>
        ensures some { IfSome result (λ told. AreOneHeader (words line.now) (told.n.now ∷ told.m.now ∷ told.digits.now ∷ told.ncon.now ∷ [])) }
        ensures none { result ≡ None → header_fault (words line.now) ≡ Some Kind.HeaderWords }
    {
        let mut left = words(line);
        let n = left.next()?;
        let m = left.next()?;
        let digits = left.next().unwrap_or(b"0");
        let ncon = left.next().unwrap_or(b"1");
        if left.next().is_some() {
            return None;
        }
        Some(HeaderWords { n, m, digits, ncon })
    }
}

/// Which of sizes, vertex weights and edge weights the format of a header marks.
#[derive(Drop)]
struct Marks {
    sizes: bool,
    vertices: bool,
    edges: bool,
}

impl Marks {
    ghost use Rattle.pg_metis.specs.Headers.{marks_in};

    /// The marks that one to three digits 0 or 1 are, filled up with zeros on the left.
    fn of_digits(digits: &[u8]) -> Option<Marks>
        ensures { option_map marks_in result ≡ marks_of digits.now }
    {
        match digits {
            [edges] => Marks::of_three(b'0', b'0', *edges),
            [vertices, edges] => Marks::of_three(b'0', *vertices, *edges),
            [sizes, vertices, edges] => Marks::of_three(*sizes, *vertices, *edges),
            _ => None,
        }
    }

    fn of_three(sizes: u8, vertices: u8, edges: u8) -> Option<Marks>
        ensures { option_map marks_in result ≡ marks_if sizes vertices edges }
    {
        if is_mark(sizes) && is_mark(vertices) && is_mark(edges) {
            return Some(Marks {
                sizes: sizes == b'1',
                vertices: vertices == b'1',
                edges: edges == b'1',
            });
        }
        None
    }
}

fn is_mark(digit: u8) -> bool
    ensures { result ≡ is_mark digit }
{
    digit == b'0' || digit == b'1'
}

/// The number that a word is, which is at most `most`.
fn count_of(word: &[u8], most: u32) -> Result<u32, Kind>
    ensures ok { IfOk result (λ count. number word.now ≡ Some count) }
    ensures within { IfOk result (λ count. count ≤ most) }
    ensures faultless { OnOk result (count_fault most word.now ≡ None) }
    ensures refused { IfErr result (λ kind. count_fault most word.now ≡ Some kind) }
{
    let count = number_of(word)?;
    if count > most {
        return Err(Kind::OverLimit);
    }
    Ok(count)
}
