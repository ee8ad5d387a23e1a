// Edges of the grid: the words at two corners that lie a unit apart, taken together.
ghost use Rattle.std.specs.Prelude.{◌≡◌, ◌&&◌, ◌||◌, ◌+◌, ◌*◌, ◌≤◌, eqb, length};
ghost use Rattle.terrain.specs.Word.{code_of};
ghost use Rattle.reading.specs.Inside.{first, second, EdgeOf, WithinAt, word_where, OnLine, EdgeUnder, ElevationsOf, Heights, between, most_between};

use ground::measure::Metres;
use ground::place::Place;
use index::bytes::nth;
use terrain::word;
use terrain::word::NO_HEIGHT;

// Two numbers of 16 bits are held as one, which takes fewer instructions than two: this times the first, plus
// the second.
const PER_FIRST: u32 = 65536;

// With 1 added, of all elevations 8191 alone reaches this. It is the bit that is asked for at the second
// end of an edge.
const SECOND_PAST: u32 = NO_HEIGHT + 1;

// The bit that is asked for at the first end of an edge, which stands 65536 times higher.
const FIRST_PAST: u32 = PER_FIRST * SECOND_PAST;

// The words at the two ends of an edge, as one number.
#[derive(Clone, Copy)]
pub struct Edge(pub u32);

// The elevations at the two ends of an edge, as one number.
#[derive(Clone, Copy)]
pub struct Elevations(pub u32);

// Word w of the record where its corner weighs in; else the word is not looked at, and 0 stands for it, as it
// goes into the edge's number.
fn word_at(bytes: &[u8], w: usize, weight: u32) -> u32
    requires { WithinAt bytes.now w weight }
    ensures { (result ≡ word_where bytes.now w weight) × (result ≤ 65535) }
{
    if weight == 0 {
        return 0;
    }
    nth(bytes, w) as u32
}

// The height f metres along a unit from one height to another, in a 500th of what the two are in.
pub(crate) fn between(f: u32, from: u32, to: u32) -> u32
    requires { (f ≤ 500) × (between f from to ≤ most_between) }
    ensures { result ≡ between f from to }
{
    (Metres::IN_A_UNIT - f) * from + f * to
}

impl Edge {
    // The edge to the east from word w of the record.
    pub(crate) fn east_of(bytes: &[u8], w: usize) -> Edge
        requires { (1 ≤ w) × (2 * (w + 1) ≤ length bytes.now) }
        ensures { EdgeOf bytes.now w (w + 1) result }
    {
        let at = 2 * (w - 1);
        Edge(u32::from_be_bytes([bytes[at], bytes[at + 1], bytes[at + 2], bytes[at + 3]]))
    }

    // The edge under a point of a grid line, from its south-west corner to the next one: to the north where
    // fx is 0, else to the east. The word of that one is looked at where it weighs in, else 0 stands for it.
    pub(crate) fn under(bytes: &[u8], place: Place) -> Edge
        requires { OnLine bytes.now place }
        ensures { EdgeUnder bytes.now place result }
    {
        let words = place.words();
        let first = nth(bytes, words.sw) as u32;
        let next = if place.fx.0 == 0 { words.nw } else { words.se };
        Edge(PER_FIRST * first + word_at(bytes, next, place.fx.0 + place.fy.0))
    }

    // The surface code at the first end.
    pub(crate) fn first_code(self) -> u32
        ensures { result ≡ code_of (first self.0) }
    {
        word::code_of(self.0 / PER_FIRST)
    }

    // The surface code at the second end.
    pub(crate) fn second_code(self) -> u32
        ensures { result ≡ code_of (second self.0) }
    {
        word::code_of(self.0 % PER_FIRST)
    }

    // Whether the two ends have one code.
    pub(crate) fn has_one_code(self) -> bool
        ensures { result ≡ eqb (code_of (first self.0)) (code_of (second self.0)) }
    {
        self.first_code() == self.second_code()
    }

    // Whether another edge has the same code at its first end, and at its second.
    pub(crate) fn is_like(self, other: Edge) -> bool
        ensures { result ≡ (eqb (code_of (first self.0)) (code_of (first other.0)) && eqb (code_of (second self.0)) (code_of (second other.0))) }
    {
        (self.first_code() == other.first_code()) & (self.second_code() == other.second_code())
    }

    // The elevations at the two ends.
    pub(crate) fn elevations(self) -> Elevations
        ensures { ElevationsOf self result }
    {
        let first = word::elevation_of(self.0 / PER_FIRST);
        Elevations(PER_FIRST * first + word::elevation_of(self.0 % PER_FIRST))
    }
}

impl Elevations {
    // Whether an end has no height. With 1 added to both, 8191 alone reaches 8192, and the bit of that
    // tells.
    pub(crate) fn lack_height(self) -> bool
        requires { Heights self }
        ensures { result ≡ (eqb (first self.0) 8191 || eqb (second self.0) 8191) }
    {
        let raised = self.0 + PER_FIRST + 1;
        (raised / FIRST_PAST % 2 == 1) | (raised / SECOND_PAST % 2 == 1)
    }

    // The height f metres along the edge, in 1/500 m.
    pub(crate) fn along(self, f: u32) -> u32
        requires { Heights self × (f ≤ 500) }
        ensures { result ≡ between f (first self.0) (second self.0) }
    {
        between(f, self.0 / PER_FIRST, self.0 % PER_FIRST)
    }
}
