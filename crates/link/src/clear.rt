// The clear test of a path with its profile, in millimetres, and the verdict.
ghost use Rattle.std.specs.Prelude.{◌≡◌, ◌≤◌};
ghost use Rattle.reading.specs.Corner.{most_height};
ghost use Rattle.path.specs.Path.{tallest};
ghost use Rattle.path.specs.Inside.{SoundPath};
ghost use Rattle.profile.specs.Profile.{link_of, read_at, path_outcome_of};
ghost use Rattle.profile.specs.Inside.{SoundLink};
ghost use Rattle.link.specs.Clear.{raised, T, G, need, clear, sight, verdict, verdict_answer};

use ground::point::Point;
use masts::sight::{IN_A_METRE, rounded_up};
use path::line::Line;
use path::{Asked, Path};
use profile::samples;
use profile::samples::{PathRefusal, Samples};
use reading::point::Reading;

// An exact height has 250 units of 1/250,000 m per millimetre.
const IN_A_MILLIMETRE: u32 = 250;

// Twice the effective radius of 8,500 km, in km. A sample d1 and d2 metres from the two ends has
// G = d1 d2 / 17,000 mm.
const RADII: u64 = 17000;

// A verdict, clear 1, blocked 0; or a refusal; as C gets it.
#[repr(C)]
#[derive(Clone, Copy)]
pub struct VerdictAnswer {
    pub refusal: u32,
    pub place: u32,
    pub clear: u32,
}

impl From<Result<bool, PathRefusal>> for VerdictAnswer {
    ghost from_gives = { λ verdict answer. answer ≡ verdict_answer (path_outcome_of verdict) };

    fn from(verdict: Result<bool, PathRefusal>) -> VerdictAnswer {
        match verdict {
            Ok(clear) => VerdictAnswer {
                refusal: 0,
                place: 0,
                clear: u32::from(clear),
            },
            Err(met) => VerdictAnswer {
                refusal: met.refusal.number(),
                place: met.place,
                clear: 0,
            },
        }
    }
}

// What is seen along a path: its N, and whether it is clear.
#[derive(Clone, Copy)]
pub struct Seen {
    pub n: u32,
    pub clear: bool,
}

// A path with what was read at its samples, its numbers within their bounds.
#[derive(Clone, Copy)]
pub struct Link<'a> {
    pub path: Path,
    pub samples: &'a Samples,
    pub ghost sound: { SoundLink (link_of path samples.now) },
}

// A or B, in millimetres: the end's height rounded down, and its mast.
pub fn raised(end: Reading, mast: u32) -> u32
    requires { mast ≤ tallest }
    ensures { result ≡ raised end mast }
{
    end.height / IN_A_MILLIMETRE + IN_A_METRE * mast
}

// T, in millimetres: the sample's height rounded up.
#[tactic(auto, unfolding(crate::specs::Clear::T))]
fn top(sample: Reading) -> u32
    ensures { result ≡ T sample }
{
    rounded_up(sample.height, IN_A_MILLIMETRE)
}

// G, in millimetres: Q i (N-i) / (17,000 N²) rounded up.
fn curve(path: Path, i: u32) -> u32
    requires { SoundPath path × (i ≤ path.n) }
    ensures { result ≡ G path i }
{
    let over = RADII * u64::from(path.n * path.n);
    (path.q * u64::from(i) * u64::from(path.n - i)).div_ceil(over) as u32
}

impl Link<'_> {
    // The line between the ends with masts a and b, in millimetres.
    pub fn line(&self, a: u32, b: u32) -> Line
        requires { (a ≤ tallest) × (b ≤ tallest) }
        ensures { result ≡ record {
          n = self.now.path.n;
          from = raised (read_at self.now.samples.now 0) a;
          to = raised (read_at self.now.samples.now self.now.path.n) b;
        } }
    {
        Line {
            n: self.path.n,
            from: raised(self.samples.at(0), a),
            to: raised(self.samples.at(self.path.n), b),
        }
    }

    // What sample i needs: N (T + G).
    pub fn need(&self, i: u32) -> u32
        requires { i ≤ self.now.path.n }
        ensures { result ≡ need (link_of self.now.path self.now.samples.now) i }
    {
        self.path.n * (top(self.samples.at(i)) + curve(self.path, i))
    }

    // Whether the path is clear with masts a and b.
    fn is_clear(&self, a: u32, b: u32) -> bool
        requires { (a ≤ tallest) × (b ≤ tallest) }
        ensures { result ≡ clear (link_of self.now.path self.now.samples.now) a b }
    {
        let line = self.line(a, b);
        (1..line.n).all(|i| self.need(i) <= line.height(i))
    }
}

// N of the path between two points of a file, and whether it is clear with masts of a and b metres; or
// refusal 1 to 8.
pub fn sight(
    file: &[u8],
    base: u32,
    zone: u32,
    first: Point,
    second: Point,
    a: u32,
    b: u32,
) -> Result<Seen, PathRefusal>
    ensures { path_outcome_of result ≡ sight file.now base zone first second a b }
{
    let mut samples = Samples::none();
    let asked = Asked::masts(first, second, a, b);
    let path = samples::read_samples(file, base, zone, asked, &mut samples)?;
    let link = Link {
        path,
        samples: &samples,
    };
    Ok(Seen {
        n: path.n,
        clear: link.is_clear(a, b),
    })
}

// Whether the path between two points of a file is clear with masts of a and b metres, or refusal 1
// to 8.
pub fn verdict(
    file: &[u8],
    base: u32,
    zone: u32,
    first: Point,
    second: Point,
    a: u32,
    b: u32,
) -> Result<bool, PathRefusal>
    ensures { path_outcome_of result ≡ verdict file.now base zone first second a b }
{
    let seen = sight(file, base, zone, first, second, a, b)?;
    Ok(seen.clear)
}
