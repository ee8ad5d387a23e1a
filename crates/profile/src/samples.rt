// The samples of a path, read into a place that the caller lends.
ghost use Rattle.std.specs.Prelude.{◌≡◌, ◌≤◌};
ghost use Rattle.terrain.specs.Check.{Gave};
ghost use Rattle.path.specs.Inside.{SoundPath};
ghost use Rattle.profile.specs.Profile.{none_read, put_in, read_at, link_in, walked_means, sampled_means, linked};

use ground::refusal::Refusal;
use path::{Asked, Path, ROOM};
use reading::point;
use reading::point::Reading;
use terrain::check;
use terrain::check::Terrain;

// A refusal of a call on a path, and its place: the sample's number where it was met at a sample, else 0.
#[derive(Clone, Copy, Debug, PartialEq, Eq)]
pub struct PathRefusal {
    pub refusal: Refusal,
    pub place: u32,
}

impl From<Refusal> for PathRefusal {
    ghost from_gives = { λ refusal met. met ≡ record { refusal = refusal; place = 0 } };

    fn from(refusal: Refusal) -> PathRefusal {
        PathRefusal { refusal, place: 0 }
    }
}

// What was read at the samples of a path, the exact height and the surface code of each; unused places are 0. Two
// arrays, since C gets them so.
#[derive(Drop)]
pub struct Samples {
    pub heights: [u32; ROOM],
    pub codes: [u8; ROOM],
}

impl Samples {
    // A place for samples of which none is read yet.
    #[tactic(auto, unfolding(crate::specs::Profile::zeros))]
    pub fn none() -> Samples
        ensures { result ≡ none_read }
    {
        Samples {
            heights: [0; ROOM],
            codes: [0; ROOM],
        }
    }

    // Puts in what was read at sample i.
    pub fn put(&mut self, i: u32, reading: Reading)
        requires { i ≤ 200 }
        ensures { self.new ≡ put_in self.old i reading }
    {
        self.heights[i as usize] = reading.height;
        self.codes[i as usize] = reading.code;
    }

    // What was read at sample i: its exact height and its surface code.
    pub fn at(&self, i: u32) -> Reading
        requires { i ≤ 200 }
        ensures { result ≡ read_at self.now i }
    {
        Reading {
            height: self.heights[i as usize],
            code: self.codes[i as usize],
        }
    }
}

// Reads samples 0 to N of a path of a checked file, each into its place; or the first refusal, 4, 5 or 6,
// with the sample's number.
fn walk(file: &[u8], terrain: Terrain, path: Path, samples: &mut Samples) -> Result<(), PathRefusal>
    requires { Gave file.now terrain × (SoundPath path × (samples.old ≡ none_read)) }
    ensures { walked_means path result samples.new ≡ link_in file.now terrain path }
{
    for i in 0..=path.n {
        match point::read_in(file, terrain, path.sample(i)) {
            Ok(reading) => samples.put(i, reading),
            Err(refusal) => return Err(PathRefusal { refusal, place: i }),
        }
    }
    Ok(())
}

// Reads the samples of the path between two points of a file, and gives the path back; or the first
// refusal of 1 to 8 in the order of checks. No sample may be read yet when it is called.
pub fn read_samples(
    file: &[u8],
    base: u32,
    zone: u32,
    asked: Asked,
    samples: &mut Samples,
) -> Result<Path, PathRefusal>
    requires { samples.old ≡ none_read }
    ensures { sampled_means result samples.new ≡ linked file.now base zone asked }
{
    let terrain = check::check_file(file, base, zone)?;
    let path = path::find(terrain.ground, asked)?;
    walk(file, terrain, path, samples)?;
    Ok(path)
}
