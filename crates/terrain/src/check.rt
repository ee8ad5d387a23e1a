// The check of a terrain file. Here and in the calls above, bytes, base and zone come one by one, as C passes them
// and as each promise names them.
ghost use Rattle.std.specs.Prelude.{◌≡◌, true};
ghost use Rattle.index.specs.Bytes.{whole_records};
ghost use Rattle.ground.specs.Outcome.{given, ◌and_then◌};
ghost use Rattle.ground.specs.Refusal.{outcome_of};
ghost use Rattle.terrain.specs.Check.{highest_of, opened_file, checked, highest_answer, Opens};
ghost use Rattle.terrain.specs.Inside.{opened_on, checked_on};

use ground::Ground;
use ground::refusal::Refusal;
use index::bytes;

// What is known of a file that was opened: how many records there are from 7 to M, past the index, and
// its ground. The count stands for M, since one comparison with it tells a number from 7 to M.
#[derive(Clone, Copy)]
pub struct Terrain {
    pub past: u32,
    pub ground: Ground,
}

// M of a file that passes, or a refusal, as C gets it.
#[repr(C)]
#[derive(Clone, Copy)]
pub struct CheckAnswer {
    pub refusal: u32,
    pub place: u32,
    pub highest: u32,
}

impl From<Result<u32, Refusal>> for CheckAnswer {
    ghost from_gives = { λ highest answer. answer ≡ highest_answer (outcome_of highest) };

    fn from(highest: Result<u32, Refusal>) -> CheckAnswer {
        match highest {
            Ok(highest) => CheckAnswer {
                refusal: 0,
                place: 0,
                highest,
            },
            Err(refusal) => CheckAnswer {
                refusal: refusal.number(),
                place: 0,
                highest: 0,
            },
        }
    }
}

// The ground and M of a file of whole records on this ground, or refusal 3 for M outside its range.
fn open_on(file: &[u8], ground: Ground) -> Result<Terrain, Refusal>
    requires { whole_records file.now ≡ true }
    ensures { outcome_of result ≡ opened_on file.now ground }
{
    let highest = u32::from(bytes::nth(file, bytes::LAST));
    if !index::highest_passes(file, highest) {
        return Err(Refusal::Damaged);
    }
    Ok(Terrain {
        past: highest - bytes::INDEX as u32,
        ground,
    })
}

// The ground and M of the file of a base and a zone; or refusal 1, 2, or 3 for M outside its range. Of
// the index only M is looked at.
#[tactic(auto, using(crate::proofs::Laws::Checked::opened_steps))]
pub fn open_file(file: &[u8], base: u32, zone: u32) -> Result<Terrain, Refusal>
    ensures { outcome_of result ≡ opened_file file.now base zone }
{
    if !bytes::is_whole(file) {
        return Err(Refusal::NotWhole);
    }
    open_on(file, Ground::open(base, zone)?)
}

// What is known of a file that was opened, where its index passes; or refusal 3.
fn check_on(file: &[u8], terrain: Terrain) -> Result<Terrain, Refusal>
    requires { Opens file.now terrain }
    ensures { outcome_of result ≡ checked_on file.now terrain }
{
    let ground = terrain.ground;
    let highest = bytes::INDEX + terrain.past as usize;
    if !index::passes(file, highest, ground.rows()) {
        return Err(Refusal::Damaged);
    }
    Ok(terrain)
}

// What is known of the file of a base and a zone that passes, or refusal 1, 2 or 3.
#[tactic(auto, using(crate::proofs::Laws::Checked::checked_steps))]
pub fn check_file(file: &[u8], base: u32, zone: u32) -> Result<Terrain, Refusal>
    ensures { outcome_of result ≡ checked file.now base zone }
{
    check_on(file, open_file(file, base, zone)?)
}

// M of a file that passes, or refusal 1, 2 or 3.
pub fn check(file: &[u8], base: u32, zone: u32) -> Result<u32, Refusal>
    ensures { outcome_of result ≡ (checked file.now base zone and_then λ t. given (highest_of t)) }
{
    let terrain = check_file(file, base, zone)?;
    Ok(bytes::INDEX as u32 + terrain.past)
}
