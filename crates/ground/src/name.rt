// The name of a terrain file.
ghost use Rattle.std.specs.Prelude.{◌≤◌, ◌≡◌};
ghost use Rattle.ground.specs.Name.{letter, file_name, name_answer};
ghost use Rattle.ground.specs.Refusal.{outcome_of};

use crate::refusal::Refusal;
use crate::table::are_named;

// A file's name, or a refusal, as C gets it.
#[repr(C)]
#[derive(Clone, Copy)]
pub struct NameAnswer {
    pub refusal: u32,
    pub place: u32,
    pub name: [u8; 4],
}

impl From<Result<[u8; 4], Refusal>> for NameAnswer {
    ghost from_gives = { λ name answer. answer ≡ name_answer (outcome_of name) };

    fn from(name: Result<[u8; 4], Refusal>) -> NameAnswer {
        match name {
            Ok(name) => NameAnswer {
                refusal: 0,
                place: 0,
                name,
            },
            Err(refusal) => NameAnswer {
                refusal: refusal.number(),
                place: 0,
                name: [0; 4],
            },
        }
    }
}

// The file letter: A for base 0 to U for 80.
fn letter_of(base: u32) -> u8
    requires { base ≤ 80 }
    ensures { result ≡ letter base }
{
    b'A' + (base / 4) as u8
}

// The name of the file of a base and a zone: N, the letter, the zone as two digits; or refusal 2.
pub fn file_name(base: u32, zone: u32) -> Result<[u8; 4], Refusal>
    ensures { outcome_of result ≡ file_name base zone }
{
    if !are_named(base, zone) {
        return Err(Refusal::NotNamed);
    }
    Ok([
        b'N',
        letter_of(base),
        b'0' + (zone / 10) as u8,
        b'0' + (zone % 10) as u8,
    ])
}
