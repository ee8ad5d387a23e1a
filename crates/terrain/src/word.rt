// A word of a record: a surface code and an elevation.
ghost use Rattle.std.specs.Prelude.{◌≡◌};
ghost use Rattle.terrain.specs.Word.{code_of, elevation_of};

// A word is this times the surface code, plus the elevation.
const PER_CODE: u32 = 8192;

// The elevation that means no height.
pub const NO_HEIGHT: u32 = 8191;

// The surface code of a word.
pub fn code_of(word: u32) -> u32
    ensures { result ≡ code_of word }
{
    word / PER_CODE
}

// The elevation of a word, in metres.
pub fn elevation_of(word: u32) -> u32
    ensures { result ≡ elevation_of word }
{
    word % PER_CODE
}
