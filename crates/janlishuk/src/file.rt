// The calls on a file: its check, its name, and the base of a northing.
ghost use Rattle.janlishuk.specs.Promise.{Checks, Names, FindsBase};

use ground::measure::Metres;
use ground::name::NameAnswer;
use ground::table::BaseAnswer;
use terrain::check::CheckAnswer;

// M of a file that passes, or refusal 1, 2 or 3.
pub fn janlishuk_check(file: &[u8], base: u32, zone: u32) -> CheckAnswer
    ensures { Checks file.entry.now file.exit.now base zone result }
{
    CheckAnswer::from(terrain::check::check(file, base, zone))
}

// The file's name, four bytes, or refusal 2.
pub fn janlishuk_name(base: u32, zone: u32) -> NameAnswer
    ensures { Names base zone result }
{
    NameAnswer::from(ground::name::file_name(base, zone))
}

// The base of a northing in metres, or refusal 4.
pub fn janlishuk_base(northing: u32) -> BaseAnswer
    ensures { FindsBase northing result }
{
    BaseAnswer::from(ground::table::base_of(Metres(northing)))
}
