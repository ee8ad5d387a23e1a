// The call on a survey: the upload of many points of a file.
ghost use Rattle.survey.specs.Survey.{five_lists};
ghost use Rattle.janlishuk.specs.Promise.{Uploads};

use survey::UploadAnswer;

// Reads the points of a survey in the file's zone, at most 256, each as `janlishuk_read` does, and writes
// heights, codes and refusals into the lists; or refusal 1, 2, 3 or 10, and nothing is written.
pub fn janlishuk_upload(
    file: &[u8],
    base: u32,
    zone: u32,
    eastings: &[u32],
    northings: &[u32],
    heights: &mut [u32],
    codes: &mut [u8],
    refusals: &mut [u8],
) -> UploadAnswer
    ensures { Uploads file.entry.now file.exit.now base zone
        (five_lists eastings.entry.now northings.entry.now heights.old codes.old refusals.old)
        (five_lists eastings.exit.now northings.exit.now heights.new codes.new refusals.new)
        result }
{
    UploadAnswer::from(survey::upload(
        file, base, zone, eastings, northings, heights, codes, refusals,
    ))
}
