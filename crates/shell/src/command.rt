// What each command answers, and what the shell then remembers.
ghost use Rattle.std.specs.Prelude.{◌≡◌};
ghost use Rattle.ground.specs.Outcome.{refusal_number};
ghost use Rattle.ground.specs.Refusal.{outcome_of};
ghost use Rattle.shell.specs.Session.{refusal_of};
ghost use Rattle.shell.specs.Inside.{held_of, Starts, Uses, AnswersSite, LooksUp, AnswersPath, AnswersMasts, Replies};

use crate::answer::Answer;
use crate::sites::{Site, Sites};
use ground::point::Point;
use ground::refusal::Refusal;
use lines::Line;
use link::clear::sight;
use plan::plan;
use terrain::check::check_file;

// The bytes of 60 records, the most that `use` takes.
pub const MOST_BYTES: usize = 61440;

// The base and the zone that name a terrain file.
#[derive(Clone, Copy)]
pub struct FileName {
    pub base: u32,
    pub zone: u32,
}

// What the shell remembers beside the bytes of the file in use: the sites, and the name of that file, where
// there is one.
#[derive(Clone, Copy)]
pub struct Shell {
    pub sites: Sites,
    pub file: Option<FileName>,
}

// The points of two sites, in the zone of the file in use, and its name.
#[derive(Clone, Copy)]
struct Ends {
    name: FileName,
    first: Point,
    second: Point,
}

// Passes what was found under a name, if anything, or refuses it: with 1 where it could not be read or is too
// long, else as the file check does.
fn pass(held: Option<&[u8]>, name: FileName) -> Result<(), Refusal>
    ensures { refusal_number (outcome_of result) ≡ refusal_of (held_of held.entry) name.base name.zone }
{
    let bytes = held.ok_or(Refusal::NotWhole)?;
    if MOST_BYTES < bytes.len() {
        return Err(Refusal::NotWhole);
    }
    check_file(bytes, name.base, name.zone)?;
    Ok(())
}

impl Shell {
    // What the shell remembers at the start: no file, no sites.
    pub fn start() -> Self
        ensures { Starts result }
    {
        Shell {
            sites: Sites::new(),
            file: None,
        }
    }

    // The answer to a `use` for whose name this was found: `Ok` where the new file takes the place of the
    // earlier one. A refused `use` changes nothing.
    pub fn on_use(&mut self, held: Option<&[u8]>, name: FileName) -> Result<Answer, Refusal>
        ensures { Uses self.old (held_of held.entry) name self.new result }
    {
        pass(held, name)?;
        self.file = Some(name);
        Ok(Answer::Used(name.base, name.zone))
    }

    // The answer to a new site, which is entered after the others where its name is not taken and there is
    // room.
    fn on_site(&mut self, site: Site) -> Result<Answer, Answer>
        ensures { AnswersSite self.old site self.new result }
    {
        if self.sites.find(site.key).is_some() {
            return Err(Answer::Taken);
        }
        if self.sites.is_full() {
            return Err(Answer::Full);
        }
        self.sites.add(site);
        Ok(Answer::Held(self.sites.count))
    }

    // The sites of two names, as points of the zone of the file in use; or what is said where a name or a
    // file is missing.
    fn look_up(&self, first: u64, second: u64) -> Result<Ends, Answer>
        ensures { LooksUp self.now first second result }
    {
        let i = self.sites.find(first).ok_or(Answer::Unknown)?; // names come before the file
        let j = self.sites.find(second).ok_or(Answer::Unknown)?;
        let name = self.file.ok_or(Refusal::NotWhole)?;
        Ok(Ends {
            name,
            first: self.sites.entries[i].point(name.zone),
            second: self.sites.entries[j].point(name.zone),
        })
    }

    // The answer to a path between the sites of two names: N and the verdict with no masts.
    fn on_path(&self, file: &[u8], first: u64, second: u64) -> Result<Answer, Answer>
        ensures { AnswersPath self.now first second file.now result }
    {
        let ends = self.look_up(first, second)?;
        let seen = sight(
            file,
            ends.name.base,
            ends.name.zone,
            ends.first,
            ends.second,
            0,
            0,
        )?;
        Ok(Answer::Seen(seen.n, seen.clear))
    }

    // The answer to the masts of the sites of two names, within two limits.
    fn on_masts(
        &self,
        file: &[u8],
        first: u64,
        second: u64,
        a: u32,
        b: u32,
    ) -> Result<Answer, Answer>
        ensures { AnswersMasts self.now first second a b file.now result }
    {
        let ends = self.look_up(first, second)?;
        let masts = plan(
            file,
            ends.name.base,
            ends.name.zone,
            ends.first,
            ends.second,
            a,
            b,
        )?;
        Ok(Answer::Planned(masts.first, masts.second))
    }

    // The answer to a line; or the name of the file that a `use` asks for, which `on_use` answers once it was
    // looked for: here it changes nothing.
    pub(crate) fn answer_line(&mut self, line: Line, file: &[u8]) -> Result<Answer, FileName>
        ensures { Replies line self.old file.now self.new result }
    {
        let (Ok(answer) | Err(answer)) = match line {
            Line::Use(base, zone) => return Err(FileName { base, zone }),
            Line::Site(key, easting, northing) => self.on_site(Site {
                key,
                easting,
                northing,
            }),
            Line::Path(first, second) => self.on_path(file, first, second),
            Line::Masts(first, second, a, b) => self.on_masts(file, first, second, a, b),
        };
        Ok(answer)
    }
}
