// The mast plan of a link: the lowest two masts that see each other.
#![tactic(auto)]

ghost use Rattle.std.specs.Prelude.{◌≡◌, ◌≤◌, length};
ghost use Rattle.path.specs.Path.{ask_masts, tallest};
ghost use Rattle.profile.specs.Profile.{link_of, linked, path_outcome_of};
ghost use Rattle.masts.specs.Plan.{Demand3, planned_means};
ghost use Rattle.link.specs.Clear.{need, clear};
ghost use Rattle.plan.specs.Plan.{plan_answer, Planned};
ghost use Rattle.plan.specs.Inside.{Needed};

use ground::point::Point;
use ground::refusal::Refusal;
use link::clear::Link;
use masts::Masts;
use path::{Asked, ROOM};
use profile::samples;
use profile::samples::{PathRefusal, Samples};

// The two masts of a plan, or a refusal, as C gets it.
#[repr(C)]
#[derive(Clone, Copy)]
pub struct PlanAnswer {
    pub refusal: u32,
    pub place: u32,
    pub first: u32,
    pub second: u32,
}

impl From<Result<Masts, PathRefusal>> for PlanAnswer {
    ghost from_gives = { λ planned answer. answer ≡ plan_answer (path_outcome_of planned) };

    fn from(planned: Result<Masts, PathRefusal>) -> PlanAnswer {
        match planned {
            Ok(masts) => PlanAnswer {
                refusal: 0,
                place: 0,
                first: masts.first,
                second: masts.second,
            },
            Err(met) => PlanAnswer {
                refusal: met.refusal.number(),
                place: met.place,
                first: 0,
                second: 0,
            },
        }
    }
}

// Writes what each sample between the ends needs, by its number: of a loop over the places themselves nothing is
// known afterwards.
fn find_needs(link: &Link, needs: &mut [u32; ROOM])
    requires { length needs.old ≡ 201 }
    ensures { Needed (need (link_of link.now.path link.now.samples.now)) link.now.path.n needs.new }
{
    for i in 1..link.path.n {
        needs[i as usize] = link.need(i);
    }
}

// The plan of a link, where there is a pair.
fn plan_of(link: &Link, la: u32, lb: u32) -> Option<Masts>
    requires { (la ≤ tallest) × (lb ≤ tallest) }
    ensures { Demand3 (clear (link_of link.now.path link.now.samples.now)) la lb (planned_means result) }
{
    let mut needs = [0u32; ROOM];
    find_needs(link, &mut needs);
    masts::search(link.line(0, 0), &needs, la, lb)
}

// The masts of the path between two points of a file, of at most la and lb metres, with the least sum
// and, of those, the lowest first mast; or refusal 1 to 9.
pub fn plan(
    file: &[u8],
    base: u32,
    zone: u32,
    first: Point,
    second: Point,
    la: u32,
    lb: u32,
) -> Result<Masts, PathRefusal>
    ensures { Planned (linked file.now base zone (ask_masts first second la lb)) la lb (path_outcome_of result) }
{
    let mut samples = Samples::none();
    let asked = Asked::masts(first, second, la, lb);
    let path = samples::read_samples(file, base, zone, asked, &mut samples)?;
    let link = Link {
        path,
        samples: &samples,
    };
    let masts = plan_of(&link, la, lb).ok_or(Refusal::NoPair)?;
    Ok(masts)
}
