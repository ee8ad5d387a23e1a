// The search for two masts, on numbers alone: how high each end is, and what each sample between them
// needs of the line from the first to the last.
//
// A taller mast never blocks. So if a pair is blocked, every lower second mast is too, and a first
// mast needs only one test: with the tallest second mast that would still make the sum smaller. If
// that pair is clear, one pass over the samples gives the least second mast. A first mast that is
// itself as tall as the least sum so far ends the search.
#![tactic(auto)]

ghost use Rattle.std.specs.Prelude.{◌+◌, ◌*◌, ◌≤◌, get_or};
ghost use Rattle.path.specs.Path.{tallest};
ghost use Rattle.masts.specs.Clear.{clear_by};
ghost use Rattle.masts.specs.Plan.{Demand3, planned_means};
ghost use Rattle.masts.specs.Inside.{Sides};

use path::ROOM;
use path::line::Line;
use sight::IN_A_METRE;

pub mod sight;

// The two masts of a plan, in metres.
#[derive(Clone, Copy)]
pub struct Masts {
    pub first: u32,
    pub second: u32,
}

// The clear pair within the limits la and lb with the least sum and, of those, the lowest first mast;
// or none. The line is that between the ends without masts, in millimetres. `sum` is the least sum so
// far, or la + lb + 1 before a pair is found; `tried` is the sample that blocked last.
pub fn search(line: Line, needs: &[u32; ROOM], la: u32, lb: u32) -> Option<Masts>
    requires { Sides line.n (line.from + 1000 * la) (line.to + 1000 * lb) needs.now × ((la ≤ tallest) × (lb ≤ tallest)) }
    ensures { Demand3 (λ a b. clear_by (λ i. get_or needs.now i 0) line.n (line.from + 1000 * a) (line.to + 1000 * b)) la lb (planned_means result) }
{
    let mut best = None;
    let mut sum = la + lb + 1;
    let mut tried = None;
    for a in 0..=la {
        if sum <= a {
            break;
        }
        let smaller = sum - 1 - a;
        let most = lb.min(smaller);
        let raised = Line {
            from: line.from + IN_A_METRE * a,
            ..line
        };
        let highest = Line {
            to: line.to + IN_A_METRE * most,
            ..raised
        };
        match sight::blocked_at(highest, needs, tried) {
            Some(at) => tried = Some(at),
            None => {
                let second = sight::least_second(raised, needs);
                sum = a + second;
                best = Some(Masts { first: a, second });
            }
        }
    }
    best
}
