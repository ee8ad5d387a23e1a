// The line of sight between two ends: where it is blocked, and what clears it.
ghost use Rattle.std.specs.Prelude.{◌≡◌, ◌+◌, ◌*◌, ◌≤◌, ◌<◌, true, get_or, IfSome, MatchOption};
ghost use Rattle.masts.specs.Clear.{rounded_up, clear_by};
ghost use Rattle.masts.specs.Inside.{Sides, IsBetween, BlockedAt, SomeSecond, LeastSecond};

use path::ROOM;
use path::line::Line;

// Millimetres in a metre of mast.
pub const IN_A_METRE: u32 = 1000;

// m / d, rounded up.
pub fn rounded_up(m: u32, d: u32) -> u32
    requires { 1 ≤ d }
    ensures { result ≡ rounded_up m d }
{
    m.div_ceil(d)
}

// A sample between the ends at which the line is below the need, if there is one. The sample `tried`,
// which blocked the pair before, is tried first, since it often blocks the next pair too.
pub(crate) fn blocked_at(line: Line, needs: &[u32; ROOM], tried: Option<u32>) -> Option<u32>
    requires { Sides line.n line.from line.to needs.now × IfSome tried (IsBetween line.n) }
    ensures { MatchOption result (clear_by (λ i. get_or needs.now i 0) line.n line.from line.to ≡ true) (BlockedAt (λ i. get_or needs.now i 0) line.n line.from line.to) }
{
    let blocks = |i: &u32| line.height(*i) < needs[*i as usize];
    match tried {
        Some(at) if blocks(&at) => tried,
        _ => (1..line.n).find(blocks),
    }
}

// The least second mast with which the path is clear, where there is one: at each sample the mast
// grows by as many metres as lift the line to the need. The number i is the sample's, in the line and in what the
// mast lifts there, and not only the place of its need.
pub(crate) fn least_second(line: Line, needs: &[u32; ROOM]) -> u32
    requires { Sides line.n line.from line.to needs.now × SomeSecond (λ i. get_or needs.now i 0) line.n line.from line.to }
    ensures { LeastSecond (λ b. clear_by (λ i. get_or needs.now i 0) line.n line.from (line.to + 1000 * b)) result }
{
    let mut mast = 0;
    for i in 1..line.n {
        let raised = Line {
            to: line.to + IN_A_METRE * mast,
            ..line
        };
        let height = raised.height(i);
        let need = needs[i as usize];
        if height < need {
            mast += rounded_up(need - height, IN_A_METRE * i);
        }
    }
    mast
}
