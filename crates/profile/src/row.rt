// The rows for the prediction engine.
ghost use Rattle.std.specs.Prelude.{◌≡◌};
ghost use Rattle.profile.specs.Profile.{path_outcome_of};
ghost use Rattle.profile.specs.Row.{share, IsRow, row, row_answer};

use crate::samples;
use crate::samples::{PathRefusal, Samples};
use ground::point::Point;
use path::Asked;

// A sample for the engine: its height in metres, and its share of the way.
#[repr(C)]
#[derive(Clone, Copy)]
pub struct Row {
    pub height: f64,
    pub share: f64,
}

// A row; or a refusal, and both doubles 0; as C gets it.
#[repr(C)]
#[derive(Clone, Copy)]
pub struct RowAnswer {
    pub refusal: u32,
    pub place: u32,
    pub row: Row,
}

impl From<Result<Row, PathRefusal>> for RowAnswer {
    ghost from_gives = { λ row answer. answer ≡ row_answer (path_outcome_of row) };

    fn from(row: Result<Row, PathRefusal>) -> RowAnswer {
        match row {
            Ok(row) => RowAnswer {
                refusal: 0,
                place: 0,
                row,
            },
            Err(met) => RowAnswer {
                refusal: met.refusal.number(),
                place: met.place,
                row: Row {
                    height: 0.0,
                    share: 0.0,
                },
            },
        }
    }
}

// The share of the way at sample i of n: i divided once by n.
fn share_of(i: u32, n: u32) -> f64
    ensures { result ≡ share i n }
{
    f64::from(i) / f64::from(n)
}

// The row of sample i of n, at this exact height.
fn row_at(height: u32, i: u32, n: u32) -> Row
    ensures { IsRow height i n result }
{
    Row {
        height: reading::engine::metres_of(height),
        share: share_of(i, n),
    }
}

// The row of sample i of the path between two points of a file, or refusal 1 to 8.
pub fn engine_row(
    file: &[u8],
    base: u32,
    zone: u32,
    first: Point,
    second: Point,
    i: u32,
) -> Result<Row, PathRefusal>
    ensures { path_outcome_of result ≡ row file.now base zone first second i }
{
    let mut samples = Samples::none();
    let asked = Asked::sample(first, second, i);
    let path = samples::read_samples(file, base, zone, asked, &mut samples)?;
    Ok(row_at(samples.at(i).height, i, path.n))
}
