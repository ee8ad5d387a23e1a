// The library's calls, on a file of the base and zone that the figures are of.
use crate::file::{BASE, File, ZONE};
use janlishuk::{EngineAnswer, PlanAnswer, Point, ProfileAnswer, ReadAnswer, VerdictAnswer};

impl File {
    // The exact height and surface code of a point, or a refusal.
    pub(crate) fn read(&self, point: Point) -> ReadAnswer {
        janlishuk::janlishuk_read(self.bytes(), BASE, ZONE, point)
    }

    // The point as the prediction engine takes it, or a refusal.
    pub(crate) fn engine_point(&self, point: Point) -> EngineAnswer {
        janlishuk::janlishuk_engine_point(self.bytes(), BASE, ZONE, point)
    }

    // N and the samples of the path between two points, or a refusal.
    pub(crate) fn profile(&self, first: Point, second: Point) -> ProfileAnswer {
        janlishuk::janlishuk_profile(self.bytes(), BASE, ZONE, first, second)
    }

    // Whether the path between two points is clear with two masts of one height, or a refusal.
    pub(crate) fn verdict(&self, first: Point, second: Point, mast: u32) -> VerdictAnswer {
        janlishuk::janlishuk_verdict(self.bytes(), BASE, ZONE, first, second, mast, mast)
    }

    // The two masts of the path between two points, under one limit for both, or a refusal.
    pub(crate) fn plan(&self, first: Point, second: Point, limit: u32) -> PlanAnswer {
        janlishuk::janlishuk_plan(self.bytes(), BASE, ZONE, first, second, limit, limit)
    }
}
