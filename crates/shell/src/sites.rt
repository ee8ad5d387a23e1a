// The sites, in the order in which they were entered.
ghost use Rattle.std.specs.Prelude.{◌≡◌, ◌<◌, ◌≤◌, ◌↔◌, IsTrue, length};
ghost use Rattle.shell.specs.Inside.{Finds, with_entry, point_in};

use ground::measure::Metres;
use ground::point::Point;

// Most sites.
pub const MOST_SITES: usize = 32;

// A site: its name, as its key, and its easting and northing in metres.
#[derive(Clone, Copy)]
pub struct Site {
    pub key: u64,
    pub easting: u32,
    pub northing: u32,
}

// The sites that are held: the first `count` entries, of at most 32.
#[derive(Clone, Copy)]
pub struct Sites {
    pub entries: [Site; MOST_SITES],
    pub count: usize,
}

impl Site {
    // The site as a point of this zone.
    pub(crate) fn point(self, zone: u32) -> Point
        ensures { result ≡ point_in zone self }
    {
        Point {
            zone,
            easting: Metres(self.easting),
            northing: Metres(self.northing),
        }
    }
}

impl Sites {
    // No sites.
    pub(crate) fn new() -> Self
        ensures none { result.count ≡ 0 }
        ensures long { length result.entries ≡ 32 }
    {
        let empty = Site {
            key: 0,
            easting: 0,
            northing: 0,
        };
        Sites {
            entries: [empty; MOST_SITES],
            count: 0,
        }
    }

    // The place of the name of this key, where a site has it.
    pub(crate) fn find(&self, key: u64) -> Option<usize>
        ensures { Finds self.now key result }
    {
        self.entries
            .iter()
            .take(self.count)
            .position(|site| site.key == key)
    }

    // Whether there is no room for another site.
    pub(crate) fn is_full(&self) -> bool
        ensures { IsTrue result ↔ (32 ≤ self.now.count) }
    {
        MOST_SITES <= self.count
    }

    // Enters a site after the others.
    pub(crate) fn add(&mut self, site: Site)
        requires { self.old.count < 32 }
        ensures { self.new ≡ with_entry self.old site }
    {
        self.entries[self.count] = site;
        self.count += 1;
    }
}
