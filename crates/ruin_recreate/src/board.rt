// The numbers of an instance, by stops.
ghost use Rattle.std.specs.Prelude.{◌≡◌, ◌-◌, ◌/◌, ◌<◌, ◌≤◌, length};
ghost use Rattle.ruin_recreate.specs.Boards.{IsBoard, demand_of, link, turned};

/// The numbers of an instance as flat tables for a search over stops.
///
/// Stop 0 is the depot. The service of the required edge of number e, from 1, is the stop 2 * e forward and 2 * e + 1
/// backward. Stop 1 stands at the depot too, and no search needs it.
#[derive(Drop)]
pub struct Board {
    /// How many stops there are, 2 to 1,202. The board of an instance has two for each required edge, and two more.
    pub width: usize,
    /// The least price by the costs of edges from the end of stop x to the start of stop y, at place x * width + y.
    /// Each is 0 to 999,000,000.
    pub links: Vec<u32>,
    /// What a stop loads, 0 to 30,000. The depot loads nothing.
    pub demands: Vec<u32>,
    /// The service of the same edge in the other direction. A stop at the depot is its own.
    pub turns: Vec<u32>,
    /// The capacity of a vehicle, at most 30,000.
    pub room: u32,
}

impl Board {
    /// The least price from the end of a stop to the start of another, or of the same one, 0 to 999,000,000.
    pub fn between(&self, x: u32, y: u32) -> u32
        requires board { IsBoard self.now }
        requires x { x < self.now.width }
        requires y { y < self.now.width }
        ensures value { result ≡ link self.now x y }
        ensures small { result ≤ 999000000 }
    {
        self.links[x as usize * self.width + y as usize]
    }

    /// What a stop loads, 0 to 30,000.
    pub fn demand(&self, x: u32) -> u32
        requires board { IsBoard self.now }
        requires x { x < self.now.width }
        ensures value { result ≡ demand_of self.now x }
        ensures light { result ≤ 30000 }
    {
        self.demands[x as usize]
    }

    /// The service of the same edge in the other direction. A stop at the depot is its own.
    pub fn turn(&self, x: u32) -> u32
        requires board { IsBoard self.now }
        requires x { x < self.now.width }
        ensures value { result ≡ turned self.now x }
        ensures within { result < self.now.width }
    {
        self.turns[x as usize]
    }

    // How many edges are required.
    pub(crate) fn edges(&self) -> u32
        requires { IsBoard self.now }
        ensures { result ≡ self.now.width / 2 - 1 }
    {
        self.width as u32 / 2 - 1
    }

    // The links from a stop to all stops.
    pub(crate) fn row(&self, x: u32) -> &[u32]
        requires board { IsBoard self.now }
        requires x { x < self.now.width }
        ensures long { length result.now ≡ self.now.width }
    {
        let first = x as usize * self.width;
        &self.links[first..first + self.width]
    }
}
