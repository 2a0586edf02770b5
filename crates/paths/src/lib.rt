// The ports that a packet has crossed, in crossing order.
#![tactic(auto)]

ghost use Rattle.std.specs.Prelude.{◌≡◌, ◌<◌, []};
ghost use Rattle.paths.specs.Paths.{path_of, extended};

use ids::PortNo;

// 32 places; those that are not used yet are 255.
#[derive(Clone, Copy)]
pub struct Path {
    pub places: [PortNo; 32],
    pub count: usize,
}

impl Path {
    // Nothing crossed yet.
    #[tactic(auto, unfolding(crate::specs::Paths::path_of))]
    pub fn new() -> Path
        ensures { result ≡ path_of [] }
    {
        Path {
            places: [PortNo::NONE; 32],
            count: 0,
        }
    }

    // The path with one crossing more.
    #[tactic(auto, unfolding(crate::specs::Paths::extended))]
    pub fn crossed(mut self, p: PortNo) -> Path
        requires { self.count < 32 }
        ensures { result ≡ extended self p }
    {
        let at = self.count;
        self.places[at] = p;
        self.count = at + 1;
        self
    }
}
