//! How the machines of a group are cut into groups of neighbours, one for each thread.
ghost use Rattle.std.specs.Prelude.{◌≡◌, ◌≤◌, min, max};
ghost use Rattle.pg_run.specs.Blocks.{group_start};

// A cut of places, counted from 0, into groups of neighbours by the block rule.
#[derive(Clone, Copy, Debug)]
pub(crate) struct Cut {
    pub(crate) places: usize,
    pub(crate) groups: usize,
}

impl Cut {
    // Into as many groups as there are threads, or as places where these are fewer, and into one where there is none.
    pub(crate) fn new(places: usize, threads: usize) -> Cut
        ensures places { result.places ≡ places }
        ensures groups { result.groups ≡ max (min threads places) 1 }
    {
        Cut {
            places,
            groups: threads.min(places).max(1),
        }
    }

    // The place at which a group begins. After the last group comes the number of places.
    pub(crate) fn start(&self, group: usize) -> usize
        requires some { 1 ≤ self.now.groups }
        requires within { group ≤ self.now.groups }
        ensures rule { result ≡ group_start self.now.places self.now.groups group }
        ensures all { group_start self.now.places self.now.groups self.now.groups ≡ self.now.places }
    {
        let share = self.places / self.groups;
        let extra = self.places % self.groups;
        group * share + group.min(extra)
    }
}
