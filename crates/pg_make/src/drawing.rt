//! The generator: the numbers that it draws, and the edges that they give.
//! Source: Kernighan and Ritchie, The C Programming Language, section 2.7.

ghost use Rattle.std.specs.Prelude.{◌≡◌, ℕ, ◌+◌, ◌*◌, ◌%◌, ◌^◌, ◌<◌, ◌≤◌, List, ◌++◌, length, vec_capacity};
ghost use Rattle.pg_base.specs.declared.TheConstants.{MAX_VERTICES};
ghost use Rattle.pg_make.specs.Grid.{next, draw_of, kept, drawn, neighbours};

use pg_base::Edge;

const MULTIPLIER: u64 = 1_103_515_245;

const INCREMENT: u64 = 12_345;

/// How many states there are: 2^31.
const STATES: u64 = 2_147_483_648;

/// What a state is divided by to give the number drawn, its upper 15 bits.
const DRAW_DIVISOR: u32 = 65_536;

/// So many numbers in a row stand for one weight. The first of them leaves the edge out.
const DRAWS_PER_WEIGHT: u32 = 8;

/// The state of the generator, and the edges that were drawn so far.
#[derive(Drop)]
pub(crate) struct Drawing {
    state: u32,
    pub edges: Vec<Edge>,
}

impl Drawing {
    /// The generator before its first draw. Edges are appended to `edges`.
    pub(crate) fn from_seed(seed: u32, edges: Vec<Edge>) -> Drawing
        ensures state { result.state ≡ seed % 2 ^ 31 }
        ensures edges { result.edges ≡ edges }
    {
        let state = (u64::from(seed) % STATES) as u32;
        Drawing { state, edges }
    }

    /// Makes the draws for the edges to the right and to the lower neighbour of the vertex in column `x`
    /// and row `y`.
    pub(crate) fn draw_neighbours(&mut self, width: u32, height: u32, x: u32, y: u32)
        requires column { x < width }
        requires small { (y + 1) * width ≤ MAX_VERTICES }
        requires room { length self.old.edges.items + 2 ≤ vec_capacity self.old.edges }
        ensures drawn { (rest : List (ℕ × ℕ)) → self.new.edges.items ++ drawn self.new.state rest
            ≡ self.old.edges.items ++ drawn self.old.state (neighbours width height x y ++ rest) }
        ensures count { length self.new.edges.items ≤ length self.old.edges.items + 2 }
        ensures room { vec_capacity self.new.edges ≡ vec_capacity self.old.edges }
    {
        let vertex = y * width + x + 1;
        if x + 1 < width {
            self.draw(vertex, vertex + 1);
        }
        if y + 1 < height {
            self.draw(vertex, vertex + width);
        }
    }

    /// Makes the draw for the edge between `u` and `v`, and appends the edge unless it is left out.
    fn draw(&mut self, u: u32, v: u32)
        requires { length self.old.edges.items < vec_capacity self.old.edges }
        ensures state { self.new.state ≡ next self.old.state }
        ensures edges { self.new.edges.items
            ≡ self.old.edges.items ++ kept (u, v) (draw_of (next self.old.state)) }
        ensures count { length self.new.edges.items ≤ length self.old.edges.items + 1 }
        ensures room { vec_capacity self.new.edges ≡ vec_capacity self.old.edges }
    {
        self.state = state_after(self.state);
        let draw = self.state / DRAW_DIVISOR;
        if draw % DRAWS_PER_WEIGHT != 0 {
            let w = 1 + draw / DRAWS_PER_WEIGHT;
            self.edges.push_reserved(Edge { u, v, w });
        }
    }
}

// The state after one draw.
fn state_after(state: u32) -> u32
    ensures { result ≡ next state }
{
    ((u64::from(state) * MULTIPLIER + INCREMENT) % STATES) as u32
}
