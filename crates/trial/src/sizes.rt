// What a script has set: the node count, the lengths lent of the three tables, a length of the program's own, and the lengths lent of the
// store and of names.
use crate::script::Line;
use rows::Graph;

#[derive(Clone, Copy, Default)]
pub struct Sizes {
    pub n: u64,
    pub edges: u64,
    pub nodes: u64,
    pub keys: u64,
    pub own: u64,
    pub store: u64,
    pub name: u64,
}

impl Sizes {
    // The node count, and the right lengths for it.
    fn set_size(&mut self, n: u64) {
        let n = n % 65536;
        self.n = n;
        self.edges = 8 * n;
        self.nodes = (Graph::NODE_NUMBERS as u64) * n;
        self.keys = 2 * n;
        self.store = 1 + 8 * (3 + 9 * n);
        self.name = 16;
    }

    // Lines that set sizes.
    pub fn execute(&mut self, line: &Line) {
        let [_, a, b, c, _, _] = line.numbers;
        match line.command {
            b's' => self.set_size(a),
            b'l' => {
                self.edges = a;
                self.nodes = b;
                self.keys = c;
            }
            b'L' => {
                self.store = a;
                self.name = b;
            }
            _ => {}
        }
    }
}
