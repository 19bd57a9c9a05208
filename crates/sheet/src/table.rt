// The table of places that reading leaves for the layers above: what stands where, and nothing of what it means (specs/Table.antt says
// that). Assumes nothing.
ghost use Rattle.std.specs.Prelude.{◌≡◌, ◌<◌, ◌≤◌, get_or};

#[derive(Clone, Copy)]
pub struct Table {
    // The places of the variables' records.
    pub records: [usize; 32],
    // The numbers of the variables' first elements, and after the last variable's the element total.
    pub firsts: [usize; 33],
    // How many variables there are.
    pub variables: usize,
    // The places of the second and third section's counts.
    pub second: usize,
    pub third: usize,
    // How many nodes there are.
    pub nodes: usize,
    // The places where the variables' bodies start, and after the last one's where it ends, as a later layer stores them.
    pub bodies: [usize; 33],
}

impl Table {
    ghost use Rattle.sheet.specs.Table.{blank, noted, with_body};

    // A table to read into, which says nothing yet.
    pub fn new() -> Table
        ensures { result ≡ blank }
    {
        Table {
            records: [0; 32],
            firsts: [0; 33],
            variables: 0,
            second: 0,
            third: 0,
            nodes: 0,
            bodies: [0; 33],
        }
    }

    // The place of variable v's record.
    pub fn record_place(&self, v: usize) -> usize
        requires { v < 32 }
        ensures { result ≡ get_or self.now.records v 0 }
    {
        self.records[v]
    }

    // The number of variable v's first element; of the variable after the last, the element total.
    pub fn first_element(&self, v: usize) -> usize
        requires { v ≤ 32 }
        ensures { result ≡ get_or self.now.firsts v 0 }
    {
        self.firsts[v]
    }

    // How many variables there are.
    pub fn variable_count(&self) -> usize
        ensures { result ≡ self.now.variables }
    {
        self.variables
    }

    // The place of the second section's count.
    pub fn second_place(&self) -> usize
        ensures { result ≡ self.now.second }
    {
        self.second
    }

    // The place of the third section's count.
    pub fn third_place(&self) -> usize
        ensures { result ≡ self.now.third }
    {
        self.third
    }

    // How many nodes there are.
    pub fn node_count(&self) -> usize
        ensures { result ≡ self.now.nodes }
    {
        self.nodes
    }

    // The place of variable v's body, as a later layer stored it.
    pub fn body_place(&self, v: usize) -> usize
        requires { v ≤ 32 }
        ensures { result ≡ get_or self.now.bodies v 0 }
    {
        self.bodies[v]
    }

    // Stores the place of variable v's body.
    pub fn keep_body(&mut self, v: usize, place: usize)
        requires { v ≤ 32 }
        ensures { self.new ≡ with_body self.old v place }
    {
        self.bodies[v] = place;
    }

    // Stores the numbers of the sections.
    pub fn note(&mut self, variables: usize, second: usize, third: usize, nodes: usize)
        ensures { self.new ≡ noted self.old variables second third nodes }
    {
        self.variables = variables;
        self.second = second;
        self.third = third;
        self.nodes = nodes;
    }
}
