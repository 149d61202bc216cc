//! What a text tells its readers beside the netlist: names of nets, headings of sections, and lines in front.

/// What is told of one node.
#[derive(Drop)]
pub struct Label {
    /// What the node is called, of any bytes; empty where it has no name of its own.
    pub name: Vec<u8>,
    /// The heading of the section that begins with the node; empty where none does.
    pub above: Vec<u8>,
}

/// What is told of a netlist.
#[derive(Drop)]
pub struct Labels {
    /// The lines in front of the module.
    pub head: Vec<Vec<u8>>,
    /// The labels of the nodes, each at the place of its node's number.
    pub nodes: Vec<Label>,
}
