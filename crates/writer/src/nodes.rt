// Writing a node: six bytes.
ghost use Rattle.std.specs.Prelude.{◌≡◌, ◌+◌, ◌<◌, ◌≤◌, length};
ghost use Rattle.writer.specs.Written.{node as bytes_of, Wrote};

use mtl::ruling::Node;

// The node of a line at a row.
pub(crate) fn node_of(line: u8, rule: u8, row: usize, count: usize) -> Node
    requires { (row < 65536) × (count < 65536) }
    ensures { result ≡ record { line = line; rule = rule; row = row; count = count } }
{
    Node {
        line,
        rule,
        row: row as u16,
        count: count as u16,
    }
}

// Writes a node at a place of the output, and tells where it ends.
pub(crate) fn put_node(out: &mut [u8], at: usize, node: Node) -> usize
    requires { at + 6 ≤ length out.old }
    ensures { Wrote out.old out.new at result (bytes_of node.line node.rule node.row node.count) }
{
    out[at..at + 6].copy_from_slice(&<[u8; 6]>::from(node));
    at + 6
}
