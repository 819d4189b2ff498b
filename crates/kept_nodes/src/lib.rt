// A server's share from kept nodes, and a list of nodes at the roots.
#![tactic(auto)]

ghost use Rattle.std.specs.Prelude.{◌≡◌, map, length};
ghost use Rattle.calls.specs.Refusals.{number_in};
ghost use Rattle.nodes.specs.NodeLayout.{node_of};
ghost use Rattle.node_lists.specs.Roots.{roots_number, roots_after};
ghost use Rattle.node_lists.specs.ShareKept.{lent, kept_exit, kept_answered};
ghost use Rattle.turns.specs.Turns.{nodes_at, sums_at};
ghost use Rattle.kept_nodes.specs.Within.{Within};

use calls::Refusal;
use nodes::Node;
use turns::{Place, Task};

// All turns from a place on.
fn advance(
    task: Task,
    shares: &[u8],
    last: &[u8],
    query: &[u8],
    mut at: Place,
    nodes: &mut [Node],
    out: &mut [u8],
)
    requires { Within task shares.now last.now query.now at (length nodes.old) }
    ensures { (nodes.new ≡ nodes_at task shares.now last.now query.now at nodes.old at.left)
        × (out.new ≡ sums_at task shares.now last.now query.now at nodes.old out.old at.left) }
{
    for _ in 0..at.left {
        let (node, next) = turns::turn(task, shares, last, query, at, nodes[at.source], out);
        nodes[at.target] = node;
        at = next;
    }
}

// Writes a server's share for a query from the nodes kept at the last one, and leaves those at the new one; refuses with 1, 3, 4, 5, 6, 7, 9, 13, 14 or 11.
// C lends these one by one.
pub fn share_kept(
    n: u64,
    expander: u64,
    server: bool,
    public_shares: &[u8],
    last_query: &[u8],
    query: &[u8],
    nodes: &mut [Node],
    out: &mut [u8],
) -> Result<u64, Refusal>
    ensures { kept_answered result out.new (map node_of nodes.new)
        ≡ kept_exit (lent n expander server public_shares.now last_query.now query.now (map node_of nodes.old) out.old) }
{
    let task = turns::begin(
        n,
        expander,
        server,
        public_shares,
        last_query,
        query,
        nodes.len(),
        out,
    )?;
    let at = turns::first(task, last_query, query);
    advance(task, public_shares, last_query, query, at, nodes, out);
    Ok(turns::share_length(task))
}

// Writes the list at the roots; refuses with 4, 5 or 13.
pub fn write_roots(server: bool, seeds: &[u8], nodes: &mut [Node]) -> Result<(), Refusal>
    ensures { (number_in result ≡ roots_number seeds.now (length nodes.old))
        × (map node_of nodes.new ≡ roots_after server seeds.now (map node_of nodes.old)) }
{
    let count = node_lists::count_roots(seeds, nodes.len())?;
    for i in 0..count {
        nodes[i] = node_lists::root(server, seeds, i);
    }
    Ok(())
}
