// Node numbers of the quaternary tree: level, parent, child, range of units, and the lists of nodes that a client walks. No function has a
// loop: a step of k levels is a shift by 2 * k bits. `Node 12 n` says that n is a node of the highest tree. There is no type for such a number, nor for h
// and m: all three are numbers of C's records and settings, compared there and used as indices, so that each call in `lock` and `runs` would make
// the type under the very clause that stands here, and the number would be taken out again.
#![tactic(auto, using(crate::proofs::laws::Code::shifts))]

ghost use Rattle.std.specs.Prelude.{◌≡◌, ◌+◌, ◌-◌, ◌<◌, ◌≤◌, length, get_or};
ghost use Rattle.tree.specs.rules.Tree.{parent, child, climb, leftmost, first, last, level, Node, size, left};
ghost use Rattle.tree.specs.rules.Lists.{ancestor, ancestors, notify_list, check_list};
ghost use Rattle.tree.specs.laws.Notify.{notify_level};

// One more than the place of the highest pair of bits of 3 * n - 2.
pub fn level(n: u64) -> u64
    requires { Node 12 n }
    ensures { result ≡ level n }
{
    u64::ilog2(3 * n - 2) as u64 / 2 + 1
}

pub fn parent(n: u64) -> u64
    requires { Node 12 n }
    ensures { result ≡ parent n }
{
    (n + 2) >> 2
}

pub fn child(n: u64, i: u64) -> u64
    requires { Node 12 n × (i < 4) }
    ensures { result ≡ child n i }
{
    4 * n - 2 + i
}

pub fn first_node(d: u64) -> u64
    requires { (1 ≤ d) × (d ≤ 13) }
    ensures { result ≡ first d }
{
    (1u64 << (2 * (d - 1))) / 3 + 1
}

pub fn last_node(d: u64) -> u64
    requires { (1 ≤ d) × (d ≤ 12) }
    ensures { result ≡ last d }
{
    first_node(d + 1) - 1
}

// The node that k steps to the parent lead to.
pub fn climb(n: u64, k: u64) -> u64
    requires { Node 12 n × (k < level n) }
    ensures { result ≡ climb k n }
{
    ((n - first_node(k + 1)) >> (2 * k)) + 1
}

// The first of the nodes that are k levels below n.
pub fn leftmost(n: u64, k: u64) -> u64
    requires { (1 ≤ n) × (level n + k ≤ 12) }
    ensures { result ≡ leftmost k n }
{
    ((n - 1) << (2 * k)) + first_node(k + 1)
}

pub fn size(h: u64, n: u64) -> u64
    requires { (h ≤ 12) × Node h n }
    ensures { result ≡ size h n }
{
    64u64 << (2 * (h - level(n)))
}

pub fn left_edge(h: u64, n: u64) -> u64
    requires { (h ≤ 12) × Node h n }
    ensures { result ≡ left h n }
{
    64 * (leftmost(n, h - level(n)) - first_node(h))
}

// The ancestor of n at level d; n itself at its own level.
pub fn ancestor(n: u64, d: u64) -> u64
    requires { Node 12 n × (1 ≤ d) × (d ≤ level n) }
    ensures { result ≡ ancestor d n }
{
    climb(n, level(n) - d)
}

// The ancestor at place i, parent first.
pub fn ancestor_at(n: u64, i: u64) -> u64
    requires { Node 12 n × (i < length (ancestors n)) }
    ensures { result ≡ get_or (ancestors n) i 0 }
{
    climb(n, i + 1)
}

// (level + m - 2) / m, with a division by a constant for every m: one by a variable is slow.
pub fn notify_count(m: u64, n: u64) -> u64
    requires { (1 ≤ m) × (m ≤ 4) × Node 12 n }
    ensures { result ≡ length (notify_list m n) }
{
    let d = level(n);
    match m {
        1 => d - 1,
        2 => d / 2,
        3 => (d + 1) / 3,
        _ => (d + 2) / 4,
    }
}

// How many levels above a node of level d the node stands that it notifies at place i.
fn notify_steps(m: u64, d: u64, i: u64) -> u64
    requires { (m ≤ 4) × (1 ≤ d) × (i < 12) }
    ensures { result ≡ d - notify_level m d i }
{
    if d <= m {
        return 1;
    }
    u64::min(i * m + 1, d - m)
}

pub fn notify_node(m: u64, n: u64, i: u64) -> u64
    requires { (1 ≤ m) × (m ≤ 4) × Node 12 n × (i < length (notify_list m n)) }
    ensures { result ≡ get_or (notify_list m n) i 0 }
{
    climb(n, notify_steps(m, level(n), i))
}

pub fn check_count(h: u64, m: u64, n: u64) -> u64
    requires { (h ≤ 12) × (1 ≤ m) × (m ≤ 4) × Node h n }
    ensures { result ≡ length (check_list h m n) }
{
    first_node(u64::min(m, h - level(n)) + 1) - 1
}

// The nodes below n stand in the order of the nodes 1, 2, 3, .. below the root: each that is k levels down stands (n - 1) * 4 ^ k further on.
pub fn check_node(h: u64, m: u64, n: u64, i: u64) -> u64
    requires { (h ≤ 12) × (1 ≤ m) × Node h n × (i < length (check_list h m n)) }
    ensures { result ≡ get_or (check_list h m n) i 0 }
{
    ((n - 1) << (2 * (level(i + 1) - 1))) + i + 1
}
