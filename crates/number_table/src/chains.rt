//! Stacks of nodes with numbers, from which nothing is ever added or taken: a node moves from the top of one stack to the
//! top of another. Whoever holds chains keeps what belongs to a node under the node's number. A node has links to the one
//! below it and to one further below, as the nodes of a skew-binary list have: so the node at a position is found in a
//! logarithm of the stack's size, but for stacks of free nodes, in which nothing is looked for by its position.

ghost use Rattle.std.specs.Prelude.{◌≡◌, ◌≢◌, ℕ, ◌+◌, ◌-◌, ◌<◌, ◌≤◌, ◌^◌, length, IfOk};
ghost use Rattle.number_table.specs.Chains.{IsChains, node_at, JumpsFrom, AreFree, IsOneStack};

use jk_model::OutOfMemory;
use std::alloc::Global;

/// Where a node stands: its stack, and how many nodes are below it there; the number of the node below, and that of one
/// further below. The lowest node has numbers of no meaning for the first, and its own for the second.
#[derive(Clone, Copy)]
struct Node {
    stack: usize,
    position: usize,
    below: usize,
    jump: usize,
}

/// A stack: how many nodes it has, and the number of the top one, where there is one.
#[derive(Clone, Copy)]
struct Stack {
    count: usize,
    top: usize,
}

/// So many nodes on so many stacks.
#[derive(Drop)]
pub struct Chains {
    nodes: Vec<Node>,
    stacks: Vec<Stack>,
    ghost ok: { IsChains nodes.items stacks.items },
}

impl Chains {
    ghost use Rattle.std.specs.Prelude.{◌≡◌, ◌≢◌, ℕ, ◌+◌, ◌-◌, ◌<◌, ◌≤◌, ◌^◌, length, IfOk};
    ghost use Rattle.number_table.specs.Chains.{node_at, stack_at, JumpsFrom};
    ghost use Rattle.number_table.specs.ChainMoves.{count, place, nodes, stacks, stack_of, MovesTop};

    /// So many nodes, all on the last of the stacks, whose number is `last`.
    pub fn new(alloc: Global, size: usize, last: usize) -> Result<Chains, OutOfMemory>
        requires few_stacks { last < 2 ^ 63 }
        ensures nodes { IfOk result (λ c. nodes c ≡ size) }
        ensures stacks { IfOk result (λ c. stacks c ≡ last + 1) }
        ensures last { IfOk result (λ c. count c last ≡ size) }
        ensures others { IfOk result (λ c. (i : ℕ) → i < last → count c i ≡ 0) }
    {
        let nodes = free_nodes(alloc, size, last)?;
        let stacks = one_stack(alloc, size, last)?;
        Ok(Chains { nodes, stacks })
    }

    /// No nodes on no stacks.
    pub fn empty(alloc: Global) -> Chains
        ensures nodes { nodes result ≡ 0 }
        ensures stacks { stacks result ≡ 0 }
    {
        Chains {
            nodes: Vec::new(alloc),
            stacks: Vec::new(alloc),
        }
    }

    /// The stack of a node.
    pub fn stack_of(&self, node: usize) -> usize
        requires { node < nodes self.now }
        ensures { result ≡ stack_of self.now node }
    {
        self.nodes[node].stack
    }

    /// How many nodes a stack has.
    pub fn count(&self, stack: usize) -> usize
        requires { stack < stacks self.now }
        ensures { result ≡ count self.now stack }
    {
        self.stacks[stack].count
    }

    /// The number of the top node of a stack.
    pub fn top(&self, stack: usize) -> usize
        requires there { stack < stacks self.now }
        requires some { 0 < count self.now stack }
        ensures top { result ≡ place self.now stack (count self.now stack - 1) }
        ensures within { result < nodes self.now }
    {
        self.stacks[stack].top
    }

    /// The number of the node at a position of a stack.
    pub fn at(&self, stack: usize, position: usize) -> usize
        requires there { stack < stacks self.now }
        requires some { position < count self.now stack }
        ensures at { result ≡ place self.now stack position }
        ensures within { result < nodes self.now }
    {
        let mut number = self.stacks[stack].top;
        while self.nodes[number].position > position {
            let node = self.nodes[number];
            number = nearer(self.nodes.as_slice(), node, position);
        }
        number
    }

    /// Moves the top node of a stack to the top of another.
    #[inline]
    pub fn move_top(&mut self, from: usize, to: usize) -> usize
        requires from_there { from < stacks self.old }
        requires to_there { to < stacks self.old }
        requires apart { from ≢ to }
        requires some { 0 < count self.old from }
        ensures moves { MovesTop self.old self.new from to result }
        ensures within { result < nodes self.old }
    {
        let under = self.stacks[to];
        let moved = self.stacks[from].top;
        let jump = jump_above(self.nodes.as_slice(), under, moved);
        self.link_top(from, to, jump)
    }

    /// As `move_top`, where no node of the other stack is looked for by its position, as of a stack of free nodes: the second
    /// link is the one below too, which costs nothing to find.
    #[inline(always)]
    pub fn free_top(&mut self, from: usize, to: usize) -> usize
        requires from_there { from < stacks self.old }
        requires to_there { to < stacks self.old }
        requires apart { from ≢ to }
        requires some { 0 < count self.old from }
        ensures moves { MovesTop self.old self.new from to result }
        ensures within { result < nodes self.old }
    {
        let under = self.stacks[to];
        let jump = if under.count == 0 {
            self.stacks[from].top
        } else {
            under.top
        };
        self.link_top(from, to, jump)
    }

    /// Moves the top node of a stack to the top of another, with this second link.
    #[inline(always)]
    fn link_top(&mut self, from: usize, to: usize, jump: usize) -> usize
        requires from_there { from < stacks self.old }
        requires to_there { to < stacks self.old }
        requires apart { from ≢ to }
        requires some { 0 < count self.old from }
        requires jumps { JumpsFrom self.old.nodes.items (stack_at self.old.stacks.items to) (stack_at self.old.stacks.items from).top jump }
        ensures moves { MovesTop self.old self.new from to result }
        ensures within { result < nodes self.old }
    {
        let taken = self.stacks[from];
        let under = self.stacks[to];
        let moved = taken.top;
        let below = self.nodes[moved].below;
        self.stacks[from] = Stack {
            count: taken.count - 1,
            top: below,
        };
        self.stacks[to] = Stack {
            count: under.count + 1,
            top: moved,
        };
        self.nodes[moved] = Node {
            stack: to,
            position: under.count,
            below: under.top,
            jump,
        };
        moved
    }
}

/// Of a node's two links, the further one that doesn't pass a position below it.
fn nearer(nodes: &[Node], node: Node, position: usize) -> usize
    requires { node.jump < length nodes.now }
    ensures jumps { position ≤ (node_at nodes.now node.jump).position → result ≡ node.jump }
    ensures steps { (node_at nodes.now node.jump).position < position → result ≡ node.below }
{
    if nodes[node.jump].position >= position {
        node.jump
    } else {
        node.below
    }
}

/// The second link of a node that is put on top of a stack. It makes two steps down of equal size one.
fn jump_above(nodes: &[Node], under: Stack, moved: usize) -> usize
    requires top { 0 < under.count → under.top < length nodes.now }
    requires first { 0 < under.count → (node_at nodes.now under.top).jump < length nodes.now }
    requires second { 0 < under.count → (node_at nodes.now (node_at nodes.now under.top).jump).jump < length nodes.now }
    ensures { JumpsFrom nodes.now under moved result }
{
    if under.count == 0 {
        return moved;
    }
    let near = nodes[under.top];
    let far = nodes[near.jump];
    let furthest = nodes[far.jump].position;
    // Positions fall from one to the next, so neither difference wraps.
    if near.position.wrapping_sub(far.position) == far.position.wrapping_sub(furthest) {
        far.jump
    } else {
        under.top
    }
}

/// So many nodes on the stack of this number.
fn free_nodes(alloc: Global, count: usize, stack: usize) -> Result<Vec<Node>, OutOfMemory>
    ensures free { IfOk result (λ v. AreFree v.items count stack) }
    ensures few { IfOk result (λ v. length v.items < 2 ^ 63) }
{
    let mut nodes = Vec::with_capacity(alloc, count)?;
    for position in 0..count {
        let below = position.saturating_sub(1);
        nodes.push_reserved(Node {
            stack,
            position,
            below,
            jump: below,
        });
    }
    Ok(nodes)
}

/// The stacks up to this one, which has so many nodes, in order of their numbers, while the others have none.
fn one_stack(alloc: Global, count: usize, last: usize) -> Result<Vec<Stack>, OutOfMemory>
    requires { last < 2 ^ 63 }
    ensures { IfOk result (λ v. IsOneStack v.items count last) }
{
    let mut stacks = Vec::with_capacity(alloc, last + 1)?;
    for _ in 0..last {
        stacks.push_reserved(Stack { count: 0, top: 0 });
    }
    stacks.push_reserved(Stack {
        count,
        top: count.saturating_sub(1),
    });
    Ok(stacks)
}
