//! The tree of digits in which the routes are kept.
ghost use Rattle.std.specs.Prelude.{◌≡◌, ◌+◌, ◌^◌, ◌<◌, ◌≤◌, [], ◌∷◌, Some, None, IfOk, OnOk, OnErr, IsTrue};
ghost use Rattle.std.specs.Prelude.{length, take, slice_index, vec_len, vec_capacity};
ghost use Rattle.std.specs.Option.{option_map};
ghost use Rattle.packet_codec.specs.Address.{are_decimal};
ghost use Rattle.address_routes.specs.Tree.{new_node, node_at, child, walk as walked, line_to, line_of, IsLinked};
ghost use Rattle.address_routes.specs.Tree.{with_child, with_nodes, last_node, with_line};

use crate::line_no::LineNo;
use std::alloc::{AllocError, Global};

/// The number of a node.
#[derive(Clone, Copy)]
pub(crate) struct NodeNo(u16);

/// A node: to which node each further digit leads, and the line of the digits that lead here, if they have a route.
#[derive(Clone, Copy)]
struct Node {
    next: [Option<NodeNo>; 10],
    line: Option<LineNo>,
}

/// The nodes by number. The root has number 0.
#[derive(Drop)]
pub(crate) struct Tree {
    nodes: Vec<Node>,
}

/// How far digits lead from the root.
#[derive(Clone, Copy)]
pub(crate) struct Walk {
    /// The last node.
    pub(crate) node: NodeNo,
    /// How many of the digits lead there.
    pub(crate) digits: usize,
    /// The line of the last node on the way that has one.
    pub(crate) line: Option<LineNo>,
    /// The line of the node to which all the digits lead.
    pub(crate) whole: Option<LineNo>,
}

impl Tree {
    /// The root alone.
    pub(crate) fn new(alloc: Global) -> Result<Tree, AllocError>
        ensures { IfOk result (λ tree. tree.nodes.items ≡ new_node ∷ []) }
    {
        let mut nodes = Vec::with_capacity(alloc, 1)?;
        nodes.push(Node {
            next: [None; 10],
            line: None,
        })?;
        Ok(Tree { nodes })
    }

    /// Follows the digits from the root as far as there are nodes.
    pub(crate) fn walk(&self, digits: &[u8]) -> Walk
        requires linked { IsLinked self.now.nodes.items }
        requires decimal { IsTrue (are_decimal digits.now) }
        ensures reached { walked self.now.nodes.items (take result.digits digits.now) 0 ≡ Some result.node.0 }
        ensures within { result.digits ≤ length digits.now }
        ensures last { result.digits < length digits.now
            → child self.now.nodes.items result.node.0 (slice_index digits.now result.digits) ≡ None }
        ensures line { option_map (λ line. line.0) result.line ≡ line_to result.digits self.now.nodes.items digits.now }
        ensures whole { option_map (λ line. line.0) result.whole ≡ line_of self.now.nodes.items digits.now }
    {
        let mut node = NodeNo(0);
        let mut line = None;
        for (i, digit) in digits.iter().enumerate() {
            let Some(next) = self.next(node, *digit) else {
                return Walk {
                    node,
                    digits: i,
                    line,
                    whole: None,
                };
            };
            node = next;
            line = self.line(node).or(line);
        }
        Walk {
            node,
            digits: digits.len(),
            line,
            whole: self.line(node),
        }
    }

    /// The node that a digit leads to.
    fn next(&self, node: NodeNo, digit: u8) -> Option<NodeNo>
        requires node_in { node.0 < length self.now.nodes.items }
        requires digit_in { digit < 10 }
        ensures { result ≡ child self.now.nodes.items node.0 digit }
    {
        self.nodes[usize::from(node.0)].next[usize::from(digit)]
    }

    /// The line of a node.
    fn line(&self, node: NodeNo) -> Option<LineNo>
        requires { node.0 < length self.now.nodes.items }
        ensures { result ≡ (node_at self.now.nodes.items node.0).line }
    {
        self.nodes[usize::from(node.0)].line
    }

    /// Adds a node for each digit, from a node on, and gives the last. Memory for all of them is taken before any is
    /// added.
    pub(crate) fn add_nodes(&mut self, node: NodeNo, digits: &[u8]) -> Result<NodeNo, AllocError>
        requires node_in { node.0 < length self.old.nodes.items }
        requires decimal { IsTrue (are_decimal digits.now) }
        requires numbers { length self.old.nodes.items + length digits.now ≤ 2 ^ 16 }
        ensures nodes { OnOk result (self.new.nodes.items ≡ with_nodes self.old.nodes.items node.0 digits.now) }
        ensures end { IfOk result (λ last. last.0 ≡ last_node (length self.old.nodes.items) node.0 digits.now) }
        ensures err { OnErr result (self.new.nodes.items ≡ self.old.nodes.items) }
    {
        self.nodes.reserve(digits.len())?;
        let mut last = node;
        for digit in digits {
            last = self.add_child(last, *digit);
        }
        Ok(last)
    }

    /// Adds the node that a digit leads to, for which there is memory.
    fn add_child(&mut self, node: NodeNo, digit: u8) -> NodeNo
        requires node_in { node.0 < length self.old.nodes.items }
        requires digit_in { digit < 10 }
        requires numbers { length self.old.nodes.items < 2 ^ 16 }
        requires memory { vec_len self.old.nodes < vec_capacity self.old.nodes }
        ensures nodes { self.new.nodes.items ≡ with_child self.old.nodes.items node.0 digit }
        ensures number { result.0 ≡ length self.old.nodes.items }
        ensures memory { vec_capacity self.old.nodes ≤ vec_capacity self.new.nodes }
    {
        let child = NodeNo(self.nodes.len() as u16);
        self.nodes.push_reserved(Node {
            next: [None; 10],
            line: None,
        });
        let parent = &mut self.nodes[usize::from(node.0)];
        parent.next[usize::from(digit)] = Some(child);
        child
    }

    /// Gives a node a line.
    pub(crate) fn set_line(&mut self, node: NodeNo, line: LineNo)
        requires { node.0 < length self.old.nodes.items }
        ensures { self.new.nodes.items ≡ with_line self.old.nodes.items node.0 line }
    {
        self.nodes[usize::from(node.0)].line = Some(line);
    }
}
