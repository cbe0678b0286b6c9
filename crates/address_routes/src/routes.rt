//! The routes of a switch.
ghost use Rattle.std.specs.Prelude.{◌≡◌, IfOk, OnOk, OnErr, IsOkUnless, MatchOption};
ghost use Rattle.std.specs.Option.{option_map};
ghost use Rattle.std.specs.FinMap as map;
ghost use Rattle.address_routes.specs.declared.fault.RouteFault.TheVariants as route_fault_is;
ghost use Rattle.address_routes.specs.Routes.{line_for, looks_for, add_fault, IsLongest, NoneBegins};

use crate::fault::RouteFault;
use crate::line_no::LineNo;
use crate::tree::Tree;
use packet_codec::Address;
use std::alloc::{AllocError, Global};
use std::marker::Model;

/// The most routes that a switch has.
pub const MAX_ROUTES: usize = 256;

/// The routes of a switch, at most 256, each prefix with one line (X.121).
///
/// They are kept in a tree of digits, so that a look-up looks at one node a digit. The tree has at most 3,841 nodes:
/// the root and fifteen for each route.
#[derive(Drop)]
pub struct Routes {
    tree: Tree,
    count: usize,
}

impl Model for Routes {
    ghost use Rattle.std.specs.Prelude.{List, ℕ};
    ghost use Rattle.std.specs.FinMap as map;
    ghost use Rattle.std.specs.Coded.{coded_ℕ, coded_list};
    ghost use Rattle.address_routes.specs.Routes.{by_digits};

    ghost Value = { map.FinMap by_digits ℕ };

    ghost coded = { map.code (coded_list coded_ℕ) coded_ℕ };

    ghost use Rattle.address_routes.specs.RoutesView.{map_of, AreRoutes};

    ghost view = { λ r. map_of r.tree.nodes.items };

    ghost invariant = { λ r. AreRoutes r.tree.nodes.items r.count };
}

impl Routes {
    /// No routes. `OutOfMemory` if there is no memory for the root of the tree.
    pub fn new(alloc: Global) -> Result<Self, AllocError>
        ensures { IfOk result (λ routes. routes ≡ map.empty) }
    {
        Ok(Routes {
            tree: Tree::new(alloc)?,
            count: 0,
        })
    }

    /// Adds a route to the line for the calls to addresses that begin with the prefix. `Duplicate` if the prefix has a
    /// route, then `Full` if there are 256 routes, then `OutOfMemory`. A route that is refused changes nothing.
    pub fn add(&mut self, prefix: &Address, line: LineNo) -> Result<(), RouteFault>
        ensures faults { MatchOption (add_fault prefix.now self.old) (IsOkUnless result route_fault_is.OutOfMemory)
            (λ fault. result ≡ Err fault) }
        ensures ok { OnOk result (self.new ≡ map.insert self.old prefix.now line.0) }
        ensures err { OnErr result (self.new ≡ self.old) }
    {
        let digits = prefix.digits();
        let walk = self.tree.walk(digits);
        if walk.whole.is_some() {
            return Err(RouteFault::Duplicate);
        }
        if self.count >= MAX_ROUTES {
            return Err(RouteFault::Full);
        }
        let node = self.tree.add_nodes(walk.node, &digits[walk.digits..])?;
        self.tree.set_line(node, line);
        self.count += 1;
        Ok(())
    }

    /// The line of the longest prefix that the address begins with, if one has a route.
    pub fn find(&self, address: &Address) -> Option<LineNo>
        ensures longest { MatchOption result (NoneBegins self.now address.now)
            (λ line. IsLongest self.now address.now line.0) }
        ensures line { option_map (λ l. l.0) result ≡ line_for self.now address.now }
    {
        self.find_looks(address).0
    }

    /// What `find` answers, and how many nodes of the tree it looks at: the root, and one for each beginning of the
    /// address that begins the prefix of some route.
    pub fn find_looks(&self, address: &Address) -> (Option<LineNo>, u8)
        ensures longest { MatchOption result.0 (NoneBegins self.now address.now)
            (λ line. IsLongest self.now address.now line.0) }
        ensures line { option_map (λ l. l.0) result.0 ≡ line_for self.now address.now }
        ensures looks { result.1 ≡ looks_for self.now address.now }
    {
        let walk = self.tree.walk(address.digits());
        (walk.line, walk.digits as u8 + 1)
    }
}
