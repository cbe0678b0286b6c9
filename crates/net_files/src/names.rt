//! The names of a network's nodes.
ghost use Rattle.std.specs.Prelude.{◌≡◌, ℕ, List, map, string_bytes, IfOk};
ghost use Rattle.std.specs.Cmp.Lexicographic.{slice_cmp};
ghost use Rattle.std.specs.Ordering.{nat_cmp};
ghost use Rattle.std.specs.BTreeMap.{get_by};
ghost use Rattle.net_files.specs.Words.{node_of};
ghost use Rattle.net_files.specs.Scripts.{AreNamesOf, node_name};

use net_config::{Config, NodeConfig};
use std::alloc::{AllocError, Global};
use std::collections::BTreeMap;
use std::marker::Model;

/// The names of a network's nodes, in order, and for each name the place of the first node that has it.
#[derive(Drop)]
pub(crate) struct Names<'a> {
    list: Vec<String>,
    places: BTreeMap<&'a [u8], usize>,
}

impl<'a> Model for Names<'a> {
    ghost use Rattle.std.specs.Prelude.{List, ℕ};

    ghost Value = { List (List ℕ) };

    ghost use Rattle.net_files.specs.NamesView.{octets_of_names, AreFirstPlaces};

    ghost view = { octets_of_names };

    ghost invariant = { AreFirstPlaces };
}

impl<'a> Names<'a> {
    /// The names of a network's nodes.
    pub(crate) fn of(alloc: Global, config: &'a Config) -> Result<Names<'a>, AllocError>
        ensures { IfOk result (λ names. names ≡ map node_name config.now.nodes.items) }
    {
        Ok(Names {
            list: names_of(alloc, &config.nodes)?,
            places: places_of(alloc, &config.nodes)?,
        })
    }

    /// The place of the first node of a name.
    pub(crate) fn place_of(&self, name: &[u8]) -> Option<usize>
        ensures { result ≡ node_of self.now name.now }
    {
        self.places.get(name).copied()
    }

    /// The names alone.
    pub(crate) fn into_list(self) -> Vec<String>
        ensures { map string_bytes result.items ≡ self.entry }
    {
        let Names { list, .. } = self;
        list
    }
}

/// The names of nodes.
fn names_of(alloc: Global, nodes: &[NodeConfig]) -> Result<Vec<String>, AllocError>
    ensures { IfOk result (λ names. AreNamesOf nodes.now names.items) }
{
    let mut names = Vec::new(alloc);
    for node in nodes {
        names.push(node.name.clone()?)?;
    }
    Ok(names)
}

/// For each name the place of the first node that has it.
fn places_of<'a>(
    alloc: Global,
    nodes: &'a [NodeConfig],
) -> Result<BTreeMap<&'a [u8], usize>, AllocError>
    ensures { IfOk result (λ places. (word : List ℕ) → get_by (λ name. slice_cmp nat_cmp word name.now) places
        ≡ node_of (map node_name nodes.now) word) }
{
    let mut places = BTreeMap::new(alloc);
    for place in (0..nodes.len()).rev() {
        places.insert(nodes[place].name.as_bytes(), place)?;
    }
    Ok(places)
}
