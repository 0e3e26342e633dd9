//! Numbers by their names, in the columns of mt_names.

use crate::fault::Wanted;
use mt_names::{
    Named, attribute_names, cluster_names, command_names, event_names, extension_names,
    global_names,
};

/// The number of a name in a column; None where no row has the name.
pub(crate) fn number_among(names: &'static [Named], word: &[u8]) -> Option<u32> {
    let named = names.iter().find(|named| named.name.as_bytes() == word)?;
    Some(named.number)
}

/// What a path names behind its cluster.
#[derive(Clone, Copy)]
pub(crate) enum Leaf {
    Attribute,
    Event,
    Command,
}

impl Leaf {
    /// The number of a name; a cluster that is a wildcard has the attributes that all have.
    pub(crate) fn number(self, cluster: Option<u32>, word: &[u8]) -> Option<u32> {
        let cluster = cluster.unwrap_or(u32::MAX);
        match self {
            Leaf::Attribute => attribute_number(cluster, word),
            Leaf::Event => number_among(event_names(cluster), word),
            Leaf::Command => number_among(command_names(cluster), word),
        }
    }

    /// What would fit where a name does not.
    pub(crate) fn wanted(self, cluster: Option<u32>) -> Wanted {
        let cluster = cluster.unwrap_or(u32::MAX);
        match self {
            Leaf::Attribute => Wanted::Attribute(cluster),
            Leaf::Event => Wanted::Event(cluster),
            Leaf::Command => Wanted::Command(cluster),
        }
    }
}

fn attribute_number(cluster: u32, word: &[u8]) -> Option<u32> {
    if let Some(number) = number_among(attribute_names(cluster), word) {
        return Some(number);
    }
    if let Some(number) = number_among(global_names(), word) {
        return Some(number);
    }
    number_among(extension_names(cluster), word)
}

/// The number of a cluster's name.
pub(crate) fn cluster_number(word: &[u8]) -> Option<u32> {
    number_among(cluster_names(), word)
}
