//! Containers under tags and identities: a map that keeps an order, a map from identities, and sets of link places.
#![tactic(auto)]

mod code_list;
mod homes;
mod identity_map;
mod link_place;
mod links;
mod name_index;
mod ordered_map;
mod spot;
mod tag_code;
mod tag_hasher;
mod tag_list;
mod tag_search;

pub use identity_map::IdentityMap;
pub use link_place::LinkPlace;
pub use links::{Links, Places};
pub use name_index::NameIndex;
pub use ordered_map::OrderedMap;
pub use spot::Spot;
