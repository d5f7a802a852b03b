//! Layouts: the parts that the places of a stream are divided into over time.
#![tactic(auto)]

mod children;
mod fault;
mod finder;
mod finding;
mod followers;
mod holding;
mod laws;
mod layout;
mod live;
mod refusals;
mod tokens;

pub use fault::LayoutFault;
pub use finder::Finder;
pub use laws::{
    holders_are_one, holders_stay, indexes_name_parts, live_lists_are_one, names_make_tokens,
    new_layouts_are_layouts, reshape_keeps_layouts,
};
pub use layout::Layout;
