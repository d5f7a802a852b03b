//! What a change stream captures of a history.
#![tactic(auto)]

mod captured;
mod changes;
mod choosing;
mod column_names;
mod columns;
mod laws;
mod table;

pub use captured::capture;
pub use changes::wanted;
pub use laws::{
    a_delete_has_no_new_cells, a_new_row_is_whole, an_insert_has_no_old_cells,
    captured_changes_can_be_grouped, captures_nothing, cells_are_of_watched_columns,
    changes_are_of_one_database, ordinals_rise, told_columns_are_listed,
};
pub use table::{Told, ToldCells, capture_table};
