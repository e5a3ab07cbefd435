// What goes into a cell and comes out of it.
pub mod answer;
pub mod digested;
pub mod entry_list;
pub mod event;
pub mod number_list;
