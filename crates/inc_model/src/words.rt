// The words of the relation.
pub mod event;
pub mod file_state;
pub mod limits;
pub mod machine;
pub mod outcomes;
pub mod reply;
