// What no clause says: that memory is there, and that the definitions mean these texts.
mod names;
mod operations;
mod plans;
mod prints;
mod tables;
mod texts;
mod tokens;
