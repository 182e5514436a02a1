// What no clause says: that memory is there, and that the definitions mean these texts.
mod limits;
mod tables;
mod texts;
