// What no clause says: that memory is there, that the definitions mean these values, and the time of long programs.
mod large;
mod rows;
mod told;
