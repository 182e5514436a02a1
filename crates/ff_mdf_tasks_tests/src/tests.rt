// What no clause says: that memory is there, that threads come to their end, and the time of long programs.
mod large;
mod refused;
mod rows;
mod told;
